//! TeX's rule against writing outside the folder: `openout_any` in TeX Live's settings.

/// Which files may be written.
#[derive(Clone, Copy, PartialEq, Eq)]
pub enum Rule {
    Any,
    /// No hidden file.
    Restricted,
    /// No hidden file, and none outside the folder that the program was started in.
    Paranoid,
}

impl Rule {
    /// The rule by its first letter, as `kpsewhich -var-value=openout_any` gives it. The strictest is the default.
    pub fn of(word: &str) -> Rule {
        match word.as_bytes().first() {
            Some(b'a' | b'y' | b'1') => Rule::Any,
            Some(b'r' | b'n' | b'0') => Rule::Restricted,
            _ => Rule::Paranoid,
        }
    }

    /// The letter of the rule.
    pub fn letter(self) -> &'static str {
        match self {
            Rule::Any => "a",
            Rule::Restricted => "r",
            Rule::Paranoid => "p",
        }
    }

    /// Whether a file of this name may be written. `output` is the folder that TEXMFOUTPUT names.
    pub fn admits(self, path: &str, output: Option<&str>) -> bool {
        match self {
            Rule::Any => true,
            Rule::Restricted => !is_hidden(path),
            Rule::Paranoid => !is_hidden(path) && (is_below(path) || is_output(path, output)),
        }
    }
}

/// Whether a folder on the way or the file itself is hidden.
fn is_hidden(path: &str) -> bool {
    path.split('/').any(|part| part.starts_with('.') && part != "." && part != "..")
}

fn leads_up(path: &str) -> bool {
    path.split('/').any(|part| part == "..")
}

/// Whether a file lies in the folder that the program was started in, or below it.
fn is_below(path: &str) -> bool {
    !path.starts_with('/') && !leads_up(path)
}

fn is_output(path: &str, output: Option<&str>) -> bool {
    match output {
        Some(folder) => {
            let rest = path.strip_prefix(folder).unwrap_or("");
            rest.starts_with('/') && !leads_up(path)
        }
        None => false,
    }
}
