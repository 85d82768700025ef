//! How the program and the shell script that starts it communicate. The script can call `kpsewhich` and other programs. It
//! passes what they answer in environment variables, and reads the program's questions from a file that one of these
//! variables names.

use bt_programs::read;
use bt_text::Bytes;
use indexmap::IndexMap;
use std::alloc::{AllocError, Global};
use std::{env, fs};

/// The exit status that asks the script for the places of files, and to start the program again.
pub const FILES_WANTED: u8 = 75;

/// The exit status that asks the script to let another `bibtex` do the job.
pub const HAND_OVER: u8 = 76;

/// The paths that `kpsewhich` found, by the names that it was asked for.
type Places = IndexMap<Vec<u8>, Bytes>;

/// What the script passed.
#[derive(Drop)]
pub struct Script {
    /// The file that the script reads, if it does.
    asking: Option<String>,
    /// What `kpsewhich` found, if it was asked.
    places: Option<Places>,
    /// Whether files in the folder don't come first, because BIBINPUTS or BSTINPUTS is set.
    pub search_all: bool,
    /// The letter of TeX's rule for files that are written.
    pub rule: Option<String>,
    /// The folder that TEXMFOUTPUT names.
    pub output: Option<String>,
    /// A mark that keeps apart the files of two programs that run at once.
    mark: Option<String>,
}

/// A variable of the environment, unless it is missing or empty.
fn variable(rt: &HostRuntime, name: &str) -> Result<Option<String>, AllocError> {
    match env::var(rt, name) {
        Ok(value) if !value.is_empty() => Ok(Some(value)),
        Ok(_) => Ok(None),
        Err(env::VarError::OutOfMemory) => Err(AllocError),
        Err(_) => Ok(None),
    }
}

/// What separates two answers of `kpsewhich`: it is asked for this file, too, after each name.
const BETWEEN: &[u8] = b"/dev/null";

/// The names that `kpsewhich` was asked for, up to an empty line, and then its answers in the same order. A file that it
/// didn't find has no answer; of several answers the first one counts.
fn places(alloc: Global, text: &[u8]) -> Result<Places, AllocError> {
    let mut lines = text.split(|byte| *byte == b'\n');
    let mut names = Vec::new(alloc);
    'names: for line in &mut lines {
        if line.is_empty() {
            break;
        }
        if line != BETWEEN {
            names.push(line)?;
        }
    }
    let mut places = IndexMap::new(alloc);
    'places: for name in names.iter() {
        'answers: for line in &mut lines {
            if line == BETWEEN {
                break;
            }
            if !places.contains_key(*name) {
                let _ = places.insert(Vec::from_slice(alloc, name)?, Bytes::copied(alloc, line)?)?;
            }
        }
    }
    Ok(places)
}

/// What `kpsewhich` found, read from a file.
fn places_in(alloc: Global, rt: &HostRuntime, path: &str) -> Result<Places, AllocError> {
    match read(alloc, rt, path)? {
        Some(text) => places(alloc, text.as_slice()),
        None => Ok(IndexMap::new(alloc)),
    }
}

/// What `kpsewhich` is asked for: the styles and databases that are missing, and `BETWEEN` after each.
fn question(alloc: Global, missing: &[Bytes]) -> Result<Bytes, AllocError> {
    let mut question = Bytes::new(alloc);
    'names: for name in missing {
        let name = name.as_slice();
        if !name.ends_with(b".aux") {
            question.append_all(&[name, b"\n", BETWEEN, b"\n"])?;
        }
    }
    Ok(question)
}

impl Script {
    /// What the environment says about the script; nothing if there is none.
    pub fn of(rt: &HostRuntime) -> Result<Script, AllocError> {
        let alloc = rt.alloc();
        let places = match variable(rt, "DULSHENKO_FOUND")? {
            Some(path) => Some(places_in(alloc, rt, path.as_str())?),
            None => None,
        };
        Ok(Script {
            asking: variable(rt, "DULSHENKO_ASK")?,
            places,
            search_all: variable(rt, "DULSHENKO_SEARCH_ALL")?.is_some(),
            rule: variable(rt, "DULSHENKO_OPENOUT")?,
            output: variable(rt, "TEXMFOUTPUT")?,
            mark: variable(rt, "DULSHENKO_MARK")?,
        })
    }

    /// Whether another `bibtex` may do the job: a script is there to start it, and the user hasn't ruled it out.
    pub fn hands_over(&self, rt: &HostRuntime) -> Result<bool, AllocError> {
        Ok(self.asking.is_some() && variable(rt, "DULSHENKO_NO_FALLBACK")?.is_none())
    }

    /// Whether the script can be asked where files are.
    fn can_search(&self) -> bool {
        self.asking.is_some() && self.places.is_none()
    }

    /// Writes the questions for the script, and returns whether that succeeded.
    pub fn ask(&self, rt: &HostRuntime, text: &[u8]) -> bool {
        match &self.asking {
            Some(path) => fs::write(rt, path.as_str(), text).is_ok(),
            None => false,
        }
    }

    /// Asks the script to find missing files, and returns whether that succeeded; none if it has looked for all of them.
    pub fn ask_for_files(
        &self,
        rt: &HostRuntime,
        missing: &[Bytes],
    ) -> Result<Option<bool>, AllocError> {
        if !self.can_search() {
            return Ok(None);
        }
        let question = question(rt.alloc(), missing)?;
        if question.len() == 0 {
            return Ok(None);
        }
        Ok(Some(self.ask(rt, question.as_slice())))
    }

    /// The path that `kpsewhich` found for a name.
    pub fn path_of(&self, name: &[u8]) -> Option<&[u8]> {
        Some(self.places.as_ref()?.get(name)?.as_slice())
    }

    /// A mark that keeps this program's files apart from those of others that run at once.
    pub fn mark(&self) -> &str {
        match &self.mark {
            Some(mark) => mark.as_str(),
            None => "new",
        }
    }
}
