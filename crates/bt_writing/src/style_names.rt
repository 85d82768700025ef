//! What a style's text has for databases: the fields that its functions name, and the types of entries.

ghost use Rattle.std.specs.Prelude.{◌≡◌, ◌≤◌, length, count_by};
ghost use Rattle.std.specs.List.{list_any};
ghost use Rattle.bt_style_text.specs.Parts.{part};
ghost use Rattle.bt_writing.specs.StyleNames.{is_field, is_function, is_macro, is_use, is_end, names, is_read, has_function, is_alias, alias_count, is_inner_byte, is_type};

use bt_style_text::{Kind, Mark, Role, part};
use bt_text::eq_ignore_ascii_case;

/// A style's text and its words.
#[derive(Clone, Copy)]
pub struct StyleText<'a> {
    pub text: &'a [u8],
    pub marks: &'a [Mark],
}

fn is_field(role: Role) -> bool
    ensures { result ≡ is_field role }
{
    match role {
        Role::Declared(Kind::Field) => true,
        _ => false,
    }
}

fn is_function(role: Role) -> bool
    ensures { result ≡ is_function role }
{
    match role {
        Role::Declared(Kind::Function) => true,
        _ => false,
    }
}

/// Whether a word declares a macro.
pub fn is_macro(role: Role) -> bool
    ensures { result ≡ is_macro role }
{
    match role {
        Role::Declared(Kind::Macro) => true,
        _ => false,
    }
}

fn is_use(role: Role) -> bool
    ensures { result ≡ is_use role }
{
    match role {
        Role::Called | Role::Quoted => true,
        _ => false,
    }
}

fn is_end(role: Role) -> bool
    ensures { result ≡ is_end role }
{
    match role {
        Role::Close => true,
        _ => false,
    }
}

fn has_inner_byte(name: &[u8]) -> bool
    ensures { result ≡ list_any is_inner_byte name.now }
{
    name.iter().any(|byte| *byte == b'.' || *byte == b'$')
}

/// Whether a mark calls or quotes this name.
fn names(text: &[u8], name: &[u8], mark: Mark) -> bool
    ensures { result ≡ names text.now name.now mark }
{
    is_use(mark.role) && eq_ignore_ascii_case(part(text, mark.start, mark.end), name)
}

/// Whether a function is declared here that does nothing but call a name: `online } { electronic }`.
fn is_alias(text: &[u8], name: &[u8], mark: Mark, behind: &[Mark]) -> bool
    ensures { result ≡ is_alias text.now name.now mark behind.now }
{
    match behind {
        [_, _, word, last, ..] => {
            is_function(mark.role) && names(text, name, *word) && is_end(last.role)
        }
        _ => false,
    }
}

/// How many functions do nothing but call a name.
fn alias_count(text: &[u8], name: &[u8], marks: &[Mark]) -> usize
    ensures value { result ≡ alias_count text.now name.now marks.now }
    ensures within { result ≤ length marks.now }
{
    let mut count = 0;
    let mut rest = marks;
    'marks: while let [mark, behind @ ..] = rest {
        if is_alias(text, name, *mark, behind) {
            count += 1;
        }
        rest = behind;
    }
    count
}

impl StyleText<'_> {
    /// The name that a mark declares.
    pub fn name(&self, mark: Mark) -> &[u8]
        ensures { result.now ≡ part mark.start mark.end self.now.text.now }
    {
        part(self.text, mark.start, mark.end)
    }

    fn is_named(&self, name: &[u8]) -> bool
        ensures { result ≡ list_any (names self.now.text.now name.now) self.now.marks.now }
    {
        let text = self.text;
        self.marks.iter().any(|mark| names(text, name, *mark))
    }

    fn use_count(&self, name: &[u8]) -> usize
        ensures { result ≡ count_by (names self.now.text.now name.now) self.now.marks.now }
    {
        let text = self.text;
        self.marks
            .iter()
            .filter(|mark| names(text, name, **mark))
            .count()
    }

    /// Whether a mark declares a field that a function of the style names.
    pub fn is_read(&self, mark: Mark) -> bool
        ensures { result ≡ is_read self.now.text.now self.now.marks.now mark }
    {
        is_field(mark.role) && self.is_named(self.name(mark))
    }

    /// Whether the style declares a function of this name.
    pub fn has_function(&self, name: &[u8]) -> bool
        ensures { result ≡ has_function self.now.text.now self.now.marks.now name.now }
    {
        let text = self.text;
        self.marks.iter().any(|mark| {
            is_function(mark.role) && eq_ignore_ascii_case(part(text, mark.start, mark.end), name)
        })
    }

    /// Whether a mark declares a function for a type of entries. A style doesn't say which functions are for types. We take
    /// those whose names have neither a dot nor a dollar sign, and that only functions that do nothing else call.
    pub fn is_type(&self, mark: Mark) -> bool
        ensures { result ≡ is_type self.now.text.now self.now.marks.now mark }
    {
        let name = self.name(mark);
        is_function(mark.role)
            && !has_inner_byte(name)
            && self.use_count(name) == alias_count(self.text, name, self.marks)
    }
}
