//! Names of files: the author's, which may be anything, and the session's.
//!
//! A name that a session admits stays. Any other gets a number, in the order in which such names were met, and becomes `+/`
//! with that number and its old ending, since BibTeX looks at endings. An admitted name that begins with `+/` gets a number
//! too, so no two files ever have one name.

ghost use Rattle.std.specs.Prelude.{◌≡◌, ◌==◌, ◌↔◌, ℕ, ◌<◌, ◌≤◌, ◌^◌, IsTrue, List, [], length, Some, IfOk, OnOk, OnErr};
ghost use Rattle.std.specs.List.{prefix_len};
ghost use Rattle.std.specs.Option.{option_map};
ghost use Rattle.std.specs.Char.{is_ascii_digit};
ghost use Rattle.bt_files.specs.Names.{is_stand_in, is_own_name, ending_of, numbered, session_name, author_name, with_author};

use bt_job::is_file_name;
use bt_text::Bytes;
use indexmap::IndexSet;
use itoa::Buffer;
use std::alloc::{AllocError, Global};
use std::marker::Model;

/// The author's names that need another name in the session, in the order in which they were first met. Contracts see
/// the list of them.
#[derive(Drop)]
pub struct Names {
    authors: IndexSet<Vec<u8>>,
}

impl Model for Names {
    ghost use Rattle.std.specs.Prelude.{List, ℕ, map};

    ghost Value = { List (List ℕ) };

    ghost view = { λ n. map (λ name. name.items) n.authors.keys };
}

/// Whether a name has the form of those that stand for an author's name.
fn is_stand_in(name: &[u8]) -> bool
    ensures { result ≡ is_stand_in name.now }
{
    name.starts_with(b"+/")
}

/// Whether an author's name is its own name in the session: the session admits it, and it doesn't begin with `+/`.
pub fn is_own_name(author: &[u8]) -> bool
    ensures { result ≡ is_own_name author.now }
{
    is_file_name(author) && !is_stand_in(author)
}

/// The ending of a name, if it shows what the file is for.
fn ending_of(name: &[u8]) -> &'static [u8]
    ensures { result.now ≡ ending_of name.now }
{
    if name.ends_with(b".aux") {
        b".aux"
    } else if name.ends_with(b".bib") {
        b".bib"
    } else if name.ends_with(b".bst") {
        b".bst"
    } else {
        b""
    }
}

fn numbered(alloc: Global, number: usize, author: &[u8]) -> Result<Bytes, AllocError>
    ensures { IfOk result (λ name. name ≡ numbered number author.now) }
{
    let mut buffer = Buffer::new();
    let digits = buffer.format(number).as_bytes();
    Bytes::of(alloc, &[b"+/", digits, ending_of(author)])
}

fn digits_len(text: &[u8]) -> usize
    ensures within { result ≤ length text.now }
    ensures len { result ≡ prefix_len is_ascii_digit text.now }
{
    text.iter().take_while(|byte| byte.is_ascii_digit()).count()
}

fn number_of(session: &[u8]) -> Option<usize>
    ensures { (number : ℕ) (author : List ℕ) → number < 2 ^ 64 → session.now ≡ numbered number author →
        result ≡ Some number }
{
    let rest = session.strip_prefix(b"+/")?;
    let (digits, _) = rest.split_at(digits_len(rest));
    match str::from_utf8(digits) {
        Ok(digits) => digits.parse::<usize>().ok(),
        Err(_) => None,
    }
}

/// Whether a session's name is exactly the one of this number: `+/01` has the number 1, too, and stands for nothing.
fn is_numbered(number: usize, author: &[u8], session: &[u8]) -> bool
    ensures { IsTrue result ↔ (session.now ≡ numbered number author.now) }
{
    let mut buffer = Buffer::new();
    let digits = buffer.format(number).as_bytes();
    let Some(rest) = session.strip_prefix(b"+/") else {
        return false;
    };
    match rest.strip_prefix(digits) {
        Some(ending) => ending == ending_of(author),
        None => false,
    }
}

impl Names {
    /// No name. It takes no memory.
    pub fn new(alloc: Global) -> Self
        ensures { result ≡ [] }
    {
        Names {
            authors: IndexSet::new(alloc),
        }
    }

    /// How many names there are: fewer than 2 ^ 63, as the laws on tables ask.
    pub fn len(&self) -> usize
        ensures value { result ≡ length self.now }
        ensures small { result < 2 ^ 63 }
    {
        self.authors.len()
    }

    /// Whether no name needs another one.
    pub fn is_empty(&self) -> bool
        ensures { result ≡ (length self.now == 0) }
    {
        self.authors.is_empty()
    }

    /// Notes an author's name: one that needs another name in the session, and was not met before, gets one. The only
    /// error is out of memory, after which the names are as before.
    pub fn note(&mut self, alloc: Global, author: &[u8]) -> Result<(), AllocError>
        ensures ok { OnOk result (self.new ≡ with_author self.old author.now) }
        ensures err { OnErr result (self.new ≡ self.old) }
    {
        if is_own_name(author) || self.authors.contains(author) {
            return Ok(());
        }
        let key = Vec::from_slice(alloc, author)?;
        self.authors.insert(key)?;
        Ok(())
    }

    /// The session's name of an author's file; none if the name needs another one and was never noted. The only error is
    /// out of memory.
    pub fn session_name(&self, alloc: Global, author: &[u8]) -> Result<Option<Bytes>, AllocError>
        ensures { IfOk result (λ name. name ≡ session_name self.now author.now) }
    {
        if is_own_name(author) {
            return Ok(Some(Bytes::copied(alloc, author)?));
        }
        let count = self.len();
        match self.authors.get_index_of(author) {
            Some(place) => {
                prove!(place < count);
                let name = numbered(alloc, place + 1, author)?;
                Ok(Some(name))
            }
            None => Ok(None),
        }
    }

    /// The author's name of a session's file; none if the name begins with `+/` and stands for no author's name.
    pub fn author_name<'a>(&'a self, session: &'a [u8]) -> Option<&'a [u8]>
        ensures { option_map (λ name. name.now) result ≡ author_name self.now session.now }
    {
        if !is_stand_in(session) {
            return Some(session);
        }
        let count = self.len();
        let number = number_of(session)?;
        if number == 0 || count < number {
            return None;
        }
        let author = self.authors.get_index(number - 1)?;
        if is_numbered(number, author, session) {
            Some(author)
        } else {
            None
        }
    }
}
