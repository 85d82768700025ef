//! What a line of the loop asks for.

ghost use Rattle.std.specs.Prelude.{◌≡◌, position, ◌==◌, option_copied};
ghost use Rattle.bt_serve.specs.Commands.{words_in_line, request_of_words, one_word, two_words, write_of, splice_of, remove_of, root_of, min_of};
ghost use Rattle.bt_serve.specs.inner.Commands.{FirstWord};
ghost use Rattle.bt_serve.specs.inner.Asked.{request_seen};

use bibtex::Edit;
use bt_streams::number;

/// What a line asks for.
#[derive(Clone, Copy)]
pub enum Request<'a> {
    /// An edit, still without its bytes, and how many of them follow the line.
    Edit(Edit<'a>, usize),
    Bbl,
    Blg,
    Status,
    Quit,
    /// Nothing that the loop knows.
    Unreadable,
    /// Nothing, because the line has more than 256 bytes.
    TooLong,
}

/// What a line of at most 256 bytes asks for.
#[tactic(auto, using(crate::proofs::WordLemmas::six_words))]
pub fn parse(line: &[u8]) -> Request<'_>
    ensures { request_seen result ≡ request_of_words (words_in_line line.now) }
{
    let (first, rest) = next_word(line);
    let Some(rest) = rest else {
        return plain_request(first);
    };
    let (name, rest) = next_word(rest);
    let Some(rest) = rest else {
        return named_request(first, name);
    };
    let (third, rest) = next_word(rest);
    let Some(rest) = rest else {
        return if first == b"write".as_slice() {
            write_request(name, number(third))
        } else {
            Request::Unreadable
        };
    };
    let (fourth, rest) = next_word(rest);
    let Some(rest) = rest else {
        return Request::Unreadable;
    };
    let (fifth, rest) = next_word(rest);
    match rest {
        None if first == b"splice".as_slice() => {
            splice_request(name, number(third), number(fourth), number(fifth))
        }
        _ => Request::Unreadable,
    }
}

fn plain_request<'a>(word: &[u8]) -> Request<'a>
    ensures { request_seen result ≡ one_word word.now }
{
    if word == b"bbl".as_slice() {
        Request::Bbl
    } else if word == b"blg".as_slice() {
        Request::Blg
    } else if word == b"status".as_slice() {
        Request::Status
    } else if word == b"quit".as_slice() {
        Request::Quit
    } else {
        Request::Unreadable
    }
}

fn named_request<'a>(word: &[u8], argument: &'a [u8]) -> Request<'a>
    ensures { request_seen result ≡ two_words word.now argument.now }
{
    if word == b"remove".as_slice() {
        remove_request(argument)
    } else if word == b"root".as_slice() {
        root_request(argument)
    } else if word == b"min".as_slice() {
        min_request(number(argument))
    } else {
        Request::Unreadable
    }
}

fn remove_request(name: &[u8]) -> Request<'_>
    ensures { request_seen result ≡ remove_of name.now }
{
    if name.is_empty() {
        Request::Unreadable
    } else {
        Request::Edit(Edit::Remove(name), 0)
    }
}

fn root_request(name: &[u8]) -> Request<'_>
    ensures { request_seen result ≡ root_of name.now }
{
    if name.is_empty() {
        Request::Unreadable
    } else {
        Request::Edit(Edit::Root(name), 0)
    }
}

/// What `min` asks for, with this number or none.
fn min_request<'a>(min: Option<usize>) -> Request<'a>
    ensures { request_seen result ≡ min_of min }
{
    match min {
        Some(min) if min <= 4_294_967_295 => Request::Edit(Edit::MinCrossrefs(min as u32), 0),
        _ => Request::Unreadable,
    }
}

fn write_request(name: &[u8], count: Option<usize>) -> Request<'_>
    ensures { request_seen result ≡ write_of name.now count }
{
    match count {
        Some(count) if !name.is_empty() => Request::Edit(Edit::Write(name, b""), count),
        _ => Request::Unreadable,
    }
}

fn splice_request(
    name: &[u8],
    start: Option<usize>,
    end: Option<usize>,
    count: Option<usize>,
) -> Request<'_>
    ensures { request_seen result ≡ splice_of name.now start end count }
{
    if name.is_empty() {
        return Request::Unreadable;
    }
    match (start, end, count) {
        (Some(start), Some(end), Some(count)) => {
            Request::Edit(Edit::Splice(name, start, end, b""), count)
        }
        _ => Request::Unreadable,
    }
}

/// The first word, and what follows the space after it.
fn next_word(text: &[u8]) -> (&[u8], Option<&[u8]>)
    ensures { FirstWord text.now result.0.now (option_copied result.1) }
{
    match first_space(text) {
        Some(i) => (&text[..i], Some(&text[i + 1..])),
        None => (text, None),
    }
}

fn first_space(text: &[u8]) -> Option<usize>
    ensures { result ≡ position (λ b. b == 32) text.now }
{
    text.iter().position(|b| *b == b' ')
}
