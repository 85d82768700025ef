//! The words of a lens: what a run made of an entry or a function.

ghost use Rattle.std.specs.Prelude.{◌≡◌, ◌++◌, map, decimal, IfOk, OnOk};
ghost use Rattle.bt_remarks.specs.Wording.{count_words, lines_words, between, more_names, are_unused, names_from, names_words, entry_words, function_words};

use bt_text::Bytes;
use itoa::Buffer;
use std::alloc::{AllocError, Global};

fn digits(alloc: Global, number: usize) -> Result<Bytes, AllocError>
    ensures { IfOk result (λ words. words ≡ decimal number) }
{
    let mut buffer = Buffer::new();
    Bytes::copied(alloc, buffer.format(number).as_bytes())
}

/// The lines of the bibliography from `first` to `last`; none if `first` is 0.
fn lines_words(alloc: Global, first: usize, last: usize) -> Result<Bytes, AllocError>
    ensures { IfOk result (λ words. words ≡ lines_words first last) }
{
    if first == 0 {
        return Bytes::copied(alloc, b"no line of its own");
    }
    let number = digits(alloc, first)?;
    if first == last {
        return Bytes::of(alloc, &[b"line ", number.as_slice()]);
    }
    let end = digits(alloc, last)?;
    Bytes::of(
        alloc,
        &[b"lines ", number.as_slice(), b" to ", end.as_slice()],
    )
}

/// What stands between a name and the one before it, by the names behind it.
fn between(rest: &[&[u8]]) -> &'static [u8]
    ensures { result.now ≡ between (map (λ name. name.now) rest.now) }
{
    match rest {
        [] => b" and ",
        [_, ..] => b", ",
    }
}

fn add_more_names(words: &mut Bytes, names: &[&[u8]]) -> Result<(), AllocError>
    ensures { OnOk result (words.new ≡ words.old ++ more_names (map (λ name. name.now) names.now)) }
{
    'names: for (place, name) in names.iter().enumerate() {
        let (_, rest) = names.split_at(place + 1);
        words.append(between(rest))?;
        words.append(name)?;
    }
    Ok(())
}

/// What is said behind the first name and the names behind it.
fn are_unused(rest: &[&[u8]]) -> &'static [u8]
    ensures { result.now ≡ are_unused (map (λ name. name.now) rest.now) }
{
    match rest {
        [] => b" isn't used",
        [_, ..] => b" aren't used",
    }
}

fn add_names_from(words: &mut Bytes, first: &[u8], rest: &[&[u8]]) -> Result<(), AllocError>
    ensures { OnOk result (words.new ≡ words.old ++ names_from first.now (map (λ name. name.now) rest.now)) }
{
    words.append(b"; ")?;
    words.append(first)?;
    add_more_names(words, rest)?;
    words.append(are_unused(rest))
}

/// Appends the names of the fields that the run never read.
fn add_names(words: &mut Bytes, names: &[&[u8]]) -> Result<(), AllocError>
    ensures { OnOk result (words.new ≡ words.old ++ names_words (map (λ name. name.now) names.now)) }
{
    match names {
        [] => Ok(()),
        [first, rest @ ..] => add_names_from(words, first, rest),
    }
}

/// The lines that an entry wrote, from `first` to `last` (none if `first` is 0), and the names of the fields that no step
/// read.
pub fn entry_words(
    alloc: Global,
    first: usize,
    last: usize,
    names: &[&[u8]],
) -> Result<Bytes, AllocError>
    ensures { IfOk result (λ words. words ≡ entry_words first last (map (λ name. name.now) names.now)) }
{
    let mut words = lines_words(alloc, first, last)?;
    add_names(&mut words, names)?;
    Ok(words)
}

fn count_words(
    alloc: Global,
    count: usize,
    one: &'static [u8],
    many: &'static [u8],
) -> Result<Bytes, AllocError>
    ensures { IfOk result (λ words. words ≡ count_words count one.now many.now) }
{
    let number = digits(alloc, count)?;
    if count == 1 {
        Bytes::of(alloc, &[number.as_slice(), one])
    } else {
        Bytes::of(alloc, &[number.as_slice(), many])
    }
}

/// How many pieces of the bibliography a function wrote, and in how many entries.
pub fn function_words(alloc: Global, pieces: usize, entries: usize) -> Result<Bytes, AllocError>
    ensures { IfOk result (λ words. words ≡ function_words pieces entries) }
{
    let wrote = count_words(alloc, pieces, b" piece", b" pieces")?;
    if entries == 0 {
        return Bytes::of(alloc, &[b"writes ", wrote.as_slice()]);
    }
    let among = count_words(alloc, entries, b" entry", b" entries")?;
    Bytes::of(
        alloc,
        &[b"writes ", wrote.as_slice(), b" in ", among.as_slice()],
    )
}
