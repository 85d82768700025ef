//! The word at which a style's first fault is.

ghost use Rattle.std.specs.Prelude.{◌≡◌, ◌<◌, length, take, drop, nat_lt, IfOk};
ghost use Rattle.std.specs.List.{find, take_while};
ghost use Rattle.bt_style_faults.specs.Faulty.{begins_before, words_from, is_broken, behind, cut_behind, has_fault, first_faulty, faulty_word};

use bt_positions::{IndexedText, Lines};
use bt_style::{StyleRefusal, read_style};
use bt_style_text::{Word, WordKind, words_of};
use bt_text::Bytes;
use std::alloc::{AllocError, Global};

/// How many words are tried. Hardly a line has more, and each costs a reading of the style.
const MOST_WORDS: usize = 40;

fn part_up_to(text: &[u8], end: usize) -> &[u8]
    ensures { result.now ≡ take end text.now }
{
    text.get(..end).unwrap_or(text)
}

fn part_from(text: &[u8], start: usize) -> &[u8]
    ensures { result.now ≡ drop start text.now }
{
    text.get(start..).unwrap_or(&[])
}

fn is_broken(kind: WordKind) -> bool
    ensures { result ≡ is_broken kind }
{
    match kind {
        WordKind::Broken => true,
        WordKind::Open
        | WordKind::Close
        | WordKind::Plain
        | WordKind::Literal
        | WordKind::Comment => false,
    }
}

/// The byte behind a broken word, which shows that it is broken; nothing for other words.
fn behind(text: &[u8], word: Word) -> &[u8]
    ensures { result.now ≡ behind text.now word }
{
    if is_broken(word.kind) {
        part_up_to(part_from(text, word.end), 1)
    } else {
        &[]
    }
}

fn cut_behind(alloc: Global, text: &[u8], word: Word) -> Result<Bytes, AllocError>
    ensures { IfOk result (λ cut. cut ≡ cut_behind text.now word) }
{
    Bytes::of(
        alloc,
        &[part_up_to(text, word.end), behind(text, word), b"\n"],
    )
}

/// Whether a style's first fault is on a line and says these words.
fn has_fault(alloc: Global, text: &[u8], line: u128, words: &[u8]) -> Result<bool, AllocError>
    ensures { IfOk result (λ has. has ≡ has_fault line words.now text.now) }
{
    match read_style(alloc, text) {
        Ok(_) => Ok(false),
        Err(StyleRefusal::Fault { kind, line: at }) => {
            Ok(kind.words() == words && at as u128 == line)
        }
        Err(StyleRefusal::OutOfMemory) => Err(AllocError),
    }
}

fn has_fault_behind(
    alloc: Global,
    text: &[u8],
    line: u128,
    words: &[u8],
    word: Word,
) -> Result<bool, AllocError>
    ensures { IfOk result (λ has. has ≡ has_fault line words.now (cut_behind text.now word)) }
{
    let cut = cut_behind(alloc, text, word)?;
    let has = has_fault(alloc, cut.as_slice(), line, words)?;
    Ok(has)
}

fn first_faulty(
    alloc: Global,
    text: &[u8],
    line: u128,
    words: &[u8],
    tried: &[Word],
) -> Result<Option<Word>, AllocError>
    ensures { IfOk result (λ found. found ≡ first_faulty line words.now text.now tried.now) }
{
    'tried: for word in tried {
        if has_fault_behind(alloc, text, line, words, *word)? {
            return Ok(Some(*word));
        }
    }
    Ok(None)
}

fn count_before(words: &[Word], place: usize) -> usize
    ensures value { result ≡ length (take_while (begins_before place) words.now) }
{
    words.iter().take_while(|word| word.start < place).count()
}

fn words_behind(words: &[Word], count: usize) -> &[Word]
    ensures { result.now ≡ drop count words.now }
{
    words.get(count..).unwrap_or(&[])
}

fn first_words(words: &[Word], count: usize) -> &[Word]
    ensures { result.now ≡ take count words.now }
{
    words.get(..count).unwrap_or(words)
}

/// The words from a place on, as far as they are tried.
fn words_from(words: &[Word], place: usize) -> &[Word]
    ensures { result.now ≡ words_from place words.now }
{
    let rest = words_behind(words, count_before(words, place));
    first_words(rest, MOST_WORDS)
}

/// The word of a style's text at which its first fault is, if that is on this line, counted from 1, and says these words:
/// the first word from the line's beginning on such that the text cut behind it has the fault already. None if the fault is
/// the end of the text, or stands behind the 40th word of its line. The only error is out of memory.
pub fn faulty_word(
    alloc: Global,
    text: &IndexedText,
    line: u128,
    words: &[u8],
) -> Result<Option<Word>, AllocError>
    ensures { IfOk result (λ word. word ≡ faulty_word line words.now text.now) }
{
    let begin = text.line_begin(Lines::Bibtex, line.saturating_sub(1));
    let all = words_of(alloc, text.as_slice())?;
    let tried = words_from(all.as_slice(), begin);
    let word = first_faulty(alloc, text.as_slice(), line, words, tried)?;
    Ok(word)
}
