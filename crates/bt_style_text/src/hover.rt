//! What an editor shows of the name under the cursor, as Markdown.

ghost use Rattle.std.specs.Prelude.{◌≡◌, ◌++◌, ◌+◌, decimal, IfOk, OnOk};
ghost use Rattle.bt_style_text.specs.Parts.{part};
ghost use Rattle.bt_style_text.specs.Hover.{kind_words, declaration_words, above_words, code_words, listed, user_count, counted, users_words, variable_words, count_words, kind_hover, symbol_hover, symbol_at, declared_hover, builtin_hover, preset_hover, hover_of};

use crate::builtins::{builtin_named, is_preset};
use crate::comments::{Run, comment_above, line_number};
use crate::costs::cost_of;
use crate::help::help_of;
use crate::lines::first_lines;
use crate::marks::Mark;
use crate::names::{declaration_of, name_at, space_of};
use crate::outline::{Symbol, symbols_of};
use crate::parts::part;
use crate::roles::Kind;
use crate::uses::{callers, set_count, use_count};
use bt_style::Builtin;
use bt_text::Bytes;
use itoa::Buffer;
use std::alloc::{AllocError, Global};

/// How many lines of a comment and of a function are shown.
const SHOWN_LINES: usize = 12;

fn kind_words(kind: Kind) -> &'static [u8]
    ensures { result.now ≡ kind_words kind }
{
    match kind {
        Kind::Field => b"field",
        Kind::EntryInteger => b"integer variable of entries",
        Kind::EntryString => b"string variable of entries",
        Kind::GlobalInteger => b"integer variable",
        Kind::GlobalString => b"string variable",
        Kind::Function => b"function",
        Kind::Macro => b"macro",
    }
}

fn decimal(buffer: &mut Buffer, number: u128) -> &[u8]
    ensures { result.now ≡ decimal number }
{
    buffer.format(number).as_bytes()
}

/// Appends what is declared, and in which line, from 0.
fn add_declaration(
    words: &mut Bytes,
    name: &[u8],
    kind: &[u8],
    line: usize,
) -> Result<(), AllocError>
    ensures { OnOk result (words.new ≡ words.old ++ declaration_words name.now kind.now line) }
{
    let mut buffer = Buffer::new();
    let line = decimal(&mut buffer, line as u128 + 1);
    words.append_all(&[b"`", name, b"`: ", kind, b", line ", line, b"\n\n"])
}

fn add_above(words: &mut Bytes, text: &[u8], run: Option<Run>) -> Result<(), AllocError>
    ensures { OnOk result (words.new ≡ words.old ++ above_words text.now run) }
{
    match run {
        Some(run) => words.append_all(&[
            first_lines(part(text, run.start, run.end), SHOWN_LINES),
            b"\n",
        ]),
        None => Ok(()),
    }
}

/// Appends a command as a block of code: the comment above it, and its first lines.
fn add_code(
    words: &mut Bytes,
    text: &[u8],
    marks: &[Mark],
    symbol: Symbol,
) -> Result<(), AllocError>
    ensures { OnOk result (words.new ≡ words.old ++ code_words text.now marks.now symbol) }
{
    words.append(b"```bst\n")?;
    add_above(words, text, comment_above(text, marks, symbol.start))?;
    let code = first_lines(part(text, symbol.start, symbol.end), SHOWN_LINES);
    words.append_all(&[code, b"\n```\n\n"])
}

fn add_names(words: &mut Bytes, text: &[u8], names: &[Mark]) -> Result<(), AllocError>
    ensures { OnOk result (words.new ≡ words.old ++ listed text.now names.now) }
{
    'names: for name in names {
        words.append_all(&[b" `", part(text, name.start, name.end), b"`"])?;
    }
    Ok(())
}

fn add_user_count(words: &mut Bytes, count: usize) -> Result<(), AllocError>
    ensures { OnOk result (words.new ≡ words.old ++ user_count count) }
{
    let mut buffer = Buffer::new();
    let count = decimal(&mut buffer, count as u128);
    words.append_all(&[b"Functions that use it: ", count])
}

/// Appends how many functions there are, and their names.
fn add_count_and_names(words: &mut Bytes, text: &[u8], users: &[Mark]) -> Result<(), AllocError>
    ensures { OnOk result (words.new ≡ words.old ++ counted text.now users.now) }
{
    add_user_count(words, users.len())?;
    add_names(words, text, users)?;
    Ok(())
}

fn add_users(
    alloc: Global,
    words: &mut Bytes,
    text: &[u8],
    marks: &[Mark],
    name: &[u8],
) -> Result<(), AllocError>
    ensures { OnOk result (words.new ≡ words.old ++ users_words text.now name.now marks.now) }
{
    let users = callers(alloc, text, marks, name)?;
    add_count_and_names(words, text, users.as_slice())
}

fn add_counts(words: &mut Bytes, text: &[u8], marks: &[Mark], name: &[u8]) -> Result<(), AllocError>
    ensures { OnOk result (words.new ≡ words.old ++ count_words text.now name.now marks.now) }
{
    let mut sets = Buffer::new();
    let mut uses = Buffer::new();
    let set_count = decimal(&mut sets, set_count(text, marks, name) as u128);
    let use_count = decimal(&mut uses, use_count(text, marks, name) as u128);
    words.append_all(&[
        b"Places that use it: ",
        use_count,
        b", that set it: ",
        set_count,
        b"\n\n",
    ])
}

fn add_variable(
    alloc: Global,
    words: &mut Bytes,
    text: &[u8],
    marks: &[Mark],
    name: Mark,
) -> Result<(), AllocError>
    ensures { OnOk result (words.new ≡ words.old ++ variable_words text.now (part name.start name.end text.now) marks.now) }
{
    let bytes = part(text, name.start, name.end);
    add_counts(words, text, marks, bytes)?;
    add_users(alloc, words, text, marks, bytes)?;
    Ok(())
}

/// Appends what stands below the first line of what is said of a symbol.
fn add_kind(
    alloc: Global,
    words: &mut Bytes,
    text: &[u8],
    marks: &[Mark],
    symbol: Symbol,
) -> Result<(), AllocError>
    ensures { OnOk result (words.new ≡ words.old ++ kind_hover text.now marks.now symbol symbol.kind) }
{
    let name = part(text, symbol.name.start, symbol.name.end);
    match symbol.kind {
        Kind::Function => {
            add_code(words, text, marks, symbol)?;
            add_users(alloc, words, text, marks, name)
        }
        Kind::Macro => add_code(words, text, marks, symbol),
        Kind::Field => add_users(alloc, words, text, marks, name),
        Kind::EntryInteger => add_variable(alloc, words, text, marks, symbol.name),
        Kind::EntryString => add_variable(alloc, words, text, marks, symbol.name),
        Kind::GlobalInteger => add_variable(alloc, words, text, marks, symbol.name),
        Kind::GlobalString => add_variable(alloc, words, text, marks, symbol.name),
    }
}

fn symbol_hover(
    alloc: Global,
    text: &[u8],
    marks: &[Mark],
    symbol: Symbol,
) -> Result<Bytes, AllocError>
    ensures { IfOk result (λ words. words ≡ symbol_hover text.now marks.now symbol) }
{
    let mut words = Bytes::new(alloc);
    add_declaration(
        &mut words,
        part(text, symbol.name.start, symbol.name.end),
        kind_words(symbol.kind),
        line_number(text, symbol.name.start),
    )?;
    add_kind(alloc, &mut words, text, marks, symbol)?;
    Ok(words)
}

fn symbol_at(symbols: &[Symbol], place: usize) -> Option<Symbol>
    ensures { result ≡ symbol_at place symbols.now }
{
    symbols
        .iter()
        .copied()
        .find(|symbol| symbol.name.start == place)
}

fn declared_hover(
    alloc: Global,
    text: &[u8],
    marks: &[Mark],
    place: usize,
) -> Result<Bytes, AllocError>
    ensures { IfOk result (λ words. words ≡ declared_hover text.now marks.now place) }
{
    let symbols = symbols_of(alloc, marks)?;
    match symbol_at(symbols.as_slice(), place) {
        Some(symbol) => symbol_hover(alloc, text, marks, symbol),
        None => Ok(Bytes::new(alloc)),
    }
}

fn builtin_hover(alloc: Global, builtin: Builtin) -> Result<Bytes, AllocError>
    ensures { IfOk result (λ words. words ≡ builtin_hover builtin) }
{
    Bytes::of(alloc, &[help_of(builtin), b"\n\nCost: ", cost_of(builtin)])
}

/// What is said of a name that no style declares: a built-in function, or one that BibTeX declares itself.
fn preset_hover(alloc: Global, name: &[u8]) -> Result<Bytes, AllocError>
    ensures { IfOk result (λ words. words ≡ preset_hover name.now) }
{
    match builtin_named(name) {
        Some(builtin) => builtin_hover(alloc, builtin),
        None => if is_preset(name) {
            Bytes::of(alloc, &[b"`", name, b"`: declared by BibTeX itself"])
        } else {
            Ok(Bytes::new(alloc))
        },
    }
}

/// What is said of the name at a place, as Markdown; the empty text if there is nothing to say.
pub fn hover_of(
    alloc: Global,
    text: &[u8],
    marks: &[Mark],
    place: usize,
) -> Result<Bytes, AllocError>
    ensures { IfOk result (λ words. words ≡ hover_of text.now marks.now place) }
{
    let Some(mark) = name_at(marks, place) else {
        return Ok(Bytes::new(alloc));
    };
    let name = part(text, mark.start, mark.end);
    match declaration_of(text, marks, space_of(mark.role), name) {
        Some(declaration) => declared_hover(alloc, text, marks, declaration.start),
        None => preset_hover(alloc, name),
    }
}
