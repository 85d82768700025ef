//! The words in which the log shows a value.

ghost use Rattle.std.specs.Prelude.{◌≡◌, ◌++◌, IfOk, codes, length, map};
ghost use Rattle.std.specs.Fmt.{signed_decimal};
ghost use Rattle.bt_style.specs.Program.{program_of};
ghost use Rattle.bt_actions.specs.LogLines.{name_or_empty, target_name, shown_value};
ghost use Rattle.bt_stack.specs.inner.Kept.{item_in, Fits};

use crate::value::Value;
use bt_style::{Function, Style, Target};
use bt_text::Bytes;
use itoa::Buffer;
use std::alloc::{AllocError, Global};

fn name_at(names: &[Bytes], n: usize) -> &[u8]
    ensures { result.now ≡ name_or_empty names.now n }
{
    if n < names.len() {
        names[n].as_slice()
    } else {
        b""
    }
}

fn function_name(functions: &[Function], n: usize) -> &[u8]
    ensures { result.now ≡ name_or_empty (map (λ function. function.name) functions.now) n }
{
    if n < functions.len() {
        functions[n].name.as_slice()
    } else {
        b""
    }
}

#[tactic(auto, using(bt_actions::proofs::LoggingLemmas::function_names))]
fn target_name(style: &Style, target: Target) -> &[u8]
    ensures { result.now ≡ target_name (program_of style.now) target }
{
    match target {
        Target::Builtin(builtin) => builtin.name(),
        Target::Field(n) => name_at(style.fields.as_slice(), n),
        Target::EntryNumber(n) => name_at(style.entry_numbers.as_slice(), n),
        Target::EntryText(n) => name_at(style.entry_texts.as_slice(), n),
        Target::GlobalNumber(n) => name_at(style.global_numbers.as_slice(), n),
        Target::GlobalText(n) => name_at(style.global_texts.as_slice(), n),
        Target::Function(n) => function_name(style.functions.as_slice(), n),
    }
}

fn shown_number(alloc: Global, number: i32) -> Result<Bytes, AllocError>
    ensures { IfOk result (λ words. words ≡ signed_decimal number) }
{
    Bytes::copied(alloc, Buffer::new().format(number).as_bytes())
}

fn shown_name(alloc: Global, name: &[u8]) -> Result<Bytes, AllocError>
    ensures { IfOk result (λ words. words ≡ codes "`" ++ name.now ++ codes "'") }
{
    Bytes::of(alloc, &[b"`", name, b"'"])
}

fn shown_gap(alloc: Global, field: &[u8]) -> Result<Bytes, AllocError>
    ensures { IfOk result (λ words. words ≡ codes "missing " ++ field.now) }
{
    Bytes::of(alloc, &[b"missing ", field])
}

/// A kept value as the log shows it.
pub fn shown(alloc: Global, style: &Style, pool: &[u8], value: Value) -> Result<Bytes, AllocError>
    requires { Fits (length pool.now) value }
    ensures { IfOk result (λ words. words ≡ shown_value (program_of style.now) (item_in pool.now value.entry)) }
{
    match value {
        Value::Number(number) => shown_number(alloc, number),
        Value::Given(text) => Bytes::copied(alloc, text),
        Value::Made(start, len) => Bytes::copied(alloc, &pool[start..start + len]),
        Value::Name(target) => shown_name(alloc, target_name(style, target)),
        Value::Block(_) => Bytes::copied(alloc, b"`{}'"),
        Value::Missing(field) => shown_gap(alloc, name_at(style.fields.as_slice(), field)),
    }
}
