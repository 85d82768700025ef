//! What is said of the stack.

ghost use Rattle.std.specs.Prelude.{◌≡◌, ◌++◌, map, IfOk, OnOk};
ghost use Rattle.bt_check.specs.declared.watching.Lying.TheVariants.{Of};
ghost use Rattle.bt_effects.specs.Words.{stack_words};
ghost use Rattle.bt_effects.specs.Sentences.{more_ways, ways_words, effect_words, before_words};

use crate::words::add_stack;
use bt_check::{Lying, Watched};
use bt_known::Kinds;
use bt_text::Bytes;
use bt_words::Program;
use std::alloc::{AllocError, Global};

fn of_kinds(alloc: Global, kinds: &[Kinds]) -> Result<Vec<Lying>, AllocError>
    ensures { IfOk result (λ values. values.items ≡ map Of kinds.now) }
{
    kinds.iter().map(|one| Lying::Of(*one)).collect(alloc)
}

/// What a function takes, from the lowest value on.
fn taken_words(
    alloc: Global,
    fields: &[Bytes],
    program: &Program,
    takes: &[Kinds],
) -> Result<Bytes, AllocError>
    ensures { IfOk result (λ words. words ≡ stack_words fields.now program.now (map Of takes.now)) }
{
    let values = of_kinds(alloc, takes)?;
    let mut words = Bytes::new(alloc);
    add_stack(&mut words, fields, program, values.as_slice())?;
    Ok(words)
}

/// Appends further ways in which values can lie there.
fn add_more_ways(
    words: &mut Bytes,
    fields: &[Bytes],
    program: &Program,
    ways: &[Vec<Lying>],
) -> Result<(), AllocError>
    ensures { OnOk result (words.new ≡ words.old ++ more_ways fields.now program.now ways.now) }
{
    'ways: for way in ways {
        words.append(b"; or ")?;
        add_stack(words, fields, program, way.as_slice())?;
    }
    Ok(())
}

/// The first way in which values can lie there, and further ones.
fn ways_from(
    alloc: Global,
    fields: &[Bytes],
    program: &Program,
    first: &[Lying],
    rest: &[Vec<Lying>],
) -> Result<Bytes, AllocError>
    ensures { IfOk result (λ words. words ≡ stack_words fields.now program.now first.now ++ more_ways fields.now program.now rest.now) }
{
    let mut words = Bytes::new(alloc);
    add_stack(&mut words, fields, program, first)?;
    add_more_ways(&mut words, fields, program, rest)?;
    Ok(words)
}

fn ways_words(
    alloc: Global,
    fields: &[Bytes],
    program: &Program,
    ways: &[Vec<Lying>],
) -> Result<Bytes, AllocError>
    ensures { IfOk result (λ words. words ≡ ways_words fields.now program.now ways.now) }
{
    match ways {
        [] => Ok(Bytes::new(alloc)),
        [first, rest @ ..] => ways_from(alloc, fields, program, first.as_slice(), rest),
    }
}

/// What a function takes from the stack and leaves there.
pub fn effect_words(
    alloc: Global,
    fields: &[Bytes],
    program: &Program,
    found: &Watched,
) -> Result<Bytes, AllocError>
    ensures { IfOk result (λ words. words ≡ effect_words fields.now program.now found.now) }
{
    let taken = taken_words(alloc, fields, program, found.takes.as_slice())?;
    let left = ways_words(alloc, fields, program, found.leaves.as_slice())?;
    Bytes::of(
        alloc,
        &[
            b"It takes from the stack (the top last): ",
            taken.as_slice(),
            b". It leaves there: ",
            left.as_slice(),
            b".",
        ],
    )
}

/// What lies there before a word; nothing if no path reaches the word.
pub fn before_words(
    alloc: Global,
    fields: &[Bytes],
    program: &Program,
    ways: &[Vec<Lying>],
) -> Result<Bytes, AllocError>
    ensures { IfOk result (λ words. words ≡ before_words fields.now program.now ways.now) }
{
    match ways {
        [] => Ok(Bytes::new(alloc)),
        [first, rest @ ..] => {
            let before = ways_from(alloc, fields, program, first.as_slice(), rest)?;
            Bytes::of(
                alloc,
                &[
                    b"On the stack before this word (the top last): ",
                    before.as_slice(),
                    b".",
                ],
            )
        }
    }
}
