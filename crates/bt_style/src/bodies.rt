//! The bodies of functions.
//!
//! The reader doesn't call itself at an inner brace. It keeps the elements before each open brace in a list, the
//! innermost last, and goes on with an empty body; a closing brace takes the last of them back. So a text of 100,000
//! left braces can't use up the program's stack.

ghost use Rattle.std.specs.Prelude.{◌≡◌, ◌≤◌, ◌++◌, ◌∷◌, [], OnOk, MatchOption, length, not, nat_lt};
ghost use Rattle.bt_style.specs.Fault.{Gives};
ghost use Rattle.bt_style.specs.Token.{count};
ghost use Rattle.bt_style.specs.Program.{program_of};
ghost use Rattle.bt_style.specs.Tree.{ops_body, element_of, elements_of, Braced, Words};
ghost use Rattle.bt_style.specs.Bodies.{body_at};
ghost use Rattle.bt_style.specs.inner.Bodies.{open_bodies};

use crate::cursor::Cursor;
use crate::draft::Draft;
use crate::elements::element;
use crate::fault::{FaultKind, StyleRefusal, fault};
use crate::style::Op;
use crate::token::{Token, TokenKind};
use bt_text::Bytes;
use std::alloc::{AllocError, Global};
use std::mem;

/// How deep the braces of a body may nest, its own included.
pub const BRACE_DEPTH: usize = 100;

fn push(ops: &mut Vec<Op>, op: Op) -> Result<(), AllocError>
    ensures { OnOk result (elements_of ops.new.items ≡ elements_of ops.old.items ++ element_of op ∷ []) }
{
    Ok(ops.push(op)?)
}

fn push_block(ops: &mut Vec<Op>, inner: Vec<Op>) -> Result<(), AllocError>
    ensures { OnOk result (elements_of ops.new.items
        ≡ elements_of ops.old.items ++ Braced (ops_body inner.items) ∷ []) }
{
    push(ops, Op::Block(inner))
}

fn push_text(alloc: Global, ops: &mut Vec<Op>, bytes: &[u8]) -> Result<(), AllocError>
    ensures { OnOk result (elements_of ops.new.items ≡ elements_of ops.old.items ++ Words bytes.now ∷ []) }
{
    push(ops, Op::Text(Bytes::copied(alloc, bytes)?))
}

#[tactic(auto, using(crate::proofs::BodyLemmas::opened_push))]
fn enter(outer: &mut Vec<Vec<Op>>, before: Vec<Op>) -> Result<(), AllocError>
    ensures { OnOk result (open_bodies outer.new.items ≡ elements_of before.items ∷ open_bodies outer.old.items) }
{
    Ok(outer.push(before)?)
}

#[tactic(auto, using(crate::proofs::BodyLemmas::opened_push))]
fn leave(outer: &mut Vec<Vec<Op>>) -> Option<Vec<Op>>
    ensures { MatchOption result (open_bodies outer.old.items ≡ [])
        (λ before. open_bodies outer.old.items ≡ elements_of before.items ∷ open_bodies outer.new.items) }
{
    outer.pop()
}

#[tactic(auto, using(crate::proofs::BodyLemmas::length_opened))]
fn is_deep(outer: &[Vec<Op>]) -> bool
    ensures { result ≡ not (nat_lt (length (open_bodies outer.now)) 99) }
{
    outer.len() >= BRACE_DEPTH - 1
}

/// Reads a body up to the brace that closes it.
#[tactic(auto, unfolding(crate::specs::Bodies::body_at))]
pub fn body(alloc: Global, cursor: &mut Cursor, draft: &Draft) -> Result<Vec<Op>, StyleRefusal>
    ensures gives { Gives (λ v. (ops_body v.items, cursor.new)) result
        (body_at (program_of draft.now) [] [] cursor.old) }
    ensures shorter { OnOk result (count cursor.new ≤ count cursor.old) }
{
    let mut outer: Vec<Vec<Op>> = Vec::new(alloc);
    let mut now: Vec<Op> = Vec::new(alloc);
    'elements: loop {
        let Token { kind, line } = cursor.next();
        match kind {
            TokenKind::Open => {
                if is_deep(&outer) {
                    return Err(fault(FaultKind::UnclosedBrace, line));
                }
                let before = mem::replace(&mut now, Vec::new(alloc));
                enter(&mut outer, before)?;
            }
            TokenKind::Close => {
                let Some(before) = leave(&mut outer) else {
                    return Ok(now);
                };
                let inner = mem::replace(&mut now, before);
                push_block(&mut now, inner)?;
            }
            TokenKind::Word(word) => push(&mut now, element(alloc, draft, word, line)?)?,
            TokenKind::Literal(bytes) => push_text(alloc, &mut now, bytes)?,
            TokenKind::End => return Err(fault(FaultKind::UnclosedBrace, line)),
            TokenKind::Unclosed => return Err(fault(FaultKind::UnclosedText, line)),
            TokenKind::Glued => return Err(fault(FaultKind::StrayByte, line)),
        }
    }
}
