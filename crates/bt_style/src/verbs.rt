//! The words of commands, and the order in which commands may come.

ghost use Rattle.std.specs.Prelude.{◌≡◌};
ghost use Rattle.std.specs.List.{find};
ghost use Rattle.bt_text.specs.CaseFolding.{is_same_folded};
ghost use Rattle.bt_style.specs.Fault.{Gives};
ghost use Rattle.bt_style.specs.Verbs.{word_of, verb_named, out_of_order, stage_after};
ghost use Rattle.bt_style.specs.inner.Cases.{verb_of, in_order};

use crate::fault::{FaultKind, StyleRefusal, fault};
use bt_text::eq_ignore_ascii_case;

/// A command's word.
#[derive(Clone, Copy, PartialEq, Eq)]
pub enum Verb {
    Entry,
    Execute,
    Function,
    Integers,
    Iterate,
    Macro,
    Read,
    Reverse,
    Sort,
    Strings,
}

/// How far the commands have come.
#[derive(Clone, Copy, PartialEq, Eq)]
pub enum Stage {
    BeforeEntry,
    BeforeRead,
    AfterRead,
}

static VERBS: [Verb; 10] = [
    Verb::Entry,
    Verb::Execute,
    Verb::Function,
    Verb::Integers,
    Verb::Iterate,
    Verb::Macro,
    Verb::Read,
    Verb::Reverse,
    Verb::Sort,
    Verb::Strings,
];

impl Verb {
    fn word(self) -> &'static [u8]
        ensures { result.now ≡ word_of self }
    {
        match self {
            Verb::Entry => b"ENTRY",
            Verb::Execute => b"EXECUTE",
            Verb::Function => b"FUNCTION",
            Verb::Integers => b"INTEGERS",
            Verb::Iterate => b"ITERATE",
            Verb::Macro => b"MACRO",
            Verb::Read => b"READ",
            Verb::Reverse => b"REVERSE",
            Verb::Sort => b"SORT",
            Verb::Strings => b"STRINGS",
        }
    }
}

fn verb_among(verbs: &[Verb], word: &[u8]) -> Option<Verb>
    ensures { result ≡ find (λ verb. is_same_folded word.now (word_of verb)) verbs.now }
{
    for verb in verbs {
        if eq_ignore_ascii_case(word, verb.word()) {
            return Some(*verb);
        }
    }
    None
}

fn verb_named(word: &[u8]) -> Option<Verb>
    ensures { result ≡ verb_named word.now }
{
    verb_among(&VERBS, word)
}

/// The command that a word begins.
pub fn read_verb(word: &[u8], line: usize) -> Result<Verb, StyleRefusal>
    ensures { Gives (λ v. v) result (verb_of (verb_named word.now) line) }
{
    match verb_named(word) {
        Some(verb) => Ok(verb),
        None => Err(fault(FaultKind::UnknownCommand, line)),
    }
}

/// Why a command may not come here, if it may not.
fn out_of_order(verb: Verb, stage: Stage) -> Option<FaultKind>
    ensures { result ≡ out_of_order verb stage }
{
    match (verb, stage) {
        (Verb::Entry, Stage::BeforeRead | Stage::AfterRead) => Some(FaultKind::SecondEntry),
        (Verb::Read, Stage::BeforeEntry) => Some(FaultKind::NoEntry),
        (Verb::Read, Stage::AfterRead) => Some(FaultKind::SecondRead),
        (Verb::Macro, Stage::AfterRead) => Some(FaultKind::CommandOrder),
        (
            Verb::Execute | Verb::Iterate | Verb::Reverse | Verb::Sort,
            Stage::BeforeEntry | Stage::BeforeRead,
        ) => Some(FaultKind::CommandOrder),
        _ => None,
    }
}

/// Whether a command may come at a stage.
pub fn in_order(verb: Verb, stage: Stage, line: usize) -> Result<(), StyleRefusal>
    ensures { Gives (λ _. tt) result (in_order (out_of_order verb stage) line) }
{
    match out_of_order(verb, stage) {
        Some(kind) => Err(fault(kind, line)),
        None => Ok(()),
    }
}

/// How far the commands have come after one more.
pub fn stage_after(verb: Verb, stage: Stage) -> Stage
    ensures { result ≡ stage_after verb stage }
{
    match verb {
        Verb::Entry => Stage::BeforeRead,
        Verb::Read => Stage::AfterRead,
        Verb::Execute
        | Verb::Function
        | Verb::Integers
        | Verb::Iterate
        | Verb::Macro
        | Verb::Reverse
        | Verb::Sort
        | Verb::Strings => stage,
    }
}
