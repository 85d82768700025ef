//! The errors and warnings of a step, first in their parts, then in words.
//!
//! A step keeps complaints and not messages, because a message also has the key of the step's entry and the place of
//! the command, which only the end of the step and the run add.

ghost use Rattle.std.specs.Prelude.{◌≡◌, ◌++◌, codes, option_map, IfOk, map};
ghost use Rattle.bt_actions.specs.Words.{complaint_words, message_of};

use bt_log::{Message, Rank, Said};
use bt_style::Builtin;
use bt_text::{Bytes, Sequence, Shared};
use itoa::Buffer;
use std::alloc::{AllocError, Global};

/// What a step reports: errors, what the style logs, and the limits that stop a run.
#[derive(Drop)]
pub enum Complaint {
    /// An argument was taken from an empty stack.
    EmptyStack,
    /// An argument of this function was of another kind than it takes.
    WrongKind(Builtin),
    /// A step without an entry asked for something that belongs to an entry.
    NoEntry,
    /// The result of this function doesn't fit into 32 bits with sign.
    OutOfRange(Builtin),
    /// This text names no change of case.
    BadCase(Bytes),
    /// This text isn't one byte.
    NotOneCharacter(Bytes),
    /// This number isn't between 0 and 127.
    NotAscii(i32),
    /// There is no name of this number in this list of names.
    NoSuchName(i32, Bytes),
    /// The name of this number in this list of names has more than two commas.
    TooManyCommas(i32, Bytes),
    /// This pattern has a fault at this place.
    PatternFault(Bytes, usize),
    /// `:=` was given a name that isn't a variable.
    NotVariable,
    /// The stack wasn't empty at the end.
    LeftOver,
    /// A warning of the style.
    Warned(Bytes),
    /// A value, in the words in which the log shows it.
    Shown(Bytes),
    /// The limits that stop a run: of ticks, of values on the stack, of bytes in a text or in the held line.
    TicksPassed,
    StackPassed,
    TextPassed,
}

fn wrong_kind(alloc: Global, name: &[u8]) -> Result<Bytes, AllocError>
    ensures { IfOk result (λ words. words ≡ name.now ++ codes " got a value of the wrong kind") }
{
    Bytes::of(alloc, &[name, b" got a value of the wrong kind"])
}

fn out_of_range(alloc: Global, name: &[u8]) -> Result<Bytes, AllocError>
    ensures { IfOk result (λ words. words ≡ codes "The result of " ++ name.now ++ codes " is out of range") }
{
    Bytes::of(alloc, &[b"The result of ", name, b" is out of range"])
}

fn bad_case(alloc: Global, text: &[u8]) -> Result<Bytes, AllocError>
    ensures { IfOk result (λ words. words ≡ complaint_words (Complaint.BadCase text.now)) }
{
    Bytes::of(
        alloc,
        &[b"\"", text, b"\" is an illegal case-conversion string"],
    )
}

fn not_one_character(alloc: Global, text: &[u8]) -> Result<Bytes, AllocError>
    ensures { IfOk result (λ words. words ≡ complaint_words (Complaint.NotOneCharacter text.now)) }
{
    Bytes::of(alloc, &[b"\"", text, b"\" isn't a single character"])
}

fn not_ascii(alloc: Global, number: i32) -> Result<Bytes, AllocError>
    ensures { IfOk result (λ words. words ≡ complaint_words (Complaint.NotAscii number)) }
{
    let mut buffer = Buffer::new();
    let number = buffer.format(number).as_bytes();
    Bytes::of(alloc, &[number, b" isn't valid ASCII"])
}

fn no_such_name(alloc: Global, number: i32, names: &[u8]) -> Result<Bytes, AllocError>
    ensures { IfOk result (λ words. words ≡ complaint_words (Complaint.NoSuchName number names.now)) }
{
    let mut buffer = Buffer::new();
    let number = buffer.format(number).as_bytes();
    Bytes::of(
        alloc,
        &[b"There is no name ", number, b" in \"", names, b"\""],
    )
}

fn too_many_commas(alloc: Global, number: i32, names: &[u8]) -> Result<Bytes, AllocError>
    ensures { IfOk result (λ words. words ≡ complaint_words (Complaint.TooManyCommas number names.now)) }
{
    let mut buffer = Buffer::new();
    let number = buffer.format(number).as_bytes();
    Bytes::of(
        alloc,
        &[b"Too many commas in name ", number, b" of \"", names, b"\""],
    )
}

fn pattern_fault(alloc: Global, pattern: &[u8], place: usize) -> Result<Bytes, AllocError>
    ensures { IfOk result (λ words. words ≡ complaint_words (Complaint.PatternFault pattern.now place)) }
{
    let mut buffer = Buffer::new();
    let place = buffer.format(place).as_bytes();
    Bytes::of(
        alloc,
        &[
            b"The format string \"",
            pattern,
            b"\" has a fault at byte ",
            place,
        ],
    )
}

fn warned(alloc: Global, text: &[u8]) -> Result<Bytes, AllocError>
    ensures { IfOk result (λ words. words ≡ complaint_words (Complaint.Warned text.now)) }
{
    Bytes::of(alloc, &[b"Warning--", text])
}

fn shared(key: Option<&Shared<Bytes>>) -> Result<Option<Shared<Bytes>>, AllocError>
    ensures { IfOk result (λ same. same ≡ option_map (λ bytes. bytes.now) key.entry) }
{
    match key {
        None => Ok(None),
        Some(key) => Ok(Some(key.share()?)),
    }
}

impl Complaint {
    ghost use Rattle.std.specs.Prelude.{◌≡◌, option_map, IfOk, map};
    ghost use Rattle.bt_actions.specs.Words.{rank_of, complaint_words, message_of};

    fn rank(&self) -> Rank
        ensures { result ≡ rank_of self.now }
    {
        match self {
            Complaint::EmptyStack
            | Complaint::WrongKind(_)
            | Complaint::NoEntry
            | Complaint::OutOfRange(_)
            | Complaint::BadCase(_)
            | Complaint::NotOneCharacter(_)
            | Complaint::NotAscii(_)
            | Complaint::NoSuchName(_, _)
            | Complaint::TooManyCommas(_, _)
            | Complaint::PatternFault(_, _)
            | Complaint::NotVariable
            | Complaint::LeftOver => Rank::Error,
            Complaint::Warned(_) => Rank::Warning,
            Complaint::Shown(_) => Rank::Note,
            Complaint::TicksPassed | Complaint::StackPassed | Complaint::TextPassed => Rank::Fatal,
        }
    }

    fn words(&self, alloc: Global) -> Result<Bytes, AllocError>
        ensures { IfOk result (λ words. words ≡ complaint_words self.now) }
    {
        match self {
            Complaint::EmptyStack => Bytes::copied(alloc, b"You can't pop an empty literal stack"),
            Complaint::WrongKind(builtin) => wrong_kind(alloc, builtin.name()),
            Complaint::NoEntry => Bytes::copied(alloc, b"You can't mess with entries here"),
            Complaint::OutOfRange(builtin) => out_of_range(alloc, builtin.name()),
            Complaint::BadCase(text) => bad_case(alloc, text.as_slice()),
            Complaint::NotOneCharacter(text) => not_one_character(alloc, text.as_slice()),
            Complaint::NotAscii(number) => not_ascii(alloc, *number),
            Complaint::NoSuchName(number, names) => no_such_name(alloc, *number, names.as_slice()),
            Complaint::TooManyCommas(number, names) => {
                too_many_commas(alloc, *number, names.as_slice())
            }
            Complaint::PatternFault(pattern, place) => {
                pattern_fault(alloc, pattern.as_slice(), *place)
            }
            Complaint::NotVariable => Bytes::copied(alloc, b":= needs a variable"),
            Complaint::LeftOver => Bytes::copied(alloc, b"The literal stack isn't empty"),
            Complaint::Warned(text) => warned(alloc, text.as_slice()),
            Complaint::Shown(text) => Bytes::copied(alloc, text.as_slice()),
            Complaint::TicksPassed => {
                Bytes::copied(alloc, b"The limit of 1000000 ticks was passed")
            }
            Complaint::StackPassed => {
                Bytes::copied(alloc, b"The limit of 1000 stack values was passed")
            }
            Complaint::TextPassed => {
                Bytes::copied(alloc, b"The limit of 65536 bytes was passed")
            }
        }
    }

    fn message(&self, alloc: Global, key: Option<&Shared<Bytes>>) -> Result<Message, AllocError>
        ensures { IfOk result (λ message.
            message ≡ message_of (option_map (λ bytes. bytes.now) key.entry) self.now) }
    {
        Ok(Message {
            rank: self.rank(),
            said: Said::Words(Shared::new(alloc, self.words(alloc)?)?),
            entry: shared(key)?,
            place: None,
            second: None,
        })
    }
}

/// The messages of complaints, in their order, in a step for the entry with this key or for none.
pub fn messages(
    alloc: Global,
    complaints: &[Complaint],
    key: Option<&Shared<Bytes>>,
) -> Result<Sequence<Message>, AllocError>
    ensures { IfOk result (λ messages.
        messages ≡ map (message_of (option_map (λ bytes. bytes.now) key.entry)) complaints.now) }
{
    let mut messages = Sequence::new(alloc);
    for complaint in complaints {
        messages.push(complaint.message(alloc, key)?)?;
    }
    Ok(messages)
}
