//! What a step left when it was run with marks, and whether it is what the style machine left.

ghost use Rattle.std.specs.Prelude.{◌≡◌, ◌++◌, map, option_map, IfOk, IsTrue};
ghost use Rattle.bt_marks.specs.Bytes.{line_bytes, lines_bytes, text_bytes};
ghost use Rattle.bt_why.specs.Erased.{effect_of, plain_variables, rerun_effect, steps_bytes};
ghost use Rattle.bt_why.specs.Named.{AllRight, AreRight};

use crate::machine::{Left, Machine};
use crate::values::Variables;
use bt_actions::messages;
use bt_log::{Message, Said};
use bt_machine::Outcome;
use bt_marks::{Line, Text, bytes_of, line_bytes, lines_bytes};
use bt_text::{Bytes, Sequence, Shared, Values, are_same, equal_bytes, shared_all};
use std::alloc::{AllocError, Global};

/// What a step left when it was run with marks.
#[derive(Drop)]
pub struct Rerun {
    /// The values of the global variables after the step.
    pub globals: Variables,
    /// The variables of the step's entry after the step, if it is for an entry.
    pub variables: Option<Variables>,
    /// The line that hasn't ended.
    pub held: Line,
    /// The messages that the step logged, in their order.
    pub messages: Sequence<Message>,
    /// The lines that it ended, the words that gave the messages, and its ticks.
    pub left: Left,
}

/// Whether two texts are equal, or both are missing.
fn is_same_text(text: &Option<Shared<Bytes>>, other: &Option<Shared<Bytes>>) -> bool
    ensures { IsTrue result → text.now ≡ other.now }
{
    match (text, other) {
        (None, None) => true,
        (Some(text), Some(other)) => equal_bytes(text.as_slice(), other.as_slice()),
        _ => false,
    }
}

fn says_same(said: &Said, other: &Said) -> bool
    ensures { IsTrue result → said.now ≡ other.now }
{
    match (said, other) {
        (Said::Words(words), Said::Words(other)) => {
            equal_bytes(words.as_slice(), other.as_slice())
        }
        _ => false,
    }
}

/// Whether two messages of a step are the same. Its run gives them a place only later.
fn is_same_message(message: &Message, other: &Message) -> bool
    ensures { IsTrue result → message.now ≡ other.now }
{
    message.rank == other.rank
        && says_same(&message.said, &other.said)
        && is_same_text(&message.entry, &other.entry)
        && is_same_text(&message.second, &other.second)
        && message.place.is_none()
        && other.place.is_none()
}

fn are_same_messages(messages: &[Message], others: &[Message]) -> bool
    ensures { IsTrue result → messages.now ≡ others.now }
{
    if messages.len() != others.len() {
        return false;
    }
    'messages: for place in 0..messages.len() {
        if !is_same_message(&messages[place], &others[place]) {
            return false;
        }
    }
    true
}

/// Lines without their marks.
fn plain_lines(alloc: Global, lines: &[Line]) -> Result<Vec<Shared<Bytes>>, AllocError>
    ensures { IfOk result (λ plain. plain.items ≡ map (λ line. line_bytes line.items) lines.now) }
{
    let mut plain = Vec::with_capacity(alloc, lines.len())?;
    'lines: for line in lines {
        plain.push(Shared::new(alloc, line_bytes(alloc, line.as_slice())?)?)?;
    }
    Ok(plain)
}

/// Texts without their marks.
fn plain_texts(alloc: Global, texts: &[Shared<Text>]) -> Result<Vec<Shared<Bytes>>, AllocError>
    ensures { IfOk result (λ plain. plain.items ≡ map (λ text. text_bytes text.items) texts.now) }
{
    let mut plain = Vec::with_capacity(alloc, texts.len())?;
    'texts: for text in texts {
        plain.push(Shared::new(alloc, bytes_of(alloc, text.as_slice())?)?)?;
    }
    Ok(plain)
}

fn equal_numbers(one: &[i32], other: &[i32]) -> bool
    ensures { IsTrue result → one.now ≡ other.now }
{
    one == other
}

fn are_numbers(alloc: Global, own: &[i32], plain: &Values<i32>) -> Result<bool, AllocError>
    ensures { IfOk result (λ same. IsTrue same → own.now ≡ plain.now) }
{
    let numbers = plain.to_vec(alloc)?;
    Ok(equal_numbers(own, numbers.as_slice()))
}

/// Whether texts are equal, apart from the marks.
fn are_texts(
    alloc: Global,
    own: &[Shared<Text>],
    plain: &Values<Shared<Bytes>>,
) -> Result<bool, AllocError>
    ensures { IfOk result (λ same. IsTrue same → map (λ text. text_bytes text.items) own.now ≡ plain.now) }
{
    let own = plain_texts(alloc, own)?;
    let texts = plain.to_vec(alloc)?;
    let same = are_same(own.as_slice(), texts.as_slice());
    Ok(same)
}

/// Whether variables are equal, apart from the marks.
fn are_values(
    alloc: Global,
    own: &Variables,
    plain: &bt_actions::Variables,
) -> Result<bool, AllocError>
    ensures { IfOk result (λ same. IsTrue same → plain_variables own.now ≡ plain.now) }
{
    if !are_numbers(alloc, own.numbers.as_slice(), &plain.numbers)? {
        return Ok(false);
    }
    are_texts(alloc, own.texts.as_slice(), &plain.texts)
}

/// The same, or both are missing.
fn are_own(
    alloc: Global,
    own: &Option<Variables>,
    plain: &Option<Shared<bt_actions::Variables>>,
) -> Result<bool, AllocError>
    ensures { IfOk result (λ same. IsTrue same → option_map plain_variables own.now ≡ plain.now) }
{
    match (own, plain) {
        (None, None) => Ok(true),
        (Some(own), Some(plain)) => are_values(alloc, own, plain),
        _ => Ok(false),
    }
}

/// The same variables; their texts are shared.
fn shared_variables(alloc: Global, own: &Variables) -> Result<Variables, AllocError>
    ensures { IfOk result (λ same. plain_variables same ≡ plain_variables own.now) }
{
    Ok(Variables {
        numbers: Vec::from_slice(alloc, own.numbers.as_slice())?,
        texts: shared_all(alloc, own.texts.as_slice())?,
    })
}

/// The variables of the machine's entry, shared.
fn own_variables(machine: &Machine<'_>) -> Result<Option<Variables>, AllocError> {
    match machine.own_variables() {
        Some(own) => Ok(Some(shared_variables(machine.alloc, own)?)),
        None => Ok(None),
    }
}

/// The messages of the last step.
fn messages_of(machine: &Machine<'_>, left: &Left) -> Result<Sequence<Message>, AllocError> {
    let key = match machine.own_entry() {
        Some(entry) => Some(&entry.key),
        None => None,
    };
    messages(machine.alloc, left.complaints.as_slice(), key)
}

impl Rerun {
    /// What the last step left.
    pub fn of(machine: &Machine<'_>, left: Left) -> Result<Rerun, AllocError>
        ensures globals { IfOk result (λ rerun. plain_variables rerun.globals ≡ plain_variables machine.now.globals) }
        ensures held { IfOk result (λ rerun. rerun.held.items ≡ machine.now.held.items) }
        ensures left { IfOk result (λ rerun. rerun.left ≡ left) }
    {
        let messages = messages_of(machine, &left)?;
        let held = Vec::from_slice(machine.alloc, machine.held.as_slice())?;
        let variables = own_variables(machine)?;
        let globals = shared_variables(machine.alloc, &machine.globals)?;
        Ok(Rerun {
            globals,
            variables,
            held,
            messages,
            left,
        })
    }

    fn has_variables(&self, alloc: Global, outcome: &Outcome) -> Result<bool, AllocError>
        ensures globals { IfOk result (λ same. IsTrue same → plain_variables self.now.globals ≡ outcome.now.globals) }
        ensures own { IfOk result (λ same. IsTrue same →
            option_map plain_variables self.now.variables ≡ outcome.now.variables) }
    {
        if !are_values(alloc, &self.globals, &outcome.globals)? {
            return Ok(false);
        }
        are_own(alloc, &self.variables, &outcome.variables)
    }

    fn has_lines(&self, alloc: Global, outcome: &Outcome) -> Result<bool, AllocError>
        ensures held { IfOk result (λ same. IsTrue same → line_bytes self.now.held.items ≡ outcome.now.held) }
        ensures lines { IfOk result (λ same. IsTrue same →
            map (λ line. line_bytes line.items) self.now.left.lines.items ≡ outcome.now.lines) }
    {
        let held = line_bytes(alloc, self.held.as_slice())?;
        let lines = plain_lines(alloc, self.left.lines.as_slice())?;
        let same = equal_bytes(held.as_slice(), outcome.held.bytes())
            && are_same(lines.as_slice(), outcome.lines.as_slice());
        Ok(same)
    }

    fn has_end(&self, outcome: &Outcome, cost: u128) -> bool
        ensures messages { IsTrue result → self.now.messages ≡ outcome.now.messages }
        ensures cost { IsTrue result → self.now.left.ticks ≡ cost }
        ensures stop { IsTrue result → self.now.left.stop ≡ outcome.now.stop }
    {
        u128::from(self.left.ticks) == cost
            && self.left.stop == outcome.stop
            && are_same_messages(self.messages.as_slice(), outcome.messages.as_slice())
    }

    /// Whether this is, apart from the marks, what a step left and cost: its variables, the held line, its lines and
    /// messages, whether it ended the run, and its ticks.
    pub fn is_outcome(
        &self,
        alloc: Global,
        outcome: &Outcome,
        cost: u128,
    ) -> Result<bool, AllocError>
        ensures { IfOk result (λ same. IsTrue same → rerun_effect self.now ≡ effect_of outcome.now cost) }
    {
        let same = self.has_variables(alloc, outcome)?
            && self.has_lines(alloc, outcome)?
            && self.has_end(outcome, cost);
        Ok(same)
    }
}

/// The lines of steps without their marks, each with a line feed after it.
fn steps_bytes(alloc: Global, steps: &[Rerun]) -> Result<Bytes, AllocError>
    ensures { IfOk result (λ text. text ≡ steps_bytes steps.now) }
{
    let mut text = Bytes::new(alloc);
    'steps: for step in steps {
        text.append(lines_bytes(alloc, step.left.lines.as_slice())?.as_slice())?;
    }
    Ok(text)
}

/// Whether the lines of steps are a bibliography, byte for byte.
pub fn are_lines_of(alloc: Global, steps: &[Rerun], bbl: &[u8]) -> Result<bool, AllocError>
    ensures { IfOk result (λ same. IsTrue same → steps_bytes steps.now ≡ bbl.now) }
{
    let text = steps_bytes(alloc, steps)?;
    let same = text.as_slice() == bbl;
    Ok(same)
}

/// Whether each byte of the lines of a step is the one that its mark names.
fn is_right(machine: &Machine<'_>, step: &Rerun) -> bool
    ensures { IsTrue result → AreRight machine.now step.now.left.lines.items }
{
    machine.wrong_line(step.left.lines.as_slice()).is_none()
}

/// Whether each byte of the lines of some steps is the one that its mark names.
pub fn are_right(machine: &Machine<'_>, steps: &[Rerun]) -> bool
    ensures { IsTrue result → AllRight machine.now steps.now }
{
    'steps: for step in steps {
        if !is_right(machine, step) {
            return false;
        }
    }
    true
}
