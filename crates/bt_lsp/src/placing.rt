//! The diagnostics of a style: the run's messages, each at the word of the text that it is about.

ghost use Rattle.std.specs.Prelude.{◌≡◌, ◌<◌, ◌*◌, ◌^◌, length, map, drop, option_map, Some, IfOk};
ghost use Rattle.serde_json.specs.View.{view};
ghost use Rattle.bt_places.specs.Shapes.{range};
ghost use Rattle.bt_lsp.specs.Placing.{moved, call, diagnostic_with, is_line_of, first_line_of, fault_of, fault_in, at_name, at_fault, at_step, value_at, with_placed, first_word, told_in};

use crate::styles::shown_style;
use bt_diagnostics::{Diagnostic, FileText, Keys, diagnostics};
use bt_documents::Document;
use bt_log::{Message, Place, Said};
use bt_places::{diagnostic, location, range_of, shown};
use bt_positions::IndexedText;
use bt_remarks::{CallWord, StepWord};
use bt_shapes::range;
use bt_style_answers::fault_words;
use bt_style_faults::faulty_word;
use bt_style_text::Word;
use bt_text::Bytes;
use serde_json::{Value, json};
use std::alloc::{AllocError, Global};

/// A style that is open, under the name that the run has for it.
#[derive(Clone, Copy)]
pub struct OpenStyle<'a> {
    pub alloc: Global,
    pub name: &'a [u8],
    pub document: &'a Document,
    pub keys: &'a Keys,
    /// The word of its fault, if it has one and that is known.
    pub fault: Option<Word>,
    /// Whether the editor shows places related to a diagnostic.
    pub relates: bool,
}

/// The same diagnostic at another part of a document.
fn diagnostic_at(
    alloc: Global,
    document: &Document,
    start: usize,
    end: usize,
    found: &Diagnostic,
) -> Result<Diagnostic, AllocError>
    requires { 2 * length document.now.text < 2 ^ 64 }
    ensures { IfOk result (λ there. there ≡ moved document.now start end found.now) }
{
    let text = &document.text;
    let len = text.as_slice().len();
    Ok(Diagnostic {
        from: text.position_of(document.counting, start.min(len)),
        to: text.position_of(document.counting, end.min(len)),
        severity: found.severity,
        words: Bytes::copied(alloc, found.words.as_slice())?,
    })
}

fn call(alloc: Global, document: &Document, one: &CallWord) -> Result<Value, AllocError>
    requires { 2 * length document.now.text < 2 ^ 64 }
    ensures { IfOk result (λ v. view v ≡ call document.now one.now) }
{
    let word = range_of(alloc, document.counting, &document.text, one.start, one.end)?;
    let location = location(alloc, document.name.as_slice(), word)?;
    let words = shown(alloc, one.words.as_slice())?;
    json!(in alloc; {"location": location, "message": words})
}

fn calls(alloc: Global, document: &Document, all: &[CallWord]) -> Result<Vec<Value>, AllocError>
    requires { 2 * length document.now.text < 2 ^ 64 }
    ensures { IfOk result (λ list. map view list.items ≡ map (call document.now) all.now) }
{
    let mut list = Vec::new(alloc);
    'calls: for one in all {
        list.push(call(alloc, document, one)?)?;
    }
    Ok(list)
}

/// What an editor shows of a diagnostic with related places.
fn diagnostic_with(
    alloc: Global,
    found: &Diagnostic,
    places: Vec<Value>,
) -> Result<Value, AllocError>
    ensures { IfOk result (λ v. view v ≡ diagnostic_with found.now (map view places.items)) }
{
    let range = range(alloc, found.from, found.to)?;
    let words = shown(alloc, found.words.as_slice())?;
    let severity = found.severity;
    let places = Value::Array(places);
    json!(in alloc; {
        "range": range, "severity": severity, "source": "bibtex", "message": words, "relatedInformation": places
    })
}

fn is_line_of(name: &[u8], message: &Message) -> bool
    ensures { result ≡ is_line_of name.now message.now.place }
{
    match &message.place {
        Some(Place::Line { file, .. }) => file.as_slice() == name,
        _ => false,
    }
}

fn fault_of(
    alloc: Global,
    text: &IndexedText,
    message: &Message,
) -> Result<Option<Word>, AllocError>
    ensures { IfOk result (λ word. word ≡ fault_of text.now message.now.place message.now.said) }
{
    match (&message.place, &message.said) {
        (Some(Place::Line { line, .. }), Said::Words(words)) => {
            faulty_word(alloc, text, *line, words.as_slice())
        }
        _ => Ok(None),
    }
}

fn first_line_of<'a>(name: &[u8], messages: &'a [Message]) -> Option<&'a Message>
    ensures { option_map (λ m. m.now) result ≡ first_line_of name.now messages.now }
{
    messages.iter().find(|message| is_line_of(name, *message))
}

/// The word of a style's fault, of which the first message at a line of its file speaks.
pub fn fault_in(
    alloc: Global,
    name: &[u8],
    text: &IndexedText,
    messages: &[Message],
) -> Result<Option<Word>, AllocError>
    ensures { IfOk result (λ word. word ≡ fault_in name.now text.now messages.now) }
{
    match first_line_of(name, messages) {
        Some(message) => fault_of(alloc, text, message),
        None => Ok(None),
    }
}

/// A diagnostic at a word, with the name that is probably meant if nothing declares the word.
fn at_name(
    alloc: Global,
    document: &Document,
    word: Word,
    found: &Diagnostic,
) -> Result<Diagnostic, AllocError>
    requires { 2 * length document.now.text < 2 ^ 64 }
    ensures { IfOk result (λ there. there ≡ at_name document.now word found.now) }
{
    let likely = shown_style(document).likely_at(alloc, word)?;
    let words = fault_words(alloc, found.words.as_slice(), likely.as_slice())?;
    let there = diagnostic_at(alloc, document, word.start, word.end, found)?;
    Ok(Diagnostic {
        from: there.from,
        to: there.to,
        severity: there.severity,
        words,
    })
}

fn first_word(words: &[Option<StepWord>]) -> Option<&StepWord>
    ensures { option_map (λ w. w.now) result ≡ first_word words.now }
{
    match words {
        [Some(word), ..] => Some(word),
        _ => None,
    }
}

fn words_behind(words: &[Option<StepWord>]) -> &[Option<StepWord>]
    ensures { result.now ≡ drop 1 words.now }
{
    match words {
        [] => words,
        [_, rest @ ..] => rest,
    }
}

impl OpenStyle<'_> {
    /// What an editor shows of a style's fault: at its word, if that is known.
    fn at_fault(&self, found: &Diagnostic) -> Result<Value, AllocError>
        requires { 2 * length self.now.document.now.text < 2 ^ 64 }
        ensures { IfOk result (λ v. view v ≡ at_fault self.now.document.now self.now.fault found.now) }
    {
        let Some(word) = self.fault else {
            return diagnostic(self.alloc, found);
        };
        let there = at_name(self.alloc, self.document, word, found)?;
        let value = diagnostic(self.alloc, &there)?;
        Ok(value)
    }

    /// The same at the word that ran, with the calls that led there.
    fn at_word(&self, word: &StepWord, found: &Diagnostic) -> Result<Value, AllocError>
        requires { 2 * length self.now.document.now.text < 2 ^ 64 }
        ensures { IfOk result (λ v. view v ≡
            at_step self.now.relates self.now.document.now (Some word.now) found.now) }
    {
        let there = diagnostic_at(self.alloc, self.document, word.start, word.end, found)?;
        if !self.relates {
            let value = diagnostic(self.alloc, &there)?;
            return Ok(value);
        }
        let places = calls(self.alloc, self.document, word.calls.as_slice())?;
        let value = diagnostic_with(self.alloc, &there, places)?;
        Ok(value)
    }

    /// What an editor shows of a step's message: at the word that ran, if that is known.
    fn at_step(&self, word: Option<&StepWord>, found: &Diagnostic) -> Result<Value, AllocError>
        requires { 2 * length self.now.document.now.text < 2 ^ 64 }
        ensures { IfOk result (λ v. view v ≡
            at_step self.now.relates self.now.document.now (option_map (λ w. w.now) word.entry) found.now) }
    {
        match word {
            None => diagnostic(self.alloc, found),
            Some(word) => self.at_word(word, found),
        }
    }

    /// What an editor shows of a message whose diagnostic this is.
    fn value_at(
        &self,
        word: Option<&StepWord>,
        message: &Message,
        found: &Diagnostic,
    ) -> Result<Value, AllocError>
        requires { 2 * length self.now.document.now.text < 2 ^ 64 }
        ensures { IfOk result (λ v. view v ≡ value_at self.now.relates self.now.document.now self.now.fault
            (option_map (λ w. w.now) word.entry) message.now.place message.now.said found.now) }
    {
        match (&message.place, &message.said) {
            (Some(Place::Line { .. }), Said::Words(_)) => self.at_fault(found),
            (Some(Place::Step { .. }), _) => self.at_step(word, found),
            _ => diagnostic(self.alloc, found),
        }
    }

    /// Adds the diagnostics of a message.
    fn with_placed(
        &self,
        word: Option<&StepWord>,
        message: &Message,
        found: &[Diagnostic],
        list: Vec<Value>,
    ) -> Result<Vec<Value>, AllocError>
        requires { 2 * length self.now.document.now.text < 2 ^ 64 }
        ensures { IfOk result (λ all. map view all.items ≡ with_placed self.now.relates self.now.document.now self.now.fault
            (option_map (λ w. w.now) word.entry) message.now (map view list.items) found.now) }
    {
        let mut all = list;
        'found: for one in found {
            all.push(self.value_at(word, message, one)?)?;
        }
        Ok(all)
    }

    /// The diagnostics of messages in a style: each at its place, but the style's fault at its word, and the message of a step
    /// at the word that ran. `step_words` has the word of each message, as far as it is known.
    pub fn all_diagnostics(
        &self,
        step_words: &[Option<StepWord>],
        messages: &[Message],
    ) -> Result<Vec<Value>, AllocError>
        requires { 2 * length self.now.document.now.text < 2 ^ 64 }
        ensures { IfOk result (λ all. map view all.items ≡ told_in self.now.relates self.now.document.now self.now.fault
            self.now.keys.now self.now.name.now step_words.now messages.now) }
    {
        let OpenStyle {
            alloc,
            name,
            document,
            keys,
            ..
        } = *self;
        let file = FileText {
            name,
            counting: document.counting,
            text: &document.text,
        };
        let mut all = Vec::new(alloc);
        let mut words = step_words;
        let mut left = messages;
        'messages: while let [message, rest @ ..] = left {
            let one = left.split_at(1).0;
            let found = diagnostics(alloc, &file, keys, one)?;
            let word = first_word(words);
            all = self.with_placed(word, message, found.as_slice(), all)?;
            words = words_behind(words);
            left = rest;
        }
        Ok(all)
    }
}
