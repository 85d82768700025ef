//! The wording of errors in items.

ghost use Rattle.std.specs.Prelude.{◌≡◌, ◌++◌, IfOk, OnOk, codes};
ghost use Rattle.bt_resolve.specs.Faults.{fault_error, fault_words, repeated, unclosed_command, unclosed_entry, what_name, dropped_name};
ghost use Rattle.bt_resolve.specs.inner.Cases.{sign_of, fault_messages, key_of, unclosed};

use crate::messages::add_message;
use crate::reader::Reader;
use bt_bib::{Closing, Content, ItemFault, NameRole};
use bt_log::{Message, Place, Said};
use bt_text::{Bytes, Sequence, Shared};
use std::alloc::{AllocError, Global};

fn dropped_name(content: &Content) -> &'static [u8]
    ensures { result.now ≡ dropped_name content.now }
{
    match content {
        Content::Entry(_) => b"entry",
        Content::Define(_) => b"command",
        Content::Preamble(_) => b"command",
    }
}

fn what_name(what: NameRole) -> &'static [u8]
    ensures { result.now ≡ what_name what }
{
    match what {
        NameRole::EntryType => b"an entry type",
        NameRole::StringName => b"a string name",
        NameRole::FieldName => b"a field name",
        NameRole::FieldPart => b"a field part",
    }
}

fn sign_of(close: Option<Closing>) -> u8
    ensures { result ≡ sign_of close }
{
    match close {
        None => b'}',
        Some(Closing::Brace) => b'}',
        Some(Closing::Parenthesis) => b')',
    }
}

#[tactic(auto, unfolding(crate::specs::Faults::unclosed_entry))]
fn unclosed_entry(alloc: Global, sign: &[u8]) -> Result<Bytes, AllocError>
    ensures { IfOk result (λ words. words ≡ unclosed_entry sign.now) }
{
    Bytes::of(alloc, &[b"I was expecting a `,' or a `", sign, b"'"])
}

#[tactic(auto, unfolding(crate::specs::Faults::unclosed_command))]
fn unclosed_command(alloc: Global, name: &[u8], sign: &[u8]) -> Result<Bytes, AllocError>
    ensures { IfOk result (λ words. words ≡ unclosed_command name.now sign.now) }
{
    Bytes::of(alloc, &[b"Missing \"", sign, b"\" in ", name, b" command"])
}

fn unclosed(alloc: Global, content: &Content, close: Option<Closing>) -> Result<Bytes, AllocError>
    ensures { IfOk result (λ words. words ≡ unclosed content.now close) }
{
    let sign = &[sign_of(close)];
    match content {
        Content::Entry(_) => unclosed_entry(alloc, sign),
        Content::Define(_) => unclosed_command(alloc, b"string", sign),
        Content::Preamble(_) => unclosed_command(alloc, b"preamble", sign),
    }
}

fn followed(alloc: Global, sign: &[u8], name: &[u8]) -> Result<Bytes, AllocError>
    ensures { IfOk result (λ words. words ≡ codes "\"" ++ sign.now ++ codes "\" immediately follows " ++ name.now) }
{
    Bytes::of(alloc, &[b"\"", sign, b"\" immediately follows ", name])
}

#[tactic(auto, unfolding(crate::specs::Faults::fault_words))]
fn fault_words(
    alloc: Global,
    content: &Content,
    close: Option<Closing>,
    fault: ItemFault,
) -> Result<Bytes, AllocError>
    ensures { IfOk result (λ words. words ≡ fault_words content.now close fault) }
{
    match fault {
        ItemFault::EndOfFile => Bytes::copied(alloc, b"Illegal end of database file"),
        ItemFault::MissingName(what) => Bytes::of(alloc, &[b"You're missing ", what_name(what)]),
        ItemFault::BadNameEnd(what, byte) => followed(alloc, &[byte], what_name(what)),
        ItemFault::ExpectedOpen => Bytes::copied(alloc, b"I was expecting a `{' or a `('"),
        ItemFault::ExpectedCommaOrClose => unclosed(alloc, content, close),
        ItemFault::ExpectedEquals => Bytes::copied(alloc, b"I was expecting an `='"),
        ItemFault::UnbalancedBraces => Bytes::copied(alloc, b"Unbalanced braces"),
        ItemFault::MissingPart => Bytes::copied(alloc, b"You're missing a field part"),
    }
}

fn key_of(content: &Content) -> Result<Option<Shared<Bytes>>, AllocError>
    ensures { IfOk result (λ key. key ≡ key_of content.now) }
{
    match content {
        Content::Entry(entry) => match &entry.key {
            None => Ok(None),
            Some(key) => Ok(Some(key.share()?)),
        },
        Content::Define(_) | Content::Preamble(_) => Ok(None),
    }
}

impl Reader<'_, '_> {
    fn fault_error(&self, fault: ItemFault) -> Result<Message, AllocError>
        ensures { IfOk result (λ message. message ≡ fault_error self.now.origin.database self.now.end
            self.now.item.now.content self.now.item.now.close fault) }
    {
        let content = &self.item.content;
        let words = fault_words(self.alloc, content, self.item.close, fault)?;
        let said = Said::Words(Shared::new(self.alloc, words)?);
        let place = Place::DatabaseLine {
            database: self.origin.database,
            line: self.end.line as u128,
            byte: Some(self.end.place),
        };
        let mut message = Message::skipping(self.alloc, said, place, dropped_name(content))?;
        message.entry = key_of(content)?;
        Ok(message)
    }

    /// Reports the fault of the item, if it has one.
    pub fn tell_fault(&self, messages: &mut Sequence<Message>) -> Result<(), AllocError>
        ensures { OnOk result (messages.new ≡ messages.old ++ fault_messages self.now.origin.database self.now.end
            self.now.item.now.content self.now.item.now.close self.now.item.now.fault) }
    {
        match self.item.fault {
            None => Ok(()),
            Some(fault) => add_message(messages, self.fault_error(fault)?),
        }
    }
}

/// The error that an entry's key is stored already.
pub fn repeated(alloc: Global, place: Place, key: &Shared<Bytes>) -> Result<Message, AllocError>
    ensures { IfOk result (λ message. message ≡ repeated place key.now) }
{
    let said = Said::Words(Shared::<Bytes>::copied(alloc, b"Repeated entry")?);
    let mut message = Message::skipping(alloc, said, place, b"entry")?;
    message.entry = Some(key.share()?);
    Ok(message)
}
