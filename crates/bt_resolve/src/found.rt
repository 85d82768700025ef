//! What is found in a reading, once the list is resolved.

ghost use Rattle.std.specs.Prelude.{◌≡◌, ◌++◌, ◌≤◌, length, IfOk, IfSome};
ghost use Rattle.bt_resolve.specs.References.{list_messages};
ghost use Rattle.bt_resolve.specs.inner.Inheritance.{seen_of, values_read};
ghost use Rattle.bt_resolve.specs.inner.Kept.{found_of};

use crate::asked::Asked;
use crate::entry::Resolved;
use crate::family::Family;
use crate::inheritance::values_read;
use crate::kept::Found;
use crate::macro_text::MacroText;
use crate::reading::{Reach, Reading};
use crate::resolution::resolve_list;
use crate::store::Store;
use crate::stored::{FieldValues, Stored};
use crate::view::Seen;
use bt_text::{ByName, Bytes, Sequence, Shared};
use std::alloc::{AllocError, Global};
use std::mem;

/// What is kept of a reading for many owners.
#[derive(Drop)]
struct SharedParts {
    macros: Shared<ByName<MacroText>>,
    preamble: Shared<Bytes>,
    values: Sequence<Shared<FieldValues>>,
}

fn shared_parts(
    alloc: Global,
    macros: ByName<MacroText>,
    preamble: Bytes,
    entries: &[Stored],
) -> Result<SharedParts, AllocError>
    ensures { IfOk result (λ parts. parts
        ≡ record { macros = macros; preamble = preamble; values = values_read entries.now }) }
{
    let preamble = Shared::new(alloc, preamble)?;
    let macros = Shared::new(alloc, macros)?;
    let values = Sequence::from_vec(values_read(alloc, entries)?);
    Ok(SharedParts {
        macros,
        preamble,
        values,
    })
}

/// What is kept of a reading, whose entries are in `store`. All that can fail is one call: a proof would follow each of the
/// large values here to each `?`.
fn found_of(
    alloc: Global,
    read: Reading,
    store: Family,
    reaches: Sequence<Sequence<Reach>>,
    seen: Seen,
) -> Result<Found, AllocError>
    ensures { IfOk result (λ found. found ≡ found_of (record read { store = store }) reaches seen) }
{
    let Reading {
        macros,
        preamble,
        messages,
        ..
    } = read;
    match shared_parts(alloc, macros, preamble, store.entries()) {
        Ok(parts) => Ok(Found {
            macros: parts.macros,
            store,
            values: parts.values,
            listed: seen.listed,
            reaches,
            places: seen.places,
            all: Resolved {
                entries: seen.entries,
                preamble: parts.preamble,
                messages,
            },
        }),
        Err(fault) => {
            drop(messages);
            drop(store);
            drop(reaches);
            drop(seen);
            Err(fault)
        }
    }
}

/// Resolves the list, once all is read.
pub fn found_in(
    alloc: Global,
    asked: &Asked<'_>,
    min: u32,
    read: Reading,
    reaches: Sequence<Sequence<Reach>>,
) -> Result<Found, AllocError>
    requires { IfSome asked.now.star (λ before. before ≤ length asked.now.keys) }
    ensures { IfOk result (λ found.
        let all = record read { messages = read.messages ++ list_messages asked.now read.store } in
        found ≡ found_of all reaches (seen_of asked.now min read.store)) }
{
    let mut read = read;
    let store = mem::replace(&mut read.store, Store::new(alloc));
    let family = Family::new(alloc, store)?;
    let seen = resolve_list(alloc, asked, min, &family, &mut read.messages)?;
    let found = found_of(alloc, read, family, reaches, seen)?;
    Ok(found)
}
