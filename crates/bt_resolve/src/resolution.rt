//! The whole resolution.
//!
//! Each function makes one or two values and lends them to the next. A `?` drops all live values, and the prover
//! follows each drop, so a single function with all these steps would take many minutes to prove.

ghost use Rattle.std.specs.Prelude.{◌≡◌, ◌≤◌, ◌++◌, length, map, IfOk, IfSome, IsTrue, OnOk};
ghost use Rattle.bt_bib.specs.BibText.{pieces_of};
ghost use Rattle.bt_bib.specs.Items.{items_of};
ghost use Rattle.bt_resolve.specs.inner.Databases.{after_databases, nothing_read, resolved_after};
ghost use Rattle.bt_resolve.specs.inner.Inheritance.{seen_of};
ghost use Rattle.bt_text.specs.NameList.{are_apart};
ghost use Rattle.bt_resolve.specs.References.{list_messages};
ghost use Rattle.bt_resolve.specs.Resolved.{resolved};

use crate::asked::Asked;
use crate::databases::{nothing_read, read_texts};
use crate::declared::{Cites, Declared, Macro};
use crate::entry::Resolved;
use crate::family::Family;
use crate::found::found_in;
use crate::list::listed;
use crate::view::{Seen, View};
use bt_log::Message;
use bt_text::{Bytes, Sequence, Shared};
use std::alloc::{AllocError, Global};

/// The list, once all is read: the entries that the style sees, and the list's messages after the others.
pub fn resolve_list(
    alloc: Global,
    asked: &Asked<'_>,
    min: u32,
    family: &Family,
    messages: &mut Sequence<Message>,
) -> Result<Seen, AllocError>
    requires { IfSome asked.now.star (λ before. before ≤ length asked.now.keys) }
    ensures seen { IfOk result (λ seen. seen ≡ seen_of asked.now min family.now) }
    ensures messages { OnOk result (messages.new ≡ messages.old ++ list_messages asked.now family.now) }
{
    let places = listed(alloc, asked, family)?;
    let view = View {
        alloc,
        asked,
        min,
        family,
    };
    view.tell_list(places.as_slice(), messages)?;
    view.seen_of_list(places)
}

/// Reads the texts of databases, and resolves what is asked of them.
fn resolve_texts(
    alloc: Global,
    asked: &Asked<'_>,
    macros: &[Macro],
    texts: &[Shared<Bytes>],
    min: u32,
) -> Result<Resolved, AllocError>
    requires fields { IsTrue (are_apart asked.now.fields) }
    requires star { IfSome asked.now.star (λ before. before ≤ length asked.now.keys) }
    ensures { IfOk result (λ all. all ≡ resolved_after asked.now min
        (after_databases asked.now 1 (nothing_read macros.now) (map (λ text. items_of (pieces_of text)) texts.now))) }
{
    let mut read = nothing_read(alloc, macros)?;
    read_texts(alloc, asked, texts, &mut read)?;
    let found = found_in(alloc, asked, min, read, Sequence::new(alloc))?;
    Ok(found.all)
}

/// The list of entries that a style sees, the preamble, and all messages, from the texts of the databases in their order.
/// No item is kept: each is dropped before the next is read. An uncited entry to which fewer than `min` entries refer
/// isn't in the list.
pub fn resolve(
    alloc: Global,
    declared: &Declared,
    cites: &Cites,
    texts: &[Shared<Bytes>],
    min: u32,
) -> Result<Resolved, AllocError>
    requires fields { IsTrue (are_apart declared.now.fields) }
    requires star { IfSome cites.now.star (λ before. before ≤ length cites.now.keys) }
    ensures { IfOk result (λ all. all
        ≡ resolved declared.now cites.now (map (λ text. items_of (pieces_of text)) texts.now) min) }
{
    let asked = Asked::for_all(alloc, declared, cites)?;
    resolve_texts(alloc, &asked, declared.macros.as_slice(), texts, min)
}
