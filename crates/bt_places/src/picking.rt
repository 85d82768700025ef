//! Goes over the mentions of a file for a list of values.

ghost use Rattle.std.specs.Prelude.{◌≡◌, ◌<◌, ◌*◌, ◌^◌, length, map, IfOk};
ghost use Rattle.std.specs.List.{fold};
ghost use Rattle.serde_json.specs.View.{view};
ghost use Rattle.bt_places.specs.Picking.{with_picked};

use crate::mentioning::mentions_of;
use crate::shapes::SHOWN_BYTES;
use bt_mentions::Mention;
use bt_positions::IndexedText;
use serde_json::Value;
use std::alloc::{AllocError, Global};

/// The text of the file at a URI.
#[derive(Clone, Copy)]
pub struct NamedText<'a> {
    pub uri: &'a [u8],
    pub text: &'a IndexedText,
}

/// What adds values to a list for each mention of a file.
pub trait Pick {
    ghost use Rattle.std.specs.Prelude.{◌≡◌, ◌<◌, ◌*◌, ◌^◌, ℕ, List, length, map, IfOk};
    ghost use Rattle.serde_json.specs.Data.{Data};
    ghost use Rattle.serde_json.specs.View.{view};
    ghost use Rattle.bt_mentions.specs.declared.mention.Mention.{Mention};

    /// A list with what is added for a mention in the text of the file at a URI.
    ghost picked: { Self → List ℕ → List ℕ → List Data → Mention → List Data };

    fn pick(
        &self,
        alloc: Global,
        file: &NamedText<'_>,
        list: Vec<Value>,
        one: Mention,
    ) -> Result<Vec<Value>, AllocError>
        requires { 2 * length file.now.text.now < 2 ^ 64 }
        ensures { IfOk result (λ all. map view all.items ≡
            picked self.now file.now.uri.now file.now.text.now (map view list.items) one) };
}

fn with_all<K: Pick>(
    alloc: Global,
    picker: &K,
    file: &NamedText<'_>,
    list: Vec<Value>,
    found: &[Mention],
) -> Result<Vec<Value>, AllocError>
    requires { 2 * length file.now.text.now < 2 ^ 64 }
    ensures { IfOk result (λ all. map view all.items ≡
        fold (K.picked picker.now file.now.uri.now file.now.text.now) (map view list.items) found.now) }
{
    let mut all = list;
    'found: for one in found {
        all = picker.pick(alloc, file, all, *one)?;
    }
    Ok(all)
}

/// Adds the values for each mention of a file, if the file has at most 1 GiB.
pub fn with_picked<K: Pick>(
    alloc: Global,
    picker: &K,
    list: Vec<Value>,
    uri: &[u8],
    text: &[u8],
) -> Result<Vec<Value>, AllocError>
    ensures { IfOk result (λ all. map view all.items ≡
        with_picked (K.picked picker.now) (map view list.items) uri.now text.now) }
{
    if text.len() > SHOWN_BYTES {
        return Ok(list);
    }
    let found = mentions_of(alloc, uri, text)?;
    let indexed = IndexedText::copied(alloc, text)?;
    let file = NamedText {
        uri,
        text: &indexed,
    };
    with_all(alloc, picker, &file, list, found.as_slice())
}
