//! The files of a job that have been found: their names in the texts, and their URIs.

ghost use Rattle.std.specs.Prelude.{◌≡◌, ℕ, List, Some, option_map, OnErr};
ghost use Rattle.bt_paper.specs.Known.{name_at, uri_named, name_of};

use bt_text::{Bytes, Sequence};
use std::alloc::AllocError;

/// A file of the job.
#[derive(Drop)]
pub struct Known {
    /// Its name in the texts.
    pub name: Bytes,
    /// Its URI as the editor spells it.
    pub uri: Bytes,
    pub path: String,
}

fn name_at<'a>(known: &'a [Known], uri: &[u8]) -> Option<&'a [u8]>
    ensures { option_map (λ n. n.now) result ≡ name_at uri.now known.now }
{
    'known: for one in known {
        if one.uri.as_slice() == uri {
            return Some(one.name.as_slice());
        }
    }
    None
}

/// The URI of the first file of a name.
pub fn uri_named<'a>(known: &'a [Known], name: &[u8]) -> Option<&'a [u8]>
    ensures { option_map (λ u. u.now) result ≡ uri_named name.now known.now }
{
    'known: for one in known {
        if one.name.as_slice() == name {
            return Some(one.uri.as_slice());
        }
    }
    None
}

/// The name that the texts have for the file at a URI: that of the first file of the URI, if it is the first one of its
/// name. So no two URIs have one name.
pub fn name_of<'a>(known: &'a [Known], uri: &[u8]) -> Option<&'a [u8]>
    ensures { option_map (λ n. n.now) result ≡ name_of known.now uri.now }
{
    let name = name_at(known, uri)?;
    let own = uri_named(known, name)?;
    if own == uri { Some(name) } else { None }
}

/// Adds a file after the others, unless one of its name is known.
pub fn note(known: &mut Sequence<Known>, one: Known) -> Result<(), AllocError>
    ensures keeps { (uri name : List ℕ) → name_of known.old uri ≡ Some name → name_of known.new uri ≡ Some name }
    ensures err { OnErr result (known.new ≡ known.old) }
{
    if uri_named(known.as_slice(), one.name.as_slice()).is_some() {
        return Ok(());
    }
    known.push(one)?;
    Ok(())
}
