//! The wording of warnings about items.

ghost use Rattle.std.specs.Prelude.{◌≡◌, ◌++◌, Some, None, IfOk};
ghost use Rattle.bt_text.specs.CaseFolding.{folded};
ghost use Rattle.bt_resolve.specs.Warnings.{extra_field, no_function, own_macro, too_long, undefined_macro, warning_at};

use bt_log::{Message, Place, Rank, Said};
use bt_text::{Bytes, Shared, to_ascii_lowercase};
use std::alloc::{AllocError, Global};

fn warning_at(place: Place, words: Shared<Bytes>, entry: Option<Shared<Bytes>>) -> Message
    ensures { result ≡ warning_at place words entry }
{
    Message {
        rank: Rank::Warning,
        said: Said::Words(words),
        entry,
        place: Some(place),
        second: None,
    }
}

/// A warning with these words around a name in lower case.
fn naming(
    alloc: Global,
    place: Place,
    before: &[u8],
    name: &[u8],
    after: &[u8],
) -> Result<Message, AllocError>
    ensures { IfOk result (λ message. message
        ≡ warning_at place (before.now ++ folded name.now ++ after.now) None) }
{
    let name = to_ascii_lowercase(alloc, name)?;
    let words = Shared::<Bytes>::of(alloc, &[before, name.as_slice(), after])?;
    Ok(warning_at(place, words, None))
}

/// The warning that a macro isn't defined.
pub fn undefined_macro(alloc: Global, place: Place, name: &[u8]) -> Result<Message, AllocError>
    ensures { IfOk result (λ message. message ≡ undefined_macro place name.now) }
{
    naming(
        alloc,
        place,
        b"Warning--string name \"",
        name,
        b"\" is undefined",
    )
}

/// The warning that a macro is used in its own definition.
pub fn own_macro(alloc: Global, place: Place, name: &[u8]) -> Result<Message, AllocError>
    ensures { IfOk result (λ message. message ≡ own_macro place name.now) }
{
    let after = b"\" is used in its own definition";
    naming(alloc, place, b"Warning--string name \"", name, after)
}

/// The warning that a value exceeds the limit.
pub fn too_long(alloc: Global, place: Place, name: &[u8]) -> Result<Message, AllocError>
    ensures { IfOk result (λ message. message ≡ too_long place name.now) }
{
    let after = b"\" is over 65536 bytes";
    naming(alloc, place, b"Warning--the value of \"", name, after)
}

fn about(
    alloc: Global,
    place: Place,
    key: &[u8],
    words: Shared<Bytes>,
) -> Result<Message, AllocError>
    ensures { IfOk result (λ message. message ≡ warning_at place words (Some key.now)) }
{
    let entry = Shared::<Bytes>::copied(alloc, key)?;
    Ok(warning_at(place, words, Some(entry)))
}

/// The warning that the entry of a key has a second field of this name.
pub fn extra_field(
    alloc: Global,
    place: Place,
    key: &[u8],
    name: &[u8],
) -> Result<Message, AllocError>
    ensures { IfOk result (λ message. message ≡ extra_field place key.now name.now) }
{
    let name = to_ascii_lowercase(alloc, name)?;
    let name = name.as_slice();
    let words = Shared::<Bytes>::of(
        alloc,
        &[
            b"Warning--I'm ignoring ",
            key,
            b"'s extra \"",
            name,
            b"\" field",
        ],
    )?;
    about(alloc, place, key, words)
}

/// The warning that the entry of a key has a type without a function.
pub fn no_function(alloc: Global, place: Place, key: &[u8]) -> Result<Message, AllocError>
    ensures { IfOk result (λ message. message ≡ no_function place key.now) }
{
    let words = Shared::<Bytes>::of(
        alloc,
        &[
            b"Warning--entry type for \"",
            key,
            b"\" isn't style-file defined",
        ],
    )?;
    about(alloc, place, key, words)
}
