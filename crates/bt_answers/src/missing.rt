//! Citations whose keys no database has.

ghost use Rattle.std.specs.Prelude.{◌≡◌, IfOk};
ghost use Rattle.bt_answers.specs.Hints.{is_argument, is_missing, is_missing_at};

use bt_mentions::{Mention, part};
use bt_places::is_commented;
use bt_text::NameList;
use std::alloc::{AllocError, Global};

/// Whether a cited name begins with a `#`, as the argument of a macro does.
fn is_argument(name: &[u8]) -> bool
    ensures { result ≡ is_argument name.now }
{
    match name {
        [first, ..] => *first == b'#',
        [] => false,
    }
}

fn is_missing(alloc: Global, known: &NameList, name: &[u8]) -> Result<bool, AllocError>
    ensures { IfOk result (λ missing. missing ≡ is_missing known.now name.now) }
{
    if name == b"*".as_slice() || is_argument(name) {
        return Ok(false);
    }
    let is_known = known.has(alloc, name)?;
    Ok(!is_known)
}

/// Whether a citation in a text names no entry, and isn't in a comment.
pub fn is_missing_at(
    alloc: Global,
    known: &NameList,
    text: &[u8],
    one: Mention,
) -> Result<bool, AllocError>
    ensures { IfOk result (λ missing. missing ≡ is_missing_at known.now text.now one) }
{
    if is_commented(text, one.from) {
        return Ok(false);
    }
    is_missing(alloc, known, part(text, one.from, one.to))
}
