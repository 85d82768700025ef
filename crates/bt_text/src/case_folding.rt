//! Texts that match without regard to case.

ghost use Rattle.std.specs.Prelude.{◌≡◌, IfOk, IsTrue, nat_eq};
ghost use Rattle.std.specs.List.{list_all};
ghost use Rattle.std.specs.Char.{to_ascii_lowercase as ascii_lowercase};
ghost use Rattle.bt_text.specs.CaseFolding.{folded, is_same_folded};

use crate::bytes::Bytes;
use std::alloc::{AllocError, Global};

/// A text with small letters for `A` to `Z`.
pub fn to_ascii_lowercase(alloc: Global, text: &[u8]) -> Result<Bytes, AllocError>
    ensures { IfOk result (λ small. small ≡ folded text.now) }
{
    let mut small = Vec::from_slice(alloc, text)?;
    small.as_mut_slice().make_ascii_lowercase();
    Ok(Bytes::from_vec(small))
}

fn has_no_capitals(text: &[u8]) -> bool
    ensures { result ≡ list_all (λ byte. nat_eq (ascii_lowercase byte) byte) text.now }
{
    text.iter().all(|byte| byte.to_ascii_lowercase() == *byte)
}

/// Whether a text has no letter `A` to `Z`, so that it is the same in small letters.
pub fn is_ascii_lowercase(text: &[u8]) -> bool
    ensures { IsTrue result → folded text.now ≡ text.now }
{
    has_no_capitals(text)
}

/// Whether two texts are equal but for the case of `A` to `Z`.
pub fn eq_ignore_ascii_case(text: &[u8], other: &[u8]) -> bool
    ensures { result ≡ is_same_folded text.now other.now }
{
    text.eq_ignore_ascii_case(other)
}
