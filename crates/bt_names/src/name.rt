//! A name, and what is kept of it.
//!
//! A right brace at depth 0 is left out of a name. Hardly any name has one, so only such a name is copied.

ghost use Rattle.std.specs.Prelude.{◌≡◌, IfOk, false};
ghost use Rattle.bt_text.specs.Blocks.{blocks};
ghost use Rattle.bt_names.specs.Cuts.{kept_blocks};

use bt_text::{Bytes, depth_after};
use memchr::memchr;
use std::alloc::{AllocError, Global};
use std::marker::Model;

/// Whether a name with right braces has one at depth 0.
fn has_flat_brace(name: &[u8]) -> bool
    ensures { result ≡ false → blocks name.now ≡ kept_blocks name.now }
{
    let mut depth = 0;
    for byte in name {
        if *byte == b'}' && depth == 0 {
            return true;
        }
        depth = depth_after(depth, *byte);
    }
    false
}

/// Whether a name has a right brace at depth 0.
#[tactic(auto, using(crate::proofs::NameLemmas::unbraced))]
fn has_stray_brace(name: &[u8]) -> bool
    ensures { result ≡ false → blocks name.now ≡ kept_blocks name.now }
{
    match memchr(b'}', name) {
        None => false,
        Some(_) => has_flat_brace(name),
    }
}

fn without_stray_braces(alloc: Global, name: &[u8]) -> Result<Bytes, AllocError>
    ensures { IfOk result (λ kept. blocks kept ≡ kept_blocks name.now) }
{
    let mut kept = Vec::new(alloc);
    let mut depth = 0;
    for byte in name {
        if *byte != b'}' || 0 < depth {
            kept.push(*byte)?;
        }
        depth = depth_after(depth, *byte);
    }
    Ok(Bytes::from_vec(kept))
}

/// A name, with a copy of what is kept of it if that isn't all. Contracts see the name.
#[derive(Drop)]
pub struct Name<'a> {
    bytes: &'a [u8],
    copy: Option<Bytes>,
}

impl<'a> Model for Name<'a> {
    ghost use Rattle.std.specs.Prelude.{◌≡◌, List, ℕ, unwrap_or};
    ghost use Rattle.bt_text.specs.Blocks.{blocks};
    ghost use Rattle.bt_names.specs.Cuts.{kept_blocks};

    ghost Value = { List ℕ };

    ghost view = { λ name. name.bytes.now };

    ghost invariant = { λ name. blocks (unwrap_or name.copy name.bytes.now) ≡ kept_blocks name.bytes.now };
}

impl<'a> Name<'a> {
    ghost use Rattle.std.specs.Prelude.{◌≡◌, IfOk};
    ghost use Rattle.bt_text.specs.Blocks.{blocks};
    ghost use Rattle.bt_names.specs.Cuts.{kept_blocks};

    /// The name of these bytes.
    pub fn new(alloc: Global, bytes: &'a [u8]) -> Result<Name<'a>, AllocError>
        ensures { IfOk result (λ name. name ≡ bytes.now) }
    {
        if has_stray_brace(bytes) {
            let kept = without_stray_braces(alloc, bytes)?;
            Ok(Name {
                bytes,
                copy: Some(kept),
            })
        } else {
            Ok(Name { bytes, copy: None })
        }
    }

    /// The name without the right braces at depth 0.
    pub fn kept(&self) -> &[u8]
        ensures { blocks result.now ≡ kept_blocks self.now }
    {
        match &self.copy {
            Some(copy) => copy.as_slice(),
            None => self.bytes,
        }
    }
}
