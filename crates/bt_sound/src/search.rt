//! The search for a field or variable by which states are to stay apart.
//!
//! It needs no proof: a style is accepted if it is with some of them, and only then.

ghost use Rattle.std.specs.Prelude.{IfOk, IsTrue};
ghost use Rattle.bt_style.specs.Program.{program_of};
ghost use Rattle.bt_sound.specs.Sound.{Promises};

use crate::following::Follower;
use crate::globals::Globals;
use bt_style::{Style, Target};
use std::alloc::{AllocError, Global};

/// What may keep states apart: each field, then each variable.
fn candidates(alloc: Global, style: &Style) -> Result<Vec<Target>, AllocError> {
    let mut names = Vec::new(alloc);
    for place in 0..style.fields.len() {
        names.push(Target::Field(place))?;
    }
    for place in 0..style.global_numbers.len() {
        names.push(Target::GlobalNumber(place))?;
    }
    for place in 0..style.global_texts.len() {
        names.push(Target::GlobalText(place))?;
    }
    for place in 0..style.entry_numbers.len() {
        names.push(Target::EntryNumber(place))?;
    }
    for place in 0..style.entry_texts.len() {
        names.push(Target::EntryText(place))?;
    }
    Ok(names)
}

impl Follower<'_> {
    /// Whether the style is accepted with one of these names, by which states stay apart.
    fn accepts_with_one(&self, names: &[Target], work: &mut u64) -> Result<bool, AllocError>
        ensures { IfOk result (λ yes. IsTrue yes → Promises (program_of self.now.style.now) self.now.types.now) }
    {
        for name in names {
            let follower = Follower {
                alloc: self.alloc,
                style: self.style,
                types: self.types,
                apart: &[*name],
                globals: self.globals,
            };
            if follower.accepts(work)? {
                return Ok(true);
            }
        }
        Ok(false)
    }
}

/// Whether a style is sound: no run of it gives an excluded message before an overflow, if each entry's type is one of
/// these functions, or none. If not, nothing is known. All tries together take at most so much work.
///
/// Most styles that are sound need no search. Some need to know what an earlier step left in a global variable. Some keep
/// in a variable whether a field was there; they are accepted if the states in which it was stay apart from the others.
pub fn is_sound(
    alloc: Global,
    style: &Style,
    types: &[usize],
    mut work: u64,
) -> Result<bool, AllocError>
    ensures { IfOk result (λ yes. IsTrue yes → Promises (program_of style.now) types.now) }
{
    let forgetful = Follower {
        alloc,
        style,
        types,
        apart: &[],
        globals: Globals::Forgotten,
    };
    if forgetful.accepts(&mut work)? {
        return Ok(true);
    }
    let tracking = Follower {
        alloc,
        style,
        types,
        apart: &[],
        globals: Globals::Tracked,
    };
    if tracking.accepts(&mut work)? {
        return Ok(true);
    }
    let names = candidates(alloc, style)?;
    if forgetful.accepts_with_one(names.as_slice(), &mut work)? {
        return Ok(true);
    }
    tracking.accepts_with_one(names.as_slice(), &mut work)
}
