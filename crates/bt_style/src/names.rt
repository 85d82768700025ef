//! The lists that a command fills, and a hashed table of the built-in functions.

ghost use Rattle.std.specs.Prelude.{◌≡◌, map, ℕ, List, Some, IfOk, OnOk, bytes_eq, if◌then◌else◌};
ghost use Rattle.std.specs.Option.{option_map};
ghost use Rattle.bt_text.specs.ByName.{at_small};
ghost use Rattle.bt_style.specs.Builtins.{name_of};
ghost use Rattle.bt_style.specs.Names.{builtin_named};
ghost use Rattle.bt_style.specs.inner.Names.{Holds, builtin_among};

use crate::builtin::Builtin;
use crate::style::Target;
use bt_text::ByName;
use std::alloc::{AllocError, Global};

/// A list of names that a command fills.
#[derive(Clone, Copy, PartialEq, Eq)]
pub enum Names {
    Fields,
    EntryNumbers,
    EntryTexts,
    GlobalNumbers,
    GlobalTexts,
}

fn put_builtin(
    alloc: Global,
    targets: &mut ByName<Target>,
    builtin: Builtin,
) -> Result<(), AllocError>
    ensures { OnOk result ((name : List ℕ) →
        at_small targets.new name ≡ (if bytes_eq (name_of builtin) name then Some (Target.Builtin builtin)
        else at_small targets.old name)) }
{
    let name = Vec::from_slice(alloc, builtin.name())?;
    targets.make_room()?;
    targets.put(name, Target::Builtin(builtin));
    Ok(())
}

fn put_builtins(alloc: Global, builtins: &[Builtin]) -> Result<ByName<Target>, AllocError>
    ensures { IfOk result (λ targets. Holds targets
        (λ name. option_map Target.Builtin (builtin_among builtins.now name))) }
{
    let mut targets = ByName::new(alloc);
    // From the last to the first, as the definition's look-up gives the first of a name.
    let mut left = builtins.len();
    'builtins: while 0 < left {
        left -= 1;
        let builtin = builtins[left];
        put_builtin(alloc, &mut targets, builtin)?;
    }
    Ok(targets)
}

/// The built-in functions by their names.
pub fn builtins(alloc: Global) -> Result<ByName<Target>, AllocError>
    ensures { IfOk result (λ targets. Holds targets (λ name. option_map Target.Builtin (builtin_named name))) }
{
    put_builtins(alloc, Builtin::ALL.as_slice())
}
