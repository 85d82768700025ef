//! Why a reader returns no value.

ghost use Rattle.std.specs.Prelude.{◌≡◌};
ghost use Rattle.bt_bib.specs.declared.stop.ReadStop.TheVariants.{OutOfMemory};

use crate::fault::ItemFault;
use crate::spot::Spot;
use std::alloc::{AllocError, AllocFailed};

#[derive(Drop)]
pub enum ReadStop {
    OutOfMemory,
    Stopped(ItemFault, Spot),
}

impl From<AllocError> for ReadStop {
    ghost from_gives = { λ _ halt. halt ≡ OutOfMemory };

    fn from(_error: AllocError) -> ReadStop {
        ReadStop::OutOfMemory
    }
}

impl<T: Drop> From<AllocFailed<T>> for ReadStop {
    ghost from_gives = { λ _ halt. halt ≡ OutOfMemory };

    fn from(_error: AllocFailed<T>) -> ReadStop {
        ReadStop::OutOfMemory
    }
}
