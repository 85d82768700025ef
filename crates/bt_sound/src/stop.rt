//! Why a style isn't followed to its end.

ghost use Rattle.std.specs.Prelude.{◌≡◌};
ghost use Rattle.bt_sound.specs.declared.stop.Stop.TheVariants.{OutOfMemory};

use std::alloc::{AllocError, AllocFailed};

/// Why a style isn't followed to its end.
#[derive(Clone, Copy, Drop)]
pub enum Stop {
    OutOfMemory,
    /// It may complain, or the work or the depth that is allowed isn't enough.
    Refused,
}

impl From<AllocError> for Stop {
    ghost from_gives = { λ _ stop. stop ≡ OutOfMemory };

    fn from(_error: AllocError) -> Stop {
        Stop::OutOfMemory
    }
}

impl<T: Drop> From<AllocFailed<T>> for Stop {
    ghost from_gives = { λ _ stop. stop ≡ OutOfMemory };

    fn from(_error: AllocFailed<T>) -> Stop {
        Stop::OutOfMemory
    }
}
