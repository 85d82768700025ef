//! Why a name has no parts, or was not formatted.

ghost use Rattle.std.specs.Prelude.{◌≡◌};

use std::alloc::AllocError;
use thiserror::Error;

/// Why a name has no parts. The first that holds is reported.
#[derive(Clone, Copy, PartialEq, Eq, Debug, Error)]
#[error("{:?}", self)]
pub enum NameFault {
    /// The text doesn't list so many names, or the number is 0 or less.
    NoSuchName,
    /// The name has more than two commas outside of braces.
    TooManyCommas,
    /// There is no memory left.
    OutOfMemory,
}

/// Why a name was not formatted. The first that holds is reported.
#[derive(Clone, Copy, PartialEq, Eq, Debug, Error)]
pub enum FormatFault {
    /// The text doesn't list so many names, or the number is 0 or less.
    #[error("NoSuchName")]
    NoSuchName,
    /// The name has more than two commas outside of braces.
    #[error("TooManyCommas")]
    TooManyCommas,
    /// The pattern has a fault, the first from the left at this place, counted from 0.
    #[error("PatternFault")]
    PatternFault(usize),
    /// There is no memory left.
    #[error("OutOfMemory")]
    OutOfMemory,
}

impl From<AllocError> for NameFault {
    ghost use Rattle.bt_names.specs.declared.faults.NameFault.TheVariants.{OutOfMemory};

    ghost from_gives = { λ _ e. e ≡ OutOfMemory };

    fn from(_error: AllocError) -> NameFault {
        NameFault::OutOfMemory
    }
}

impl From<AllocError> for FormatFault {
    ghost use Rattle.bt_names.specs.declared.faults.FormatFault.TheVariants.{OutOfMemory};

    ghost from_gives = { λ _ e. e ≡ OutOfMemory };

    fn from(_error: AllocError) -> FormatFault {
        FormatFault::OutOfMemory
    }
}
