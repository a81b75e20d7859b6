ghost use Rattle.std.specs.Prelude.{◌≡◌};

use std::alloc::{AllocError, AllocFailed};

/// Why a part of a statement isn't read; the cursor then stands at the token at fault.
#[derive(Debug, Drop)]
pub(crate) enum Stop {
    Unexpected,
    TooDeep,
    TooLong,
    Memory,
}

impl From<AllocError> for Stop {
    ghost use Rattle.strip_parse.specs.declared.stops.Stop.TheVariants as stop;
    ghost use Rattle.std.specs.Prelude.{◌≡◌};

    ghost from_gives = { λ e s. s ≡ stop.Memory };

    fn from(_error: AllocError) -> Stop {
        Stop::Memory
    }
}
