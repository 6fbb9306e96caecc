ghost use Rattle.std.specs.Prelude.{◌≡◌};
ghost use Rattle.smk_rid.specs.declared.fault.RidFault.TheVariants.{NoMemory};

use std::alloc::AllocError;
use thiserror::Error;

/// Why a rid map wasn't made.
#[derive(Debug, Drop, Clone, Copy, Error)]
pub enum RidFault {
    /// It would have more than 16,777,216 pairs.
    #[error("too many pairs")]
    Pairs,
    #[error("no memory")]
    NoMemory,
}

impl From<AllocError> for RidFault {
    ghost from_gives = { λ e f. f ≡ NoMemory };

    fn from(_: AllocError) -> Self {
        RidFault::NoMemory
    }
}
