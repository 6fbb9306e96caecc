ghost use Rattle.std.specs.Prelude.{◌≡◌};

use std::alloc::AllocError;
use thiserror::Error;

/// Why a step with two inputs has no rows.
#[derive(Debug, Drop, Clone, Copy, Error)]
pub enum OpFault {
    /// It has more than 1,048,576 rows.
    #[error("too many rows")]
    Rows,
    #[error("no memory")]
    NoMemory,
}

impl From<AllocError> for OpFault {
    ghost use Rattle.smk_body.specs.declared.fault.OpFault.TheVariants.{NoMemory};

    ghost from_gives = { λ e f. f ≡ NoMemory };

    fn from(_e: AllocError) -> OpFault {
        OpFault::NoMemory
    }
}
