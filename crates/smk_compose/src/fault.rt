ghost use Rattle.std.specs.Prelude.{◌≡◌};

use std::alloc::AllocError;
use thiserror::Error;

/// Why a plan has no rows.
#[derive(Debug, Drop, Clone, Copy, Error)]
pub enum EvalFault {
    /// The node with this number, the first in post-order, has more than 1,048,576 rows.
    #[error("too many rows at a node")]
    Rows { node: u32 },
    #[error("no memory")]
    NoMemory,
}

impl From<AllocError> for EvalFault {
    ghost use Rattle.smk_compose.specs.declared.fault.EvalFault.TheVariants.{NoMemory};

    ghost from_gives = { λ e f. f ≡ NoMemory };

    fn from(_e: AllocError) -> EvalFault {
        EvalFault::NoMemory
    }
}

/// Why a plan wasn't run.
#[derive(Drop, Clone, Copy)]
pub enum RunFault {
    /// The node with this number has more than 1,048,576 rows.
    Rows { node: u32 },
    /// The node has more than 16,777,216 pairs of a row and a rid of this needed table.
    Pairs { node: u32, table: u32 },
    NoMemory,
}

impl From<AllocError> for RunFault {
    ghost use Rattle.smk_compose.specs.declared.fault.RunFault.TheVariants.{NoMemory};

    ghost from_gives = { λ e f. f ≡ NoMemory };

    fn from(_e: AllocError) -> RunFault {
        RunFault::NoMemory
    }
}
