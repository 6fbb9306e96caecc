use std::alloc::{AllocError, AllocFailed};

/// Why there is no session: the first view, by its number, and there the first node in post-order that is too big; or memory ran out.
#[derive(Drop, Clone, Copy)]
pub enum StartFault {
    /// The node has too many rows.
    Rows { view: u32, node: u32 },
    /// The node has too many pairs with a table that the view needs lineage to.
    Pairs { view: u32, node: u32, table: u32 },
    NoMemory,
}

impl From<AllocError> for StartFault {
    ghost use Rattle.std.specs.Prelude.{◌≡◌};
    ghost use Rattle.smk_session.specs.declared.start.fault.StartFault.TheVariants as faults;

    ghost from_gives = { λ _ e. e ≡ faults.NoMemory };

    fn from(_error: AllocError) -> StartFault {
        StartFault::NoMemory
    }
}

impl<T: Drop> From<AllocFailed<T>> for StartFault {
    ghost use Rattle.std.specs.Prelude.{◌≡◌};
    ghost use Rattle.smk_session.specs.declared.start.fault.StartFault.TheVariants as faults;

    ghost from_gives = { λ _ e. e ≡ faults.NoMemory };

    fn from(_error: AllocFailed<T>) -> StartFault {
        StartFault::NoMemory
    }
}
