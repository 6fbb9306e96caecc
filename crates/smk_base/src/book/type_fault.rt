use std::alloc::{AllocError, AllocFailed};

/// Why a book has no catalog, with the place in bytes of the word or literal that is wrong.
#[derive(Drop, Clone, Copy)]
pub enum TypeFault {
    /// No table before has this name.
    UnknownTable { at: u64 },
    /// No column here has this name.
    UnknownColumn { at: u64 },
    /// No view before has this name.
    UnknownView { at: u64 },
    /// The name is taken.
    DuplicateName { at: u64 },
    /// An int where a text is needed, or the other way round.
    KindMismatch { at: u64 },
    /// The sum of a column that is a sum of sums of sums already.
    SumTooDeep { at: u64 },
    /// The inputs of a union differ in the number of columns or in their kinds.
    UnionShape { at: u64 },
    /// A grouping without keys and aggregates.
    EmptyList { at: u64 },
    /// A view that is linked to itself.
    SelfLink { at: u64 },
    /// This query was declared before.
    RepeatedDeclaration { at: u64 },
    /// More than 16 columns.
    RowTooWide { at: u64 },
    NoMemory,
}

impl From<AllocError> for TypeFault {
    ghost use Rattle.std.specs.Prelude.{◌≡◌};
    ghost use Rattle.smk_base.specs.declared.book.type_fault.TypeFault.TheVariants as faults;

    ghost from_gives = { λ _ fault. fault ≡ faults.NoMemory };

    fn from(_wanted: AllocError) -> TypeFault {
        TypeFault::NoMemory
    }
}

impl<T: Drop> From<AllocFailed<T>> for TypeFault {
    ghost use Rattle.std.specs.Prelude.{◌≡◌};
    ghost use Rattle.smk_base.specs.declared.book.type_fault.TypeFault.TheVariants as faults;

    ghost from_gives = { λ _ fault. fault ≡ faults.NoMemory };

    fn from(_wanted: AllocFailed<T>) -> TypeFault {
        TypeFault::NoMemory
    }
}
