//! Numbers of items in the order in which they come.
ghost use Rattle.std.specs.Prelude.{◌≡◌, ◌≤◌, ◌*◌, [], length, Decides, IfOk};
ghost use Rattle.smk_base.specs.declared.rel.TheConstants.{ROW_LIMIT};
ghost use Rattle.smk_keys.specs.Numbers.{AreNumbers};

use crate::numbers::Numbers;
use indexmap::IndexSet;
use smk_base::Seeded;
use std::alloc::{AllocError, Global};
use std::hash::Hash;

/// Numbers of items in the order in which they come, found by the hashes of a seed.
pub(crate) fn hashed_numbers<T: Copy + Eq + Hash + Drop>(
    alloc: Global,
    seed: u64,
    items: &[T],
) -> Result<Numbers, AllocError>
    requires few { length items.now ≤ 2 * ROW_LIMIT }
    requires same { (a b : T) → Decides (T.eq a b) (a ≡ b) }
    ensures { IfOk result (λ made. (none : T) → AreNumbers none items.now made.count made.of.items) }
{
    let mut seen = IndexSet::with_capacity_and_hasher(alloc, items.len(), Seeded::new(seed))?;
    let made = numbers_in(alloc, items, &mut seen);
    drop(seen);
    made
}

// Puts items into a set without any, and gives their numbers.
fn numbers_in<T: Copy + Eq + Hash + Drop>(
    alloc: Global,
    items: &[T],
    seen: &mut IndexSet<T, Seeded>,
) -> Result<Numbers, AllocError>
    requires few { length items.now ≤ 2 * ROW_LIMIT }
    requires none { seen.old.keys ≡ [] }
    requires same { (a b : T) → Decides (T.eq a b) (a ≡ b) }
    ensures { IfOk result (λ made. (none : T) → AreNumbers none items.now made.count made.of.items) }
{
    let mut of = Vec::with_capacity(alloc, items.len())?;
    for i in 0..items.len() {
        let (number, _) = seen.insert_full(items[i])?;
        of.push_reserved(number as u32);
    }
    let count = seen.len() as u32;
    Ok(Numbers { of, count })
}
