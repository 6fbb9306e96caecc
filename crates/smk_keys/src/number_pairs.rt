//! Numbers of pairs of numbers.
ghost use Rattle.std.specs.{Prelude.{◌≡◌, ◌≤◌, ◌<◌, ◌+◌, ◌*◌, ◌^◌, ℕ, length, All, IfOk, slice_index}, List.zip};
ghost use Rattle.smk_base.specs.declared.rel.TheConstants.{ROW_LIMIT};
ghost use Rattle.smk_keys.specs.Numbers.{AreNumbers};

use crate::hashed::hashed_numbers;
use crate::numbers::{Numbers, table_limit};
use std::alloc::{AllocError, Global};

/// Numbers of the pairs at the same places: the right ones if the left are all the same; else as in a table with a row for each left number if that has few places; else in the order in which they come, found by the hashes of a seed.
pub(crate) fn pair_numbers(
    alloc: Global,
    seed: u64,
    left: Numbers,
    right: Numbers,
) -> Result<Numbers, AllocError>
    requires few { length left.of.items ≤ 2 * ROW_LIMIT }
    requires long { length right.of.items ≡ length left.of.items }
    requires left { All (λ number. number < left.count) left.of.items }
    requires right { All (λ number. number < right.count) right.of.items }
    ensures { IfOk result (λ made. AreNumbers (0, 0) (zip left.of.items right.of.items) made.count made.of.items) }
{
    if left.count <= 1 {
        return Ok(right);
    }
    let places = u64::from(left.count) * u64::from(right.count);
    let limit = table_limit(left.of.len());
    if places < limit {
        let of = table_places(alloc, left.of.as_slice(), right.of.as_slice(), right.count)?;
        return Ok(Numbers {
            of,
            count: places as u32,
        });
    }
    let pairs: Vec<(u32, u32)> = left
        .of
        .iter()
        .zip(right.of.iter())
        .map(|(a, b)| (*a, *b))
        .collect(alloc)?;
    hashed_numbers(alloc, seed, pairs.as_slice())
}

// The places of pairs in a table with this width.
fn table_places(
    alloc: Global,
    lefts: &[u32],
    rights: &[u32],
    width: u32,
) -> Result<Vec<u32>, AllocError>
    requires long { length rights.now ≡ length lefts.now }
    requires fits { (k : ℕ) → k < length lefts.now → slice_index lefts.now k * width + slice_index rights.now k < 2 ^ 32 }
    ensures long { IfOk result (λ places. length places.items ≡ length lefts.now) }
    ensures at { IfOk result (λ places. (k : ℕ) → k < length lefts.now → slice_index places.items k ≡ slice_index lefts.now k * width + slice_index rights.now k) }
{
    (0..lefts.len())
        .map(|i| lefts[i] * width + rights[i])
        .collect(alloc)
}
