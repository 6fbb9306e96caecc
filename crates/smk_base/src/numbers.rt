//! Lists of numbers: those below a bound, and those at places.

ghost use Rattle.std.specs.Prelude.{◌≡◌, ◌<◌, All, IfOk, length, map, slice_index_or};
ghost use Rattle.smk_base.specs.Places.{upto};

use std::alloc::{AllocError, Global};

/// The numbers below a bound, ascending.
pub fn numbers_below(alloc: Global, bound: u32) -> Result<Vec<u32>, AllocError>
    ensures { IfOk result (λ numbers. numbers.items ≡ upto bound) }
{
    (0..bound).collect(alloc)
}

/// The numbers at these places.
pub fn numbers_at(alloc: Global, numbers: &[u32], places: &[u32]) -> Result<Vec<u32>, AllocError>
    requires { All (λ place. place < length numbers.now) places.now }
    ensures { IfOk result (λ made. made.items ≡ map (λ place. slice_index_or numbers.now place 0) places.now) }
{
    let mut made = Vec::with_capacity(alloc, places.len())?;
    for place in places {
        made.push_reserved(numbers[*place as usize]);
    }
    Ok(made)
}
