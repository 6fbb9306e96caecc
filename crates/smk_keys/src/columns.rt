//! Numbers of the rows of one relation.
ghost use Rattle.std.specs.Prelude.{◌<◌, ◌≤◌, [], length, map, pos, slice_range, All, IfOk};
ghost use Rattle.smk_base.specs.{Rels.{column_values, picked}, declared.value.Value.TheVariants.Int};
ghost use Rattle.smk_keys.specs.Numbers.{AreNumbers};

use crate::ints::int_numbers;
use crate::number_pairs::pair_numbers;
use crate::numbers::{Numbers, zeros};
use smk_base::{Kind, Rel};
use std::alloc::{AllocError, Global};

/// Numbers of the keys of the rows from one place up to another: of their values in these columns.
pub(crate) fn row_numbers(
    alloc: Global,
    rel: &Rel,
    cols: &[u32],
    from: u32,
    to: u32,
) -> Result<Numbers, AllocError>
    requires columns { All (λ c. c < length rel.now.kinds) cols.now }
    requires order { from ≤ to }
    requires within { to ≤ length rel.now.rows }
    ensures { IfOk result (λ made. AreNumbers [] (map (picked cols.now) (slice_range rel.now.rows from to)) made.count made.of.items) }
{
    let _rows = rel.len();
    let mut made = zeros(alloc, to - from)?;
    for k in 0..cols.len() {
        let more = column_numbers(alloc, rel, cols[k], from, to)?;
        made = pair_numbers(alloc, rel.seed(), made, more)?;
    }
    Ok(made)
}

// Numbers of the values in a column: the codes of texts, which are numbers already, or those of the ints.
fn column_numbers(
    alloc: Global,
    rel: &Rel,
    c: u32,
    from: u32,
    to: u32,
) -> Result<Numbers, AllocError>
    requires column { c < length rel.now.kinds }
    requires order { from ≤ to }
    requires within { to ≤ length rel.now.rows }
    ensures { IfOk result (λ made. AreNumbers (Int (pos 0)) (column_values c (slice_range rel.now.rows from to)) made.count made.of.items) }
{
    let _rows = rel.len();
    match rel.kind(c) {
        Kind::Text => Ok(Numbers {
            of: Vec::from_slice(alloc, &rel.codes(c)[from as usize..to as usize])?,
            count: rel.dict(c).len(),
        }),
        Kind::Int { .. } => int_numbers(alloc, rel.seed(), rel.ints(c), from, to),
    }
}
