//! The order of a split: the rids of lists one after the other, and other lists as places among them.
ghost use Rattle.std.specs.{Prelude.{◌≡◌, ◌≤◌, ◌<◌, length, All, IfOk}, List.concat};
ghost use Rattle.smk_base.specs.{Places.pairs_of, declared.rel.TheConstants.ROW_LIMIT};
ghost use Rattle.smk_rid.specs.declared.map.TheConstants.{PAIR_LIMIT};
ghost use Rattle.smk_skip.specs.Parts.{ranked};

use smk_rid::{RidFault, RidMap};
use std::alloc::{AllocError, Global};

/// For each list of a map the places that its rids have in these lists, one after the other.
pub(crate) fn places_in(alloc: Global, map: &RidMap, lists: &RidMap) -> Result<RidMap, AllocError>
    requires bound { map.now.bound ≡ lists.now.bound }
    requires few { length (concat lists.now.lists) ≤ ROW_LIMIT }
    requires pairs { pairs_of (ranked (concat lists.now.lists) map.now).lists ≤ PAIR_LIMIT }
    ensures { IfOk result (λ made. made ≡ ranked (concat lists.now.lists) map.now) }
{
    let order = in_order(alloc, lists)?;
    // By the lists of each rid, in the order: so each list has its places in order, and none is sorted.
    let marks = map.invert(alloc)?;
    match RidMap::of_rids(order, lists.bound()).compose(alloc, &marks) {
        Ok(made) => made.invert(alloc),
        Err(RidFault::NoMemory) => Err(AllocError),
        Err(RidFault::Pairs) => unreachable!(),
    }
}

// The rids of these lists, one list after the other.
fn in_order(alloc: Global, lists: &RidMap) -> Result<Vec<u32>, AllocError>
    ensures rids { IfOk result (λ made. made.items ≡ concat lists.now.lists) }
    ensures below { IfOk result (λ made. All (λ rid. rid < lists.now.bound) made.items) }
{
    let mut made = Vec::with_capacity(alloc, lists.pairs() as usize)?;
    for i in 0..lists.len() {
        made.extend_from_slice(lists.at(i))?;
    }
    Ok(made)
}
