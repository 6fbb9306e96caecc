//! The lineage of a step, from the ways in which its rows and those of its sides belong together.

ghost use Rattle.std.specs.Prelude.{◌≡◌, IfOk, IsTrue, List};
ghost use Rattle.smk_base.specs.{Places.Lists, Plans.{Binary, Unary}, declared.book.plan.Dir.Dir};
ghost use Rattle.smk_model.specs.Values.{Row};
ghost use Rattle.smk_model.specs.Ways as ways;
ghost use Rattle.smk_body.specs.Locals.{is_nothing, local1, local2, side_of};

pub(crate) mod lists;
pub(crate) mod local;
pub(crate) mod way;

use crate::keep::local::{Local, Side, Want};
use crate::keep::way::Way;
use smk_base::Dir;
use std::alloc::{AllocError, Global};

/// The wanted lineage of a step with one input, from its way.
#[tactic(auto, using(crate::proofs::Standing::lineage1))]
pub fn lineage1(alloc: Global, way: Way, want: Dir) -> Result<Local, AllocError>
    ensures { IfOk result (λ local. (op : Unary) (L : List Row) → way ≡ ways.way op L → local ≡ local1 op L want) }
{
    Ok(Local::of_one(way.into_side(alloc, want)?))
}

/// The wanted lineage of a step with two inputs, from its ways.
#[tactic(auto, using(crate::proofs::Standing::lineage2))]
pub fn lineage2(alloc: Global, left: Way, right: Way, want: Want) -> Result<Local, AllocError>
    ensures { IfOk result (λ local. (op : Binary) (L R : List Row) → left ≡ ways.left_way op L R → right ≡ ways.right_way op L R → local ≡ local2 op L R want) }
{
    let left = left.into_side(alloc, want.left)?;
    let right = right.into_side(alloc, want.right)?;
    Ok(Local::of_both(left, right))
}

/// A side of which no list is wanted.
pub fn no_side() -> Side
    ensures { (want : Dir) (back fwd : Lists) → IsTrue (is_nothing want) → result ≡ side_of want back fwd }
{
    Side {
        back: None,
        fwd: None,
    }
}
