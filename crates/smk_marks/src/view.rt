ghost use Rattle.std.specs.Prelude.{◌≡◌, false, IfNone, IfSome};
ghost use Rattle.smk_base.specs.PlanImage.{expr_of};
ghost use Rattle.smk_marks.specs.Views.{EndsInGroups, ends_in_groups};

use crate::growing::is_growing;
use smk_base::{Aggs, Keys, Op1, Plan, Rel};
use smk_rid::RidMap;

/// A grouping, and the chain of selections and projections over a scan that is its input.
#[derive(Clone, Copy)]
pub struct GroupedChain<'a> {
    pub chain: &'a Plan,
    pub keys: &'a Keys,
    pub aggs: &'a Aggs,
}

/// Such a plan, and what is kept of it: the rows that it gives over the whole table, and the forward lineage from the table to them.
#[derive(Clone, Copy)]
pub struct KeptView<'a> {
    pub plan: GroupedChain<'a>,
    pub content: &'a Rel,
    pub forward: &'a RidMap,
}

/// The grouping in which a plan ends and its input, exactly if that is a chain.
pub fn grouped_chain(plan: &Plan) -> Option<GroupedChain<'_>>
    ensures ends { IfSome result (EndsInGroups (expr_of plan.now)) }
    ensures none { IfNone result (ends_in_groups (expr_of plan.now) ≡ false) }
{
    let grows = is_growing(plan);
    match plan {
        Plan::One(Op1::Group(keys, aggs), chain) if grows => {
            Some(GroupedChain { chain, keys, aggs })
        }
        _ => None,
    }
}
