ghost use Rattle.smk_base.specs.PlanImage.{expr_of};
ghost use Rattle.smk_chain.specs.Chains.{EndsIn};

use smk_base::{Aggs, Keys, Op1, Plan};

/// A last grouping.
#[derive(Clone, Copy)]
pub(crate) struct LastGrouping<'a> {
    pub keys: &'a Keys,
    pub aggs: &'a Aggs,
}

/// The grouping in which a plan ends.
pub(crate) fn grouping_of(plan: &Plan) -> Option<LastGrouping<'_>>
    ensures { EndsIn (expr_of plan.now) result }
{
    match plan {
        Plan::Scan(_) => None,
        Plan::One(op, _) => match op {
            Op1::Select(_) => None,
            Op1::Project(_) => None,
            Op1::Distinct(_) => None,
            Op1::Group(keys, aggs) => Some(LastGrouping { keys, aggs }),
        },
        Plan::Two(_, _, _) => None,
    }
}
