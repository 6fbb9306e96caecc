ghost use Rattle.std.specs.Prelude.{◌≡◌};
ghost use Rattle.smk_base.specs.PlanImage.{expr_of};
ghost use Rattle.smk_model.specs.{LineageLaws.selected_table, Growth.{is_chain, is_growing}};

use smk_base::{Op1, Plan};

/// Whether a plan is a growing chain: a scan, then selections and projections, then at most one grouping.
pub fn is_growing(plan: &Plan) -> bool
    ensures { result ≡ is_growing (expr_of plan.now) }
{
    match plan {
        Plan::Scan(_) => true,
        Plan::One(op, input) => match op {
            Op1::Select(_) => is_chain(input),
            Op1::Project(_) => is_chain(input),
            Op1::Distinct(_) => false,
            Op1::Group(_, _) => is_chain(input),
        },
        Plan::Two(_, _, _) => false,
    }
}

// Whether a plan is a scan, then selections and projections.
fn is_chain(plan: &Plan) -> bool
    ensures { result ≡ is_chain (expr_of plan.now) }
{
    match plan {
        Plan::Scan(_) => true,
        Plan::One(op, input) => match op {
            Op1::Select(_) => is_chain(input),
            Op1::Project(_) => is_chain(input),
            Op1::Distinct(_) => false,
            Op1::Group(_, _) => false,
        },
        Plan::Two(_, _, _) => false,
    }
}

/// The table that a growing chain scans.
pub fn scanned_table(plan: &Plan) -> u32
    ensures { result ≡ selected_table (expr_of plan.now) }
{
    match plan {
        Plan::Scan(table) => *table,
        Plan::One(_, input) => scanned_table(input),
        Plan::Two(_, left, _) => scanned_table(left),
    }
}
