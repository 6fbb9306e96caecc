// Views, evaluated again from what is fetched for them.
ghost use Rattle.std.specs.Prelude.{◌≡◌, IfOk, IfSome};
ghost use Rattle.smk_base.specs.PlanImage.{expr_of};
ghost use Rattle.smk_marks.specs.Views.{CanGroup};
ghost use Rattle.smk_session.specs.Refreshed.{CanRun, IsReady, IsRun, IsMade, read_by_marks};

use crate::start::workers::Workers;
use smk_base::{Plan, Rel, Rids};
use smk_compose::{EvalFault, Leaves, eval_leaves};
use smk_jobs::Work;
use smk_marks::{KeptView, Reached, content_by_marks};
use smk_outside::Gate;
use smk_par::Pieces;
use smk_plain::Plain;
use std::alloc::{AllocError, Global};
use std::thread::Threads;

// What a view is made from.
#[derive(Drop)]
pub(crate) enum Source<'a> {
    // Its plan, and the rows of the plan's leaves.
    Leaves {
        plan: &'a Plan,
        leaves: Leaves,
    },
    // What is kept of it, and what the rows selected for it reach there, where a brush concerns it.
    Marks {
        view: KeptView<'a>,
        reached: Option<Reached>,
    },
}

// A view for which all is fetched that it is made from: its place among the linked ones, its number, these things, and its marks that the selected rows reach.
#[derive(Drop)]
pub(crate) struct Fetched<'a> {
    pub(crate) place: u32,
    pub(crate) view: u32,
    pub(crate) source: Source<'a>,
    pub(crate) marks: Rids,
}

// The rows of a view, by steps that are cut into pieces where there are several workers.
pub(crate) fn evaluate<R: Threads + Sync, G: Gate + Sync>(
    work: &Work<'_, R, Workers<'_, G>>,
    source: Source<'_>,
) -> Result<Rel, EvalFault>
    requires { IsReady source }
    ensures { IsMade source.entry result }
{
    match source {
        Source::Leaves { plan, leaves } => run_leaves(work, plan, leaves),
        Source::Marks { view, reached } => Ok(read_marks(work.alloc, &view, &reached)?),
    }
}

// The rows that a plan gives of its leaves, each step cut into pieces where there are several workers.
#[tactic(auto, using(crate::proofs::Refreshing::evaluated))]
fn run_leaves<R: Threads + Sync, G: Gate + Sync>(
    work: &Work<'_, R, Workers<'_, G>>,
    plan: &Plan,
    leaves: Leaves,
) -> Result<Rel, EvalFault>
    requires { CanRun (expr_of plan.now) leaves }
    ensures { IsRun (expr_of plan.now) leaves result }
{
    if work.crew.workers == 1 {
        eval_leaves(work.rt, work.alloc, &Plain, plan, leaves)
    } else {
        let body = Pieces::new(Plain, work.crew.gate, work.crew.workers);
        eval_leaves(work.rt, work.alloc, &body, plan, leaves)
    }
}

// The rows of a view by what is kept of it: the groups of what is reached there, or its first content where no brush concerns it.
fn read_marks(
    alloc: Global,
    view: &KeptView<'_>,
    reached: &Option<Reached>,
) -> Result<Rel, AllocError>
    requires { IfSome reached.now (CanGroup view.now) }
    ensures { IfOk result (λ rel. rel ≡ read_by_marks view.now reached.now) }
{
    match reached {
        Some(reached) => content_by_marks(alloc, view, reached),
        None => view.content.copy(alloc),
    }
}
