//! Selections: the places of the rows that meet a predicate.

ghost use Rattle.std.specs.Prelude.{◌≡◌, ◌<◌, ◌+◌, IfOk, length};
ghost use Rattle.smk_base.specs.PlanImage.{formula_of};
ghost use Rattle.smk_model.specs.{Kinds.FormulaFits, Lineage.meeting};
ghost use Rattle.smk_jobs.specs.Cuts.{AreParts, cut_at};
ghost use Rattle.smk_body.specs.Cuts.{HasPlaces};

use crate::find::passing::selected_places;
use crate::find::stretches::in_stretches;
use smk_base::{Pred, Rel};
use smk_jobs::{Crew, Work};
use std::alloc::{AllocError, Global};
use std::marker::Sync;
use std::thread::Threads;

/// The places of the rows that meet a predicate, found by the crew: alone, or in threads.
pub(crate) fn found_places<R: Threads + Sync, C: Crew + Sync>(
    work: &Work<'_, R, C>,
    rel: &Rel,
    pred: &Pred,
) -> Result<Vec<u32>, AllocError>
    requires { FormulaFits rel.now.kinds (formula_of pred.now) }
    ensures { IfOk result (λ places. places.items ≡ meeting (formula_of pred.now) rel.now.rows) }
{
    let rows = rel.len();
    let workers = work.crew.parts();
    if workers == 1 {
        work.crew.arrive(0);
        return selected_places(work.alloc, rel, pred, 0, rows);
    }
    let parts = in_stretches(
        work,
        workers,
        rows,
        true,
        &|_, from, to| selected_places(work.alloc, rel, pred, from, to),
    )?;
    one_behind_other(work.alloc, rel, pred, workers, parts.as_slice())
}

// The places of all parts, from those of each.
fn one_behind_other(
    alloc: Global,
    rel: &Rel,
    pred: &Pred,
    workers: u32,
    made: &[Vec<u32>],
) -> Result<Vec<u32>, AllocError>
    requires some { 0 < workers }
    requires made { AreParts (λ p v. HasPlaces (formula_of pred.now) rel.now.rows (cut_at workers (length rel.now.rows) p) (cut_at workers (length rel.now.rows) (p + 1)) v.items) workers made.now }
    ensures { IfOk result (λ places. places.items ≡ meeting (formula_of pred.now) rel.now.rows) }
{
    let mut places = Vec::new(alloc);
    for p in 0..made.len() {
        places.extend_from_slice(made[p].as_slice())?;
    }
    Ok(places)
}
