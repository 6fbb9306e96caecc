//! The stretches of the rows that the parts of a step go over.

ghost use Rattle.std.specs.Prelude.{◌<◌, ◌≤◌, ◌+◌, ℕ, Ok, IfOk};
ghost use Rattle.smk_base.specs.{declared.rel.TheConstants.ROW_LIMIT, declared.workers.TheConstants.WORKER_LIMIT};
ghost use Rattle.smk_jobs.specs.Cuts.{AreParts, cut_at};

use smk_jobs::{Crew, Work, cut_range, in_parts};
use std::alloc::AllocError;
use std::marker::{Send, Sync};
use std::thread::Threads;

/// What each part makes of its rows, all at once. It is told its number, and from which row up to which it goes. Where the step begins with this, the crew is told as each part begins.
pub(crate) fn in_stretches<
    R: Threads + Sync,
    C: Crew + Sync,
    X: Send + Drop,
    F: Fn(u32, u32, u32) -> Result<X, AllocError> + Sync,
>(
    work: &Work<'_, R, C>,
    workers: u32,
    rows: u32,
    begins: bool,
    make: &F,
) -> Result<Vec<X>, AllocError>
    requires few { workers ≤ WORKER_LIMIT }
    requires rows { rows ≤ ROW_LIMIT }
    requires make { (p from to : ℕ) → p < workers → from ≤ to → to ≤ rows → F.pre make.now p from to }
    ensures { IfOk result (λ made. AreParts (λ p one. F.post make.now p (cut_at workers rows p) (cut_at workers rows (p + 1)) (Ok one)) workers made.items) }
{
    in_parts(
        work,
        workers,
        &|p| in_stretch(work.crew, workers, rows, begins, make, p),
    )
}

// What part p makes, in whatever thread.
fn in_stretch<C: Crew, X: Drop, F: Fn(u32, u32, u32) -> Result<X, AllocError>>(
    crew: &C,
    workers: u32,
    rows: u32,
    begins: bool,
    make: &F,
    p: u32,
) -> Result<X, AllocError>
    requires few { workers ≤ WORKER_LIMIT }
    requires rows { rows ≤ ROW_LIMIT }
    requires part { p < workers }
    requires make { (from to : ℕ) → from ≤ to → to ≤ rows → F.pre make.now p from to }
    ensures { F.post make.now p (cut_at workers rows p) (cut_at workers rows (p + 1)) result }
{
    if begins {
        crew.arrive(p);
    }
    let (from, to) = cut_range(workers, rows, p);
    make(p, from, to)
}
