//! The parts of a step: stretches of the rows of its input.

ghost use Rattle.std.specs.{Prelude.{◌≡◌, ◌<◌, ◌≤◌, ◌+◌, ℕ, Ok, IfOk, sum}, Bool.{OnTrue, OnFalse}};
ghost use Rattle.smk_base.specs.{declared.rel.TheConstants.ROW_LIMIT, declared.workers.TheConstants.WORKER_LIMIT};
ghost use Rattle.smk_jobs.specs.Cuts.{AreParts, cut_at};

use crate::crew::{Crew, Work};
use crate::jobs::each_or_first;
use smk_base::{ROW_LIMIT, numbers_below};
use std::alloc::{AllocError, Global};
use std::marker::{Send, Sync};
use std::thread::Threads;

/// Where part p of so many begins among n rows; the last ends where one more would begin.
#[tactic(auto, using(crate::proofs::Cutting::product_small))]
pub fn cut_place(workers: u32, n: u32, p: u32) -> u32
    requires some { 0 < workers }
    requires few { workers ≤ WORKER_LIMIT }
    requires rows { n ≤ ROW_LIMIT }
    requires part { p ≤ workers }
    ensures { result ≡ cut_at workers n p }
{
    p * n / workers
}

/// From which row up to which part p goes.
#[tactic(auto, using(crate::proofs::Cutting::cut_grows, crate::proofs::Cutting::cut_within))]
pub fn cut_range(workers: u32, n: u32, p: u32) -> (u32, u32)
    requires few { workers ≤ WORKER_LIMIT }
    requires rows { n ≤ ROW_LIMIT }
    requires part { p < workers }
    ensures from { result.0 ≡ cut_at workers n p }
    ensures to { result.1 ≡ cut_at workers n (p + 1) }
    ensures order { result.0 ≤ result.1 }
    ensures within { result.1 ≤ n }
{
    (cut_place(workers, n, p), cut_place(workers, n, p + 1))
}

/// What each of so many parts makes, all at once, or an error if one of them ran out of memory.
pub fn in_parts<
    R: Threads + Sync,
    C: Crew + Sync,
    X: Send + Drop,
    F: Fn(u32) -> Result<X, AllocError> + Sync,
>(work: &Work<'_, R, C>, workers: u32, part: &F) -> Result<Vec<X>, AllocError>
    requires { (p : ℕ) → p < workers → F.pre part.now p }
    ensures { IfOk result (λ made. AreParts (λ p one. F.post part.now p (Ok one)) workers made.items) }
{
    let parts = numbers_below(work.alloc, workers)?;
    each_or_first(work.rt, work.alloc, u32::MAX, parts, part)
}

/// Whether the rows that the parts have counted are more than a step may have.
pub fn are_too_many(counts: &[u32]) -> bool
    ensures many { OnTrue result (ROW_LIMIT < sum counts.now) }
    ensures few { OnFalse result (sum counts.now ≤ ROW_LIMIT) }
{
    let mut total = 0u64;
    for count in counts {
        total += u64::from(*count);
        if u64::from(ROW_LIMIT) < total {
            return true;
        }
    }
    false
}
