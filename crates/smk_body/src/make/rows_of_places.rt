//! The rows of a step at places, and beside them lists of the places.

ghost use Rattle.std.specs.{Prelude.{◌≡◌, ◌<◌, ◌≤◌, All, IfOk, length}, Bool.OnTrue, Thread.IsSync};
ghost use Rattle.smk_base.specs.{Places.{IsPlaces, inverted}, Rels.rows_at, declared.rel.TheConstants.ROW_LIMIT};
ghost use Rattle.smk_body.specs.{Bounds.AreBelow, Locals.wanted};
ghost use Rattle.smk_model.specs.Locals.{singles};

use crate::keep::lists::{lists_if, marked_lists_if};
use crate::make::gather::{both_of, gathered};
use smk_base::Rel;
use smk_jobs::{Crew, Work};
use smk_rid::RidMap;
use std::alloc::AllocError;
use std::marker::Sync;
use std::thread::{Threads, join};

/// The rows at these places, which are a set, and the forward lists of these if they are wanted.
pub(crate) fn placed_and_turned<R: Threads + Sync, C: Crew + Sync>(
    work: &Work<'_, R, C>,
    rel: &Rel,
    places: &[u32],
    asked: bool,
) -> Result<(Rel, Option<RidMap>), AllocError>
    requires below { AreBelow (length rel.now.rows) places.now }
    requires set { IsPlaces (length rel.now.rows) places.now }
    ensures rows { IfOk result (λ made. made.0 ≡ record { kinds = rel.now.kinds; rows = rows_at rel.now.rows places.now }) }
    ensures turned { IfOk result (λ made. made.1 ≡ wanted asked (inverted (singles places.now (length rel.now.rows)))) }
{
    if work.is_alone(places.len()) {
        let rows = rel.gather(work.alloc, places)?;
        let lists = marked_lists_if(work.alloc, asked, places, rel.len())?;
        return Ok((rows, lists));
    }
    gathered_and_turned(work, rel, places, true, asked)
}

/// The rows at these places, and the turned lists of the places if they are wanted, at the same time. It is told where no place comes twice.
pub(crate) fn gathered_and_turned<R: Threads + Sync, C: Crew + Sync>(
    work: &Work<'_, R, C>,
    rel: &Rel,
    places: &[u32],
    apart: bool,
    asked: bool,
) -> Result<(Rel, Option<RidMap>), AllocError>
    requires within { All (λ place. place < length rel.now.rows) places.now }
    requires few { length places.now ≤ ROW_LIMIT }
    requires set { OnTrue apart (IsPlaces (length rel.now.rows) places.now) }
    ensures { IfOk result (λ both. (both.0 ≡ record { kinds = rel.now.kinds; rows = rows_at rel.now.rows places.now }) × (both.1 ≡ wanted asked (inverted (singles places.now (length rel.now.rows))))) }
{
    let inputs = rel.len();
    let turn = || -> Result<Option<RidMap>, AllocError>
        requires { (inputs ≤ ROW_LIMIT) × (length places.now ≤ ROW_LIMIT) × All (λ r. r < inputs) places.now × OnTrue apart (IsPlaces inputs places.now) }
        ensures { IfOk result (λ made. made ≡ wanted asked (inverted (singles places.entry.now inputs))) }
    { lists_if(work.alloc, asked, apart, places, inputs) };
    let gather = || -> Result<Rel, AllocError>
        requires { IsSync R.row × IsSync C.row × All (λ place. place < length rel.now.rows) places.now × (length places.now ≤ ROW_LIMIT) }
        ensures { IfOk result (λ made. made ≡ record { kinds = rel.entry.now.kinds; rows = rows_at rel.entry.now.rows places.entry.now }) }
    { gathered(work, rel, places) };
    let (lists, rows) = join(work.rt, turn, gather);
    both_of(rows, lists)
}
