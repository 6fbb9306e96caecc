//! The rows of a step: the values in columns at places, where the crew has several parts: the columns at the same time, and of a column of texts the rows.

ghost use Rattle.std.specs.{Prelude.{◌≡◌, ◌<◌, ◌≤◌, Ok, All, IfOk, length}, Thread.IsSync};
ghost use Rattle.smk_base.specs.{Rels.rows_at, declared.rel.TheConstants.ROW_LIMIT};
ghost use Rattle.smk_body.specs.Parts.{ArePlacesOf, columns_of};

use smk_base::{Kind, Rel, numbers_below};
use smk_jobs::{Crew, Work};
use std::alloc::{AllocError, Global};
use std::marker::Sync;
use std::thread::{Threads, join};

// Fewer texts than this are not worth halving.
const LEAST_TEXTS: usize = 65536;

/// The rows at these places, their columns in as many parts as the crew has at the same time.
pub(crate) fn gathered<R: Threads + Sync, C: Crew + Sync>(
    work: &Work<'_, R, C>,
    rel: &Rel,
    places: &[u32],
) -> Result<Rel, AllocError>
    requires within { All (λ place. place < length rel.now.rows) places.now }
    requires few { length places.now ≤ ROW_LIMIT }
    ensures { IfOk result (λ made. made ≡ record { kinds = rel.now.kinds; rows = rows_at rel.now.rows places.now }) }
{
    let cols = numbers_below(work.alloc, rel.width())?;
    gathered_columns(work, rel, places, cols.as_slice(), work.crew.parts())
}

// The values in these columns of the rows at these places. The columns are halved as long as there are workers for both halves; a column of texts that is left alone, which takes longest, is made by the whole crew.
#[cycle(columns)]
fn gathered_columns<R: Threads + Sync, C: Crew + Sync>(
    work: &Work<'_, R, C>,
    rel: &Rel,
    places: &[u32],
    cols: &[u32],
    workers: u32,
) -> Result<Rel, AllocError>
    requires { ArePlacesOf rel.now places.now cols.now }
    ensures { IfOk result (λ made. made ≡ columns_of rel.now places.now cols.now) }
{
    if workers < 2 || cols.len() < 2 {
        return part_at(work, rel, places, cols);
    }
    let (low, high) = cols.split_at(cols.len() / 2);
    let few = workers / 2;
    let more = workers - few;
    let lower = || -> Result<Rel, AllocError>
        requires { IsSync R.row × IsSync C.row × ArePlacesOf rel.now places.now low.now }
        ensures { IfOk result (λ made. made ≡ columns_of rel.entry.now places.entry.now low.entry.now) }
    { gathered_columns(work, rel, places, low, few) };
    let upper = || -> Result<Rel, AllocError>
        requires { IsSync R.row × IsSync C.row × ArePlacesOf rel.now places.now high.now }
        ensures { IfOk result (λ made. made ≡ columns_of rel.entry.now places.entry.now high.entry.now) }
    { gathered_columns(work, rel, places, high, more) };
    let (lefts, rights) = join(work.rt, lower, upper);
    let (left, right) = both_of(lefts, rights)?;
    left.beside(right)
}

// One part of the columns: in one thread, or a single column of texts by the whole crew.
fn part_at<R: Threads + Sync, C: Crew + Sync>(
    work: &Work<'_, R, C>,
    rel: &Rel,
    places: &[u32],
    cols: &[u32],
) -> Result<Rel, AllocError>
    requires { ArePlacesOf rel.now places.now cols.now }
    ensures { IfOk result (λ made. made ≡ columns_of rel.now places.now cols.now) }
{
    if cols.len() == 1 && matches!(rel.kind(cols[0]), Kind::Text) {
        rows_in_halves(work, rel, places, cols, work.crew.parts())
    } else {
        columns_at(work.alloc, rel, places, cols)
    }
}

// Any columns, by so many workers. The places are halved as long as there are workers for both halves, and many places.
#[cycle(rows)]
fn rows_in_halves<R: Threads + Sync, C: Crew + Sync>(
    work: &Work<'_, R, C>,
    rel: &Rel,
    places: &[u32],
    cols: &[u32],
    workers: u32,
) -> Result<Rel, AllocError>
    requires { ArePlacesOf rel.now places.now cols.now }
    ensures { IfOk result (λ made. made ≡ columns_of rel.now places.now cols.now) }
{
    if workers < 2 || places.len() < LEAST_TEXTS {
        return columns_at(work.alloc, rel, places, cols);
    }
    let (low, high) = places.split_at(places.len() / 2);
    let few = workers / 2;
    let more = workers - few;
    let lower = || -> Result<Rel, AllocError>
        requires { IsSync R.row × IsSync C.row × ArePlacesOf rel.now low.now cols.now }
        ensures { IfOk result (λ made. made ≡ columns_of rel.entry.now low.entry.now cols.entry.now) }
    { rows_in_halves(work, rel, low, cols, few) };
    let upper = || -> Result<Rel, AllocError>
        requires { IsSync R.row × IsSync C.row × ArePlacesOf rel.now high.now cols.now }
        ensures { IfOk result (λ made. made ≡ columns_of rel.entry.now high.entry.now cols.entry.now) }
    { rows_in_halves(work, rel, high, cols, more) };
    let (lefts, rights) = join(work.rt, lower, upper);
    let (left, right) = both_of(lefts, rights)?;
    left.followed_by(work.alloc, &right)
}

/// Both values, or the error if either has one.
pub(crate) fn both_of<A: Drop, B: Drop>(
    first: Result<A, AllocError>,
    second: Result<B, AllocError>,
) -> Result<(A, B), AllocError>
    ensures first { IfOk result (λ it. first ≡ Ok it.0) }
    ensures second { IfOk result (λ it. second ≡ Ok it.1) }
{
    let first = first?;
    Ok((first, second?))
}

/// The values in these columns of the rows at these places, all in this thread.
pub(crate) fn columns_at(
    alloc: Global,
    rel: &Rel,
    places: &[u32],
    cols: &[u32],
) -> Result<Rel, AllocError>
    requires { ArePlacesOf rel.now places.now cols.now }
    ensures { IfOk result (λ made. made ≡ columns_of rel.now places.now cols.now) }
{
    let picked = rel.pick_columns(alloc, cols)?;
    picked.gather(alloc, places)
}
