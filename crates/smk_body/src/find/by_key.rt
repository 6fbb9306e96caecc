//! Groupings: the group of each row by its key.

ghost use Rattle.std.specs.Prelude.{◌≡◌, ◌<◌, ◌≤◌, ◌+◌, ◌++◌, IfOk, OnOk, All, length, map};
ghost use Rattle.smk_base.specs.{declared.rel.TheConstants.COLUMN_LIMIT, declared.workers.TheConstants.WORKER_LIMIT};
ghost use Rattle.smk_model.specs.Plain.{key_of};
ghost use Rattle.smk_keys.specs.{Classes.classes_of, Joined.{key_total, numbers_from}};
ghost use Rattle.smk_jobs.specs.Cuts.{AreParts, cut_at};
ghost use Rattle.smk_body.specs.Renumbered.{HasKeys, StandFor};

use crate::find::by_text::{is_text_key, text_classes};
use crate::find::classes::row_classes;
use crate::find::stretches::in_stretches;
use smk_base::Rel;
use smk_jobs::{Crew, Work, cut_place};
use smk_keys::{Classes, joined};
use std::alloc::{AllocError, Global};
use std::marker::Sync;
use std::thread::Threads;

/// The groups of the rows by their keys, found by the crew: alone, or in threads.
pub fn found_groups<R: Threads + Sync, C: Crew + Sync>(
    work: &Work<'_, R, C>,
    rel: &Rel,
    keys: &[u32],
) -> Result<Classes, AllocError>
    requires keys { All (λ c. c < length rel.now.kinds) keys.now }
    requires few_keys { length keys.now ≤ COLUMN_LIMIT }
    ensures { IfOk result (λ classes. classes ≡ classes_of (map (key_of keys.now) rel.now.rows)) }
{
    let rows = rel.len();
    let workers = work.crew.parts();
    if workers == 1 {
        work.crew.arrive(0);
        return Classes::of_rows(work.alloc, rel, keys);
    }
    if is_text_key(rel, keys) {
        return text_classes(work, rel, keys[0], workers);
    }
    let parts = in_stretches(
        work,
        workers,
        rows,
        true,
        &|_, from, to| Classes::of_rows_between(work.alloc, rel, keys, from, to),
    )?;
    all_classes(work, rel, keys, workers, parts.as_slice())
}

// The classes of the keys of all rows, from those of the parts: a key that several parts have is one class, and the classes come in the order of the rows.
fn all_classes<R: Threads + Sync, C: Crew + Sync>(
    work: &Work<'_, R, C>,
    rel: &Rel,
    keys: &[u32],
    workers: u32,
    parts: &[Classes],
) -> Result<Classes, AllocError>
    requires keys { All (λ c. c < length rel.now.kinds) keys.now }
    requires few_keys { length keys.now ≤ COLUMN_LIMIT }
    requires some { 0 < workers }
    requires few { workers ≤ WORKER_LIMIT }
    requires parts { AreParts (λ p. HasKeys keys.now rel.now.rows (cut_at workers (length rel.now.rows) p) (cut_at workers (length rel.now.rows) (p + 1))) workers parts.now }
    ensures { IfOk result (λ classes. classes ≡ classes_of (map (key_of keys.now) rel.now.rows)) }
{
    let rows = rel.len() as usize;
    let places = first_places(work.alloc, rel, keys, workers, parts)?;
    // Where most keys differ, the parts have little in common, and all rows are numbered at once.
    if places.len() > rows / 2 {
        return Classes::of_rows(work.alloc, rel, keys);
    }
    let picked = rel.pick_columns(work.alloc, keys)?;
    let first_keys = picked.gather(work.alloc, places.as_slice())?;
    let classes = row_classes(work.alloc, &first_keys)?;
    let all = joined(work.alloc, parts, places.as_slice(), &classes, rows)?;
    Ok(all)
}

// The place of the first row of each key of each part, one part after the other.
fn first_places(
    alloc: Global,
    rel: &Rel,
    keys: &[u32],
    workers: u32,
    parts: &[Classes],
) -> Result<Vec<u32>, AllocError>
    requires some { 0 < workers }
    requires few { workers ≤ WORKER_LIMIT }
    requires parts { AreParts (λ p. HasKeys keys.now rel.now.rows (cut_at workers (length rel.now.rows) p) (cut_at workers (length rel.now.rows) (p + 1))) workers parts.now }
    ensures numbers { IfOk result (λ places. StandFor (map (key_of keys.now) rel.now.rows) (length rel.now.rows) places.items (numbers_from 0 parts.now)) }
    ensures keys { IfOk result (λ places. length places.items ≡ key_total parts.now) }
{
    let rows = rel.len();
    let mut places = Vec::new(alloc);
    for p in 0..workers {
        let from = cut_place(workers, rows, p);
        push_moved(&mut places, from, parts[p as usize].firsts())?;
    }
    Ok(places)
}

// Appends numbers, each more by another.
fn push_moved(numbers: &mut Vec<u32>, by: u32, more: &[u32]) -> Result<(), AllocError>
    requires { All (λ number. by + number < 4294967296) more.now }
    ensures { OnOk result (numbers.new.items ≡ numbers.old.items ++ map (λ number. by + number) more.now) }
{
    numbers.extend(more.iter().map(|number| by + *number))
}
