//! Groupings by one column of texts. The codes of its texts come in the order in which the texts come first, so they are the classes, and a text may come first only where its code is greater than all before it.

ghost use Rattle.std.specs.Prelude.{◌≡◌, ◌<◌, ◌≤◌, ◌+◌, ◌∷◌, [], IfOk, All, length, map};
ghost use Rattle.smk_base.specs.{Rels.kind_in, declared.workers.TheConstants.WORKER_LIMIT};
ghost use Rattle.smk_base.specs.declared.value.Kind.TheVariants as kinds;
ghost use Rattle.smk_keys.specs.Classes.{classes_of};
ghost use Rattle.smk_model.specs.Plain.{key_of};
ghost use Rattle.smk_jobs.specs.Cuts.{AreParts, cut_at};
ghost use Rattle.smk_body.specs.Rises.{AreRises, codes_of, is_text_key as is_text_key_of};

use crate::find::stretches::in_stretches;
use smk_base::{Kind, Rel};
use smk_jobs::{Crew, Work};
use smk_keys::Classes;
use std::alloc::{AllocError, Global};
use std::marker::Sync;
use std::thread::Threads;

/// Whether these keys are one column of texts alone.
pub(crate) fn is_text_key(rel: &Rel, keys: &[u32]) -> bool
    requires { All (λ c. c < length rel.now.kinds) keys.now }
    ensures { result ≡ is_text_key_of rel.now.kinds keys.now }
{
    if keys.len() != 1 {
        return false;
    }
    match rel.kind(keys[0]) {
        Kind::Text => true,
        Kind::Int { .. } => false,
    }
}

/// The classes of the texts of all rows in a column, in parts: each finds where its codes rise.
pub(crate) fn text_classes<R: Threads + Sync, C: Crew + Sync>(
    work: &Work<'_, R, C>,
    rel: &Rel,
    c: u32,
    workers: u32,
) -> Result<Classes, AllocError>
    requires column { c < length rel.now.kinds }
    requires text { kind_in rel.now.kinds c ≡ kinds.Text }
    requires some { 0 < workers }
    requires few { workers ≤ WORKER_LIMIT }
    ensures { IfOk result (λ classes. classes ≡ classes_of (map (key_of (c ∷ [])) rel.now.rows)) }
{
    let rows = rel.len();
    let codes = rel.codes(c);
    let parts = in_stretches(
        work,
        workers,
        rows,
        true,
        &|_, from, to| rises_between(work.alloc, codes, from, to),
    )?;
    classes_by_rises(work.alloc, rel, c, workers, parts.as_slice())
}

// The places, from one up to another, where a code is greater than all before it from there.
fn rises_between(alloc: Global, codes: &[u32], from: u32, to: u32) -> Result<Vec<u32>, AllocError>
    requires order { from ≤ to }
    requires within { to ≤ length codes.now }
    ensures { IfOk result (λ rises. AreRises codes.now from to rises.items) }
{
    let mut rises = Vec::new(alloc);
    let mut next: u64 = 0;
    for place in from..to {
        let code = u64::from(codes[place as usize]);
        if code >= next {
            rises.push(place)?;
            next = code + 1;
        }
    }
    Ok(rises)
}

// The classes of the texts of all rows in a column, from the rises of the parts: a text comes first where its code is the number of those before it.
fn classes_by_rises(
    alloc: Global,
    rel: &Rel,
    c: u32,
    workers: u32,
    parts: &[Vec<u32>],
) -> Result<Classes, AllocError>
    requires column { c < length rel.now.kinds }
    requires text { kind_in rel.now.kinds c ≡ kinds.Text }
    requires some { 0 < workers }
    requires parts { AreParts (λ p v. AreRises (codes_of rel.now.rows c) (cut_at workers (length rel.now.rows) p) (cut_at workers (length rel.now.rows) (p + 1)) v.items) workers parts.now }
    ensures { IfOk result (λ classes. classes ≡ classes_of (map (key_of (c ∷ [])) rel.now.rows)) }
{
    let codes = rel.codes(c);
    let mut firsts = Vec::new(alloc);
    for p in 0..parts.len() {
        let rises = parts[p].as_slice();
        for place in rises {
            if codes[*place as usize] as usize == firsts.len() {
                firsts.push(*place)?;
            }
        }
    }
    let of = Vec::from_slice(alloc, codes)?;
    Ok(Classes::of_parts(of, firsts))
}
