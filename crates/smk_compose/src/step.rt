ghost use Rattle.std.specs.Prelude.{◌≡◌, ◌||◌, ◌<◌, ◌≤◌, ℕ, IsTrue, is_some, length, map, All, IfOk, IfErr, OnOk, None};
ghost use Rattle.smk_base.specs.{declared.rel.TheConstants.COLUMN_LIMIT, PlanImage.{binary_of, unary_of}, Rels.{kind_in, picked}};
ghost use Rattle.smk_model.specs.{Plain.{step1, step2}, Kinds.{Fits1, Fits2, kinds1, kinds2}};
ghost use Rattle.smk_body.specs.Locals.{is_nothing, is_nothing2};
ghost use Rattle.smk_compose.specs.Through.{through, together_all, side1, side_left, side_right, right_of, want_of, map_at, Passes, Meets, pairs_fault, node_fault, IsFirst};

use crate::fault::RunFault;
use crate::pass::{meet_all, pass_all, wants};
use crate::passing::{Passing, Walked};
use smk_body::{OpBody, OpFault, Want};
use smk_jobs::Work;
use smk_table::{NarrowedOne, NarrowedTwo};
use std::thread::Threads;

/// A step with one input, which is the node with this number: of its rows the wanted columns, and the maps of its input through it.
pub(crate) fn run_one<R: Threads + Sync, B: OpBody + Sync>(
    work: &Work<'_, R, B>,
    step: &NarrowedOne,
    below: Walked,
    node: u32,
) -> Result<Walked, RunFault>
    requires fits { Fits1 (unary_of step.now.op) below.rel.kinds }
    requires captured { IsTrue (B.may_capture work.now.crew.now || is_nothing (want_of below.kept)) }
    requires passes { All (Passes (side1 (unary_of step.now.op) below.rel.rows)) below.kept }
    requires within { All (λ c. c < length (kinds1 (unary_of step.now.op) below.rel.kinds)) step.now.after }
    requires few { length step.now.after ≤ COLUMN_LIMIT }
    ensures rows { IfOk result (λ made. made.rel.rows ≡ map (picked step.now.after) (step1 (unary_of step.now.op) below.rel.rows)) }
    ensures kinds { IfOk result (λ made. made.rel.kinds ≡ map (kind_in (kinds1 (unary_of step.now.op) below.rel.kinds)) step.now.after) }
    ensures kept { IfOk result (λ made. made.kept ≡ map (through (side1 (unary_of step.now.op) below.rel.rows)) below.kept) }
    ensures none { OnOk result (node_fault node (step1 (unary_of step.now.op) below.rel.rows) (map (through (side1 (unary_of step.now.op) below.rel.rows)) below.kept) ≡ None) }
    ensures fault { IfErr result (λ e. IsFirst e (node_fault node (step1 (unary_of step.now.op) below.rel.rows) (map (through (side1 (unary_of step.now.op) below.rel.rows)) below.kept))) }
{
    let Walked { rel: input, kept } = below;
    let _rows = input.len();
    let want = wants(kept.as_slice());
    match work.crew.apply1(work.rt, work.alloc, &step.op, input, want) {
        Ok((rel, pending)) => {
            let mut maps = kept.into_vec();
            match finish_one(work, pending, &mut maps, node) {
                Ok(()) => Ok(Walked::at_columns(work.alloc, rel, step.after.as_slice(), maps)?),
                Err(fault) => {
                    drop(rel);
                    drop(maps);
                    Err(fault)
                }
            }
        }
        Err(_) => {
            drop(kept);
            Err(RunFault::NoMemory)
        }
    }
}

// Takes the maps of the input through a step with one input, by its lineage that is pending, where there are maps.
fn finish_one<R: Threads + Sync, B: OpBody + Sync>(
    work: &Work<'_, R, B>,
    pending: B::Pending,
    maps: &mut [Passing],
    node: u32,
) -> Result<(), RunFault>
    requires { All (Passes (B.meaning work.now.crew.now pending).left) maps.old }
    ensures made { OnOk result (maps.new ≡ map (through (B.meaning work.now.crew.now pending).left) maps.old) }
    ensures none { OnOk result (pairs_fault node (map (through (B.meaning work.now.crew.now pending).left) maps.old) ≡ None) }
    ensures fault { IfErr result (λ e. IsFirst e (pairs_fault node (map (through (B.meaning work.now.crew.now pending).left) maps.old))) }
{
    if maps.is_empty() {
        return Ok(());
    }
    let mut local = work.crew.finish(work.rt, work.alloc, pending)?;
    let passed = pass_all(work.alloc, &mut local.left, maps, node);
    drop(local);
    passed
}

/// A step with two inputs, likewise.
pub(crate) fn run_two<R: Threads + Sync, B: OpBody + Sync>(
    work: &Work<'_, R, B>,
    step: &NarrowedTwo,
    left: Walked,
    right: Walked,
    node: u32,
) -> Result<Walked, RunFault>
    requires fits { Fits2 (binary_of step.now.op) left.rel.kinds right.rel.kinds }
    requires captured { IsTrue (B.may_capture work.now.crew.now || is_nothing2 (record { left = want_of left.kept; right = want_of right.kept })) }
    requires long { length left.kept ≡ length right.kept }
    requires meets { (i : ℕ) → i < length left.kept → Meets (side_left (binary_of step.now.op) left.rel.rows right.rel.rows) (side_right (binary_of step.now.op) left.rel.rows right.rel.rows) (map_at left.kept i) (map_at right.kept i) }
    requires within { All (λ c. c < length (kinds2 (binary_of step.now.op) left.rel.kinds right.rel.kinds)) step.now.after }
    requires few { length step.now.after ≤ COLUMN_LIMIT }
    ensures rows { IfOk result (λ made. made.rel.rows ≡ map (picked step.now.after) (step2 (binary_of step.now.op) left.rel.rows right.rel.rows)) }
    ensures kinds { IfOk result (λ made. made.rel.kinds ≡ map (kind_in (kinds2 (binary_of step.now.op) left.rel.kinds right.rel.kinds)) step.now.after) }
    ensures kept { IfOk result (λ made. made.kept ≡ together_all (side_left (binary_of step.now.op) left.rel.rows right.rel.rows) (side_right (binary_of step.now.op) left.rel.rows right.rel.rows) left.kept right.kept) }
    ensures none { OnOk result (node_fault node (step2 (binary_of step.now.op) left.rel.rows right.rel.rows) (together_all (side_left (binary_of step.now.op) left.rel.rows right.rel.rows) (side_right (binary_of step.now.op) left.rel.rows right.rel.rows) left.kept right.kept) ≡ None) }
    ensures fault { IfErr result (λ e. IsFirst e (node_fault node (step2 (binary_of step.now.op) left.rel.rows right.rel.rows) (together_all (side_left (binary_of step.now.op) left.rel.rows right.rel.rows) (side_right (binary_of step.now.op) left.rel.rows right.rel.rows) left.kept right.kept))) }
{
    let Walked {
        rel: left_rel,
        kept: left_kept,
    } = left;
    let Walked {
        rel: right_rel,
        kept: right_kept,
    } = right;
    let want = Want {
        left: wants(left_kept.as_slice()),
        right: wants(right_kept.as_slice()),
    };
    match work
        .crew
        .apply2(work.rt, work.alloc, &step.op, left_rel, right_rel, want)
    {
        Ok((rel, pending)) => {
            let mut lefts = left_kept.into_vec();
            let mut rights = right_kept.into_vec();
            let met = finish_two(work, pending, &mut lefts, &mut rights, node);
            drop(rights);
            match met {
                Ok(()) => Ok(Walked::at_columns(work.alloc, rel, step.after.as_slice(), lefts)?),
                Err(fault) => {
                    drop(rel);
                    drop(lefts);
                    Err(fault)
                }
            }
        }
        Err(fault) => {
            drop(left_kept);
            drop(right_kept);
            match fault {
                OpFault::Rows => Err(RunFault::Rows { node }),
                OpFault::NoMemory => Err(RunFault::NoMemory),
            }
        }
    }
}

// Takes the maps of the inputs through a step with two inputs, by its lineage that is pending, where there are maps. They are put among the left ones.
fn finish_two<R: Threads + Sync, B: OpBody + Sync>(
    work: &Work<'_, R, B>,
    pending: B::Pending,
    lefts: &mut [Passing],
    rights: &mut [Passing],
    node: u32,
) -> Result<(), RunFault>
    requires sides { IsTrue (is_some (B.meaning work.now.crew.now pending).right) }
    requires long { length lefts.old ≡ length rights.old }
    requires meets { (i : ℕ) → i < length lefts.old → Meets (B.meaning work.now.crew.now pending).left (right_of (B.meaning work.now.crew.now pending)) (map_at lefts.old i) (map_at rights.old i) }
    ensures made { OnOk result (lefts.new ≡ together_all (B.meaning work.now.crew.now pending).left (right_of (B.meaning work.now.crew.now pending)) lefts.old rights.old) }
    ensures none { OnOk result (pairs_fault node (together_all (B.meaning work.now.crew.now pending).left (right_of (B.meaning work.now.crew.now pending)) lefts.old rights.old) ≡ None) }
    ensures fault { IfErr result (λ e. IsFirst e (pairs_fault node (together_all (B.meaning work.now.crew.now pending).left (right_of (B.meaning work.now.crew.now pending)) lefts.old rights.old))) }
{
    if lefts.is_empty() {
        return Ok(());
    }
    let mut local = work.crew.finish(work.rt, work.alloc, pending)?;
    let met = match &mut local.right {
        Some(side) => meet_all(work.alloc, &mut local.left, side, lefts, rights, node),
        None => unreachable!(),
    };
    drop(local);
    met
}
