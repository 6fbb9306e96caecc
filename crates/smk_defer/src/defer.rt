ghost use Rattle.std.specs.Prelude.{true, false};
ghost use Rattle.smk_defer.specs.{Kept.step_local, Leaves.{Leaves1, Leaves2}};

use crate::distinct::{distinct1, distinct2};
use crate::kept::{Kept, KeptOp};
use crate::one::lineage1;
use crate::two::lineage2;
use smk_base::{Dir, Op1, Op2, Rel};
use smk_body::{Local, Made1, Made2, OpBody, Want};
use smk_jobs::Crew;
use std::alloc::{AllocError, Global};
use std::thread::Threads;

/// The body that keeps a step with its inputs and keys, and makes its wanted lineage in `finish`.
#[derive(Drop)]
pub struct Defer;

impl Crew for Defer {}

impl OpBody for Defer {
    type Pending = Kept;

    ghost meaning = { λ body kept. step_local kept.op kept.left kept.right kept.want };

    ghost may_capture = { λ body. true };

    ghost leaves1 = { λ body op input want kept. Leaves1 op input want kept };

    ghost leaves2 = { λ body op left right want kept. Leaves2 op left right want kept };

    fn captures(&self) -> bool {
        true
    }

    fn lists_at_once(&self) -> bool {
        false
    }

    fn keep1(
        &self,
        alloc: Global,
        op: &Op1,
        input: Rel,
        made: Made1,
        want: Dir,
    ) -> Result<(Rel, Kept), AllocError> {
        let keys = distinct1(alloc, op, &input, &made.rel)?;
        let kept = Kept {
            op: KeptOp::One(op.copy(alloc)?),
            keys,
            left: input,
            right: None,
            want: Want::of_left(want),
            out_rows: made.rel.len(),
        };
        Ok((made.rel, kept))
    }

    fn keep2(
        &self,
        alloc: Global,
        op: &Op2,
        left: Rel,
        right: Rel,
        made: Made2,
        want: Want,
    ) -> Result<(Rel, Kept), AllocError> {
        let keys = distinct2(alloc, op, &left, &right, &made.rel)?;
        let kept = Kept {
            op: KeptOp::Two(op.copy(alloc)?),
            keys,
            left,
            right: Some(right),
            want,
            out_rows: made.rel.len(),
        };
        Ok((made.rel, kept))
    }

    fn finish<R: Threads + Sync>(
        &self,
        _rt: &R,
        alloc: Global,
        kept: Kept,
    ) -> Result<Local, AllocError> {
        let keys = &kept.keys;
        match &kept.op {
            KeptOp::One(op) => lineage1(alloc, op, &kept.left, keys, kept.want.left),
            KeptOp::Two(op) => match &kept.right {
                Some(right) => lineage2(alloc, op, &kept.left, right, keys, kept.want),
                None => unreachable!(),
            },
        }
    }
}
