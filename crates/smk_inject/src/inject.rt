ghost use Rattle.std.specs.Prelude.{true};

use smk_base::{Dir, Op1, Op2, Rel};
use smk_body::{Local, Made1, Made2, OpBody, Want, lineage1, lineage2};
use smk_jobs::Crew;
use std::alloc::{AllocError, Global};
use std::thread::Threads;

/// The body that captures the wanted lineage of a step with its rows.
#[derive(Drop)]
pub struct Inject;

impl Crew for Inject {}

impl OpBody for Inject {
    type Pending = Local;

    ghost meaning = { λ body local. local };

    ghost may_capture = { λ body. true };

    fn captures(&self) -> bool {
        true
    }

    fn lists_at_once(&self) -> bool {
        true
    }

    fn keep1(
        &self,
        alloc: Global,
        _op: &Op1,
        _input: Rel,
        made: Made1,
        want: Dir,
    ) -> Result<(Rel, Local), AllocError> {
        let local = lineage1(alloc, made.way, want)?;
        Ok((made.rel, local))
    }

    fn keep2(
        &self,
        alloc: Global,
        _op: &Op2,
        _left: Rel,
        _right: Rel,
        made: Made2,
        want: Want,
    ) -> Result<(Rel, Local), AllocError> {
        let local = lineage2(alloc, made.left, made.right, want)?;
        Ok((made.rel, local))
    }

    fn finish<R: Threads + Sync>(
        &self,
        _rt: &R,
        _alloc: Global,
        pending: Local,
    ) -> Result<Local, AllocError> {
        Ok(pending)
    }
}
