ghost use Rattle.std.specs.Prelude.{false};

use smk_base::{Dir, Op1, Op2, Rel};
use smk_body::{Local, Made1, Made2, OpBody, Want, no_side};
use smk_jobs::Crew;
use std::alloc::{AllocError, Global};
use std::thread::Threads;

/// The plain body: only rows. It can't be asked for lineage.
#[derive(Drop)]
pub struct Plain;

impl Crew for Plain {}

impl OpBody for Plain {
    type Pending = Local;

    ghost meaning = { λ body local. local };

    ghost may_capture = { λ body. false };

    fn captures(&self) -> bool {
        false
    }

    fn lists_at_once(&self) -> bool {
        false
    }

    fn keep1(
        &self,
        _alloc: Global,
        _op: &Op1,
        _input: Rel,
        made: Made1,
        _want: Dir,
    ) -> Result<(Rel, Local), AllocError> {
        Ok((made.rel, Local::of_one(no_side())))
    }

    fn keep2(
        &self,
        _alloc: Global,
        _op: &Op2,
        _left: Rel,
        _right: Rel,
        made: Made2,
        _want: Want,
    ) -> Result<(Rel, Local), AllocError> {
        Ok((made.rel, Local::of_both(no_side(), no_side())))
    }

    fn finish<R: Threads + Sync>(
        &self,
        _rt: &R,
        _alloc: Global,
        pending: Local,
    ) -> Result<Local, AllocError> {
        Ok(pending)
    }
}
