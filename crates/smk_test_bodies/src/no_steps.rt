ghost use Rattle.std.specs.Prelude.{false};

use smk_base::{Dir, Op1, Op2, Rel};
use smk_body::{Local, Made1, Made2, OpBody, Want};
use smk_jobs::Crew;
use std::alloc::{AllocError, Global};
use std::thread::Threads;

/// A body whose steps always run out of memory. It promises that none leaves anything pending.
#[derive(Drop)]
pub struct NoSteps;

impl Crew for NoSteps {}

impl OpBody for NoSteps {
    type Pending = Local;

    ghost meaning = { λ body local. local };

    ghost may_capture = { λ body. false };

    ghost leaves1 = { λ body op input want pending. ⊥ };

    ghost leaves2 = { λ body op left right want pending. ⊥ };

    fn captures(&self) -> bool {
        false
    }

    fn lists_at_once(&self) -> bool {
        false
    }

    fn keep1(
        &self,
        _alloc: Global,
        _op: &Op1,
        _input: Rel,
        _made: Made1,
        _want: Dir,
    ) -> Result<(Rel, Local), AllocError> {
        Err(AllocError)
    }

    fn keep2(
        &self,
        _alloc: Global,
        _op: &Op2,
        _left: Rel,
        _right: Rel,
        _made: Made2,
        _want: Want,
    ) -> Result<(Rel, Local), AllocError> {
        Err(AllocError)
    }

    fn finish<R: Threads + Sync>(
        &self,
        _rt: &R,
        _alloc: Global,
        pending: Local,
    ) -> Result<Local, AllocError> {
        Ok(pending)
    }
}
