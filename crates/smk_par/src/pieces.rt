ghost use Rattle.std.specs.Prelude.{◌≡◌, ◌<◌, ◌≤◌};
ghost use Rattle.smk_base.specs.declared.workers.TheConstants.{WORKER_LIMIT};

use smk_base::{Dir, Op1, Op2, Rel};
use smk_body::{Local, Made1, Made2, OpBody, Want};
use smk_jobs::Crew;
use smk_outside::Gate;
use std::alloc::{AllocError, Global};
use std::marker::Model;
use std::thread::Threads;

/// A body whose steps are found and made in as many parts as workers. Part p passes the gate with its number before its first row. What is kept of a step, and its lineage, are those of the inner body.
#[derive(Drop)]
pub struct Pieces<'g, G: Gate + Sync, B: OpBody> {
    inner: B,
    gate: &'g G,
    workers: u32,
    ghost some: { 0 < workers },
    ghost few: { workers ≤ WORKER_LIMIT },
}

impl<'g, G: Gate + Sync, B: OpBody> Model for Pieces<'g, G, B> {
    ghost use Rattle.smk_par.specs.Pieces.{PiecesImage};

    ghost Value = { PiecesImage B };

    ghost view = { λ a. record { inner = a.inner; workers = a.workers } };
}

impl<'g, G: Gate + Sync, B: OpBody> Pieces<'g, G, B> {
    /// A body of so many parts around another.
    pub fn new(inner: B, gate: &'g G, workers: u32) -> Pieces<'g, G, B>
        requires some { 0 < workers }
        requires few { workers ≤ WORKER_LIMIT }
        ensures inner { result.inner ≡ inner }
        ensures workers { result.workers ≡ workers }
    {
        Pieces {
            inner,
            gate,
            workers,
        }
    }
}

impl<'g, G: Gate + Sync, B: OpBody> Crew for Pieces<'g, G, B> {
    fn parts(&self) -> u32 {
        self.workers
    }

    fn arrive(&self, p: u32) {
        self.gate.arrive(p);
    }
}

impl<'g, G: Gate + Sync, B: OpBody> OpBody for Pieces<'g, G, B> {
    type Pending = B::Pending;

    ghost meaning = { λ it pending. B.meaning it.inner pending };

    ghost may_capture = { λ it. B.may_capture it.inner };

    ghost leaves1 = { λ it op input want pending. B.leaves1 it.inner op input want pending };

    ghost leaves2 = { λ it op left right want pending. B.leaves2 it.inner op left right want pending };

    fn captures(&self) -> bool {
        self.inner.captures()
    }

    fn lists_at_once(&self) -> bool {
        self.inner.lists_at_once()
    }

    fn keep1(
        &self,
        alloc: Global,
        op: &Op1,
        input: Rel,
        made: Made1,
        want: Dir,
    ) -> Result<(Rel, B::Pending), AllocError> {
        self.inner.keep1(alloc, op, input, made, want)
    }

    fn keep2(
        &self,
        alloc: Global,
        op: &Op2,
        left: Rel,
        right: Rel,
        made: Made2,
        want: Want,
    ) -> Result<(Rel, B::Pending), AllocError> {
        self.inner.keep2(alloc, op, left, right, made, want)
    }

    fn finish<R: Threads + Sync>(
        &self,
        rt: &R,
        alloc: Global,
        pending: B::Pending,
    ) -> Result<Local, AllocError> {
        self.inner.finish(rt, alloc, pending)
    }
}
