ghost use Rattle.std.specs.Prelude.{◌≡◌};
ghost use Rattle.smk_base.specs.PlanImage.{unary_of};
ghost use Rattle.smk_model.specs.Kinds.{Fits1};

use crate::no_steps::NoSteps;
use smk_base::{Dir, Op1, Op2, Rel};
use smk_body::{Local, Made1, Made2, OpBody, Want};
use smk_jobs::Crew;
use std::alloc::{AllocError, Global};
use std::marker::Model;
use std::sync::atomic::{AtomicU64, Ordering};
use std::thread::Threads;

/// How often a body was to keep a step with one input, one with two, and to make the lineage of a step.
#[derive(Clone, Copy, Debug, PartialEq, Eq)]
pub struct Calls {
    pub one: u64,
    pub two: u64,
    pub finish: u64,
}

/// A body that hands each call on to another, and counts them. A step that is refused before its rows are made isn't kept, and isn't counted.
#[derive(Drop)]
pub struct Counted<B: OpBody> {
    inner: B,
    one: AtomicU64,
    two: AtomicU64,
    finish: AtomicU64,
}

impl<B: OpBody> Model for Counted<B> {
    ghost use Rattle.smk_test_bodies.specs.Counted.{CountedImage};

    ghost Value = { CountedImage B };

    ghost view = { λ a. record { inner = a.inner } };
}

impl<B: OpBody> Counted<B> {
    /// Nothing was called yet.
    pub fn new(inner: B) -> Counted<B>
        ensures { result.inner ≡ inner }
    {
        Counted {
            inner,
            one: AtomicU64::new(0),
            two: AtomicU64::new(0),
            finish: AtomicU64::new(0),
        }
    }

    /// The calls so far.
    pub fn calls(&self) -> Calls {
        Calls {
            one: self.one.load(Ordering::SeqCst),
            two: self.two.load(Ordering::SeqCst),
            finish: self.finish.load(Ordering::SeqCst),
        }
    }
}

impl<B: OpBody> Crew for Counted<B> {
    fn parts(&self) -> u32 {
        self.inner.parts()
    }

    fn arrive(&self, p: u32) {
        self.inner.arrive(p);
    }
}

impl<B: OpBody> OpBody for Counted<B> {
    type Pending = B::Pending;

    ghost meaning = { λ it pending. B.meaning it.inner pending };

    ghost may_capture = { λ it. B.may_capture it.inner };

    ghost leaves1 = { λ it op input want pending. B.leaves1 it.inner op input want pending };

    ghost leaves2 = { λ it op left right want pending. B.leaves2 it.inner op left right want pending };

    fn captures(&self) -> bool {
        self.inner.captures()
    }

    fn lists_at_once(&self) -> bool {
        self.inner.lists_at_once()
    }

    fn keep1(
        &self,
        alloc: Global,
        op: &Op1,
        input: Rel,
        made: Made1,
        want: Dir,
    ) -> Result<(Rel, B::Pending), AllocError> {
        self.one.fetch_add(1, Ordering::SeqCst);
        self.inner.keep1(alloc, op, input, made, want)
    }

    fn keep2(
        &self,
        alloc: Global,
        op: &Op2,
        left: Rel,
        right: Rel,
        made: Made2,
        want: Want,
    ) -> Result<(Rel, B::Pending), AllocError> {
        self.two.fetch_add(1, Ordering::SeqCst);
        self.inner.keep2(alloc, op, left, right, made, want)
    }

    fn finish<R: Threads + Sync>(
        &self,
        rt: &R,
        alloc: Global,
        pending: B::Pending,
    ) -> Result<Local, AllocError> {
        self.finish.fetch_add(1, Ordering::SeqCst);
        self.inner.finish(rt, alloc, pending)
    }
}

/// A step without lineage by the body without steps. It always runs out of memory, as that body promises; the body that counts hands this on.
pub fn refused_step<R: Threads + Sync>(
    rt: &R,
    alloc: Global,
    body: &Counted<NoSteps>,
    op: &Op1,
    input: Rel,
) -> AllocError
    requires { Fits1 (unary_of op.now) input.kinds }
{
    let none = Dir {
        back: false,
        fwd: false,
    };
    match body.apply1(rt, alloc, op, input, none) {
        Ok(_) => unreachable!(),
        Err(e) => e,
    }
}
