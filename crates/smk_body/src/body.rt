ghost use Rattle.std.specs.{Thread.IsSync, Prelude.{◌≡◌, ◌<◌, ◌≤◌, ◌||◌, Bool, length, IfOk, IfErr, OnOk, IsTrue}};
ghost use Rattle.smk_base.specs.{PlanImage.{binary_of, unary_of}, Plans.{Binary, Unary}, Rels.Relation, declared.book.plan.Dir.Dir, declared.rel.TheConstants.ROW_LIMIT};
ghost use Rattle.smk_model.specs.{Plain.{step1, step2}, Kinds.{Fits1, Fits2, kinds1, kinds2}};
ghost use Rattle.smk_body.specs.{Locals.{local1, local2, is_nothing, is_nothing2}, Made.{IsMade1, IsMade2}, declared.keep.local.Local.Local, declared.keep.local.Want.Want};

use crate::fault::OpFault;
use crate::keep::local::{Local, Want};
use crate::step::{Made1, Made2, make1, make2};
use smk_base::{Dir, Op1, Op2, Rel};
use smk_jobs::{Crew, Work};
use std::alloc::{AllocError, Global};
use std::marker::Sync;
use std::thread::Threads;

/// How the steps of a plan are carried out: their rows, and the wanted lineage of each.
///
/// A caller asks `captures` whether lineage may be wanted, has each step carried out by `apply1` or `apply2`, which give its rows and what is pending of its lineage, and has that made by `finish`.
///
/// A step finds what makes its rows, makes them, and the body keeps what it likes of it. So a body says what it keeps (`keep1`, `keep2`), how `finish` makes the lineage of that, and whether lists are made with the rows.
pub trait OpBody: Crew {
    /// The lineage of a step, or what it is made from.
    type Pending: Drop;

    // The lineage that `finish` will give.
    ghost meaning: { Self → Self.Pending → Local };

    // Whether lineage may be wanted.
    ghost may_capture: { Self → Bool };

    // What a body promises of what it keeps of a step with one input, beyond its meaning. One that says nothing promises nothing.
    ghost leaves1: { Self → Unary → Relation → Dir → Self.Pending → Type 0 } = { λ _ _ _ _ _. Unit {0} };

    // What it promises for a step with two inputs.
    ghost leaves2: { Self → Binary → Relation → Relation → Want → Self.Pending → Type 0 } = { λ _ _ _ _ _ _. Unit {0} };

    /// Whether this body can be asked for lineage.
    fn captures(&self) -> bool
        ensures { result ≡ may_capture self.now };

    /// A step over its input: its rows, and the wanted lineage, still pending. Lineage may be wanted only if the body captures.
    final fn apply1<R: Threads + Sync>(
        &self,
        rt: &R,
        alloc: Global,
        op: &Op1,
        input: Rel,
        want: Dir,
    ) -> Result<(Rel, Self::Pending), AllocError>
    where
        Self: Sync + Sized,
        requires fits { Fits1 (unary_of op.now) input.kinds }
        requires captured { IsTrue (may_capture self.now || is_nothing want) }
        ensures kinds { IfOk result (λ made. made.0.kinds ≡ kinds1 (unary_of op.now) input.kinds) }
        ensures rows { IfOk result (λ made. made.0.rows ≡ step1 (unary_of op.now) input.rows) }
        ensures lineage { IfOk result (λ made. meaning self.now made.1 ≡ local1 (unary_of op.now) input.rows want) }
        ensures left { IfOk result (λ made. leaves1 self.now (unary_of op.now) input want made.1) }
    {
        let input = input.shared(alloc)?;
        let work = Work {
            rt,
            alloc,
            crew: self,
        };
        let at_once = self.lists_at_once();
        let asked = Dir {
            back: at_once && want.back,
            fwd: at_once && want.fwd,
        };
        let made = make1(&work, op, &input, asked)?;
        self.keep1(alloc, op, input, made, want)
    }

    /// A step over its two inputs, likewise. It is refused for `Rows` exactly if it has more than 1,048,576 rows.
    final fn apply2<R: Threads + Sync>(
        &self,
        rt: &R,
        alloc: Global,
        op: &Op2,
        left: Rel,
        right: Rel,
        want: Want,
    ) -> Result<(Rel, Self::Pending), OpFault>
    where
        Self: Sync + Sized,
        requires fits { Fits2 (binary_of op.now) left.kinds right.kinds }
        requires captured { IsTrue (may_capture self.now || is_nothing2 want) }
        ensures kinds { IfOk result (λ made. made.0.kinds ≡ kinds2 (binary_of op.now) left.kinds right.kinds) }
        ensures rows { IfOk result (λ made. made.0.rows ≡ step2 (binary_of op.now) left.rows right.rows) }
        ensures lineage { IfOk result (λ made. meaning self.now made.1 ≡ local2 (binary_of op.now) left.rows right.rows want) }
        ensures left { IfOk result (λ made. leaves2 self.now (binary_of op.now) left right want made.1) }
        ensures few { OnOk result (length (step2 (binary_of op.now) left.rows right.rows) ≤ ROW_LIMIT) }
        ensures many { IfErr result (λ e. e ≡ OpFault.Rows → ROW_LIMIT < length (step2 (binary_of op.now) left.rows right.rows)) }
    {
        let left = left.shared(alloc)?;
        let right = right.shared(alloc)?;
        let work = Work {
            rt,
            alloc,
            crew: self,
        };
        let asked = self.lists_at_once() && want.right.fwd;
        let made = make2(&work, op, &left, &right, asked)?;
        let kept = self.keep2(alloc, op, left, right, made, want)?;
        Ok(kept)
    }

    /// The lineage that is pending.
    fn finish<R: Threads + Sync>(
        &self,
        rt: &R,
        alloc: Global,
        pending: Self::Pending,
    ) -> Result<Local, AllocError>
        ensures { IfOk result (λ local. local ≡ meaning self.now pending) };

    /// Whether the wanted lists that run against the way of a side are made with the rows, before the body keeps anything. This only matters for speed.
    fn lists_at_once(&self) -> bool;

    /// What is kept of a step with one input, and its rows as they are.
    fn keep1(
        &self,
        alloc: Global,
        op: &Op1,
        input: Rel,
        made: Made1,
        want: Dir,
    ) -> Result<(Rel, Self::Pending), AllocError>
        requires fits { Fits1 (unary_of op.now) input.kinds }
        requires captured { IsTrue (may_capture self.now || is_nothing want) }
        requires made { IsMade1 (unary_of op.now) input made }
        ensures rel { IfOk result (λ kept. kept.0 ≡ made.rel) }
        ensures lineage { IfOk result (λ kept. meaning self.now kept.1 ≡ local1 (unary_of op.now) input.rows want) }
        ensures left { IfOk result (λ kept. leaves1 self.now (unary_of op.now) input want kept.1) };

    /// What is kept of a step with two inputs, and its rows as they are.
    fn keep2(
        &self,
        alloc: Global,
        op: &Op2,
        left: Rel,
        right: Rel,
        made: Made2,
        want: Want,
    ) -> Result<(Rel, Self::Pending), AllocError>
        requires fits { Fits2 (binary_of op.now) left.kinds right.kinds }
        requires captured { IsTrue (may_capture self.now || is_nothing2 want) }
        requires made { IsMade2 (binary_of op.now) left right made }
        ensures rel { IfOk result (λ kept. kept.0 ≡ made.rel) }
        ensures lineage { IfOk result (λ kept. meaning self.now kept.1 ≡ local2 (binary_of op.now) left.rows right.rows want) }
        ensures left { IfOk result (λ kept. leaves2 self.now (binary_of op.now) left right want kept.1) };
}
