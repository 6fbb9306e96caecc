ghost use Rattle.std.specs.Prelude.{◌≡◌, ◌+◌, ◌≤◌, IfOk};
ghost use Rattle.smk_base.specs.declared.rel.TheConstants.{ROW_LIMIT};
ghost use Rattle.smk_model.specs.Ways.{Own, Sources, Targets, back_of, fwd_of};
ghost use Rattle.smk_body.specs.{Bounds.{AreBelow, AreTurned, stretch}, Locals.side_of};

use crate::keep::lists::{given_lists_if, own_side, side_of_stretch, turned_lists_unless};
use crate::keep::local::Side;
use smk_base::Dir;
use smk_rid::RidMap;
use std::alloc::{AllocError, Global};
use std::marker::Model;

/// How the rows of a side and those of a step belong together. Contracts see the way.
#[derive(Drop)]
pub struct Way {
    held: Held,
}

#[derive(Drop)]
enum Held {
    Own(u32),
    // Each with the lists that go against it, where these were made with the rows.
    Sources(Vec<u32>, u32, Option<RidMap>),
    Targets(Vec<u32>, u32, Option<RidMap>),
    // The targets are so many numbers from one on.
    Stretch(u32, u32, u32),
}

impl Model for Way {
    ghost use Rattle.smk_model.specs.Ways as ways;
    ghost use Rattle.smk_body.specs.Bounds.{IsHeld, way_of};

    ghost Value = { ways.Way };

    ghost view = { λ a. way_of a.held };

    ghost invariant = { λ a. IsHeld a.held };
}

impl Way {
    /// Each of so many rows is its own.
    pub fn own(rows: u32) -> Way
        requires { rows ≤ ROW_LIMIT }
        ensures { result ≡ Own rows }
    {
        Way {
            held: Held::Own(rows),
        }
    }

    /// Each output row comes from one of so many input rows. The forward lists are made here, later or never.
    pub fn sources(of: Vec<u32>, inputs: u32, fwd: Option<RidMap>) -> Way
        requires below { AreBelow inputs of.items }
        requires turned { AreTurned inputs of.items fwd }
        ensures { result ≡ Sources of.items inputs }
    {
        Way {
            held: Held::Sources(of, inputs, fwd),
        }
    }

    /// Each input row reaches one of so many output rows. The backward lists may be given with it.
    pub fn targets(of: Vec<u32>, outputs: u32, back: Option<RidMap>) -> Way
        requires below { AreBelow outputs of.items }
        requires turned { AreTurned outputs of.items back }
        ensures { result ≡ Targets of.items outputs }
    {
        Way {
            held: Held::Targets(of, outputs, back),
        }
    }

    /// The input rows reach a stretch of so many output rows, in order.
    pub fn stretch(from: u32, len: u32, outputs: u32) -> Way
        requires within { from + len ≤ outputs }
        requires few { outputs ≤ ROW_LIMIT }
        ensures { result ≡ Targets (stretch from len) outputs }
    {
        Way {
            held: Held::Stretch(from, len, outputs),
        }
    }

    /// The wanted lists of the side. Lists of one row each use the memory of the sources or of the targets.
    pub fn into_side(self, alloc: Global, want: Dir) -> Result<Side, AllocError>
        ensures { IfOk result (λ side. side ≡ side_of want (back_of self) (fwd_of self)) }
    {
        match self.held {
            Held::Own(rows) => own_side(alloc, rows, want),
            Held::Sources(of, inputs, fwd) => {
                let fwd = turned_lists_unless(alloc, fwd, want.fwd, of.as_slice(), inputs)?;
                let back = given_lists_if(want.back, of, inputs);
                Ok(Side { back, fwd })
            }
            Held::Targets(of, outputs, back) => {
                let back = turned_lists_unless(alloc, back, want.back, of.as_slice(), outputs)?;
                let fwd = given_lists_if(want.fwd, of, outputs);
                Ok(Side { back, fwd })
            }
            Held::Stretch(from, len, outputs) => side_of_stretch(alloc, from, len, outputs, want),
        }
    }
}
