ghost use Rattle.std.specs.Prelude.{◌≡◌, None, Some, false};

use smk_base::Dir;
use smk_rid::RidMap;

/// Which lineage of a step with two inputs is wanted.
#[derive(Clone, Copy)]
pub struct Want {
    pub left: Dir,
    pub right: Dir,
}

/// The lineage of one step on one of its sides. `back` has a list of input places for each output row, `fwd` a list of output places for each input row.
#[derive(Drop)]
pub struct Side {
    pub back: Option<RidMap>,
    pub fwd: Option<RidMap>,
}

/// The lineage of one step. It has a right side exactly if the step has two inputs.
#[derive(Drop)]
pub struct Local {
    pub left: Side,
    pub right: Option<Side>,
}

const NONE: Dir = Dir {
    back: false,
    fwd: false,
};

impl Want {
    /// Nothing.
    pub fn none() -> Want
        ensures { result ≡ record { left = record { back = false; fwd = false }; right = record { back = false; fwd = false } } }
    {
        Want {
            left: NONE,
            right: NONE,
        }
    }

    /// This of the left side, nothing of the right one.
    pub fn of_left(left: Dir) -> Want
        ensures { result ≡ record { left = left; right = record { back = false; fwd = false } } }
    {
        Want { left, right: NONE }
    }
}

impl Local {
    /// The lineage of a step whose only side this is.
    pub fn of_one(left: Side) -> Local
        ensures { result ≡ record { left = left; right = None } }
    {
        Local { left, right: None }
    }

    /// The lineage of a step with these sides.
    pub fn of_both(left: Side, right: Side) -> Local
        ensures { result ≡ record { left = left; right = Some right } }
    {
        Local {
            left,
            right: Some(right),
        }
    }
}
