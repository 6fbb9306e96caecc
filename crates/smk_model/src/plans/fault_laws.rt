//! Laws of the first fault of a plan's nodes. Each is an empty function whose contract is the law.

ghost use Rattle.smk_model.specs.NodeFaults.{FirstOfAll, NothingAsked};

/// The first fault is the first of all: node by node in post-order, at a node its rows before its pairs, and these in the order of the tables.
#[tactic(auto, using(crate::proofs::NodeFaults::first_of_all))]
pub fn first_of_all()
    ensures { FirstOfAll }
{}

/// If no table is needed, the first fault of a plan's nodes is the first node with too many rows.
#[tactic(auto, using(crate::proofs::NodeFaults::nothing_is_asked))]
pub fn nothing_asked()
    ensures { NothingAsked }
{}
