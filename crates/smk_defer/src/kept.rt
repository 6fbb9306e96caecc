ghost use Rattle.std.specs.Prelude.{◌≡◌, ◌≤◌, length};
ghost use Rattle.smk_base.specs.declared.rel.TheConstants.{ROW_LIMIT};
ghost use Rattle.smk_defer.specs.Kept.{StepFits, step_keys, step_rows};

use smk_base::{Op1, Op2, Rel};
use smk_body::Want;
use smk_keys::KeyTable;

/// A step of a plan, with one input or with two.
#[derive(Drop)]
pub enum KeptOp {
    One(Op1),
    Two(Op2),
}

/// What the lineage of a step is made from, all of the same step. It has no list of the lineage.
#[derive(Drop)]
pub struct Kept {
    pub op: KeptOp,
    /// The distinct keys of the step by first occurrence: the images of a distinct, the keys of a group, the rows of a union, and for an equijoin the right rows' values in its pairs. Any other step has none.
    pub keys: KeyTable,
    pub left: Rel,
    /// The right input, exactly if the step has two.
    pub right: Option<Rel>,
    pub want: Want,
    /// The number of rows of the step.
    pub out_rows: u32,
    pub ghost fits: { ∥ StepFits op left right ∥₁ },
    pub ghost keys_are: { keys ≡ step_keys op left right },
    pub ghost rows_are: { out_rows ≡ length (step_rows op left right) },
    pub ghost few: { out_rows ≤ ROW_LIMIT },
}
