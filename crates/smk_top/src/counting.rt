// Counts of parts of a report together.
ghost use Rattle.std.specs.Prelude.{◌≡◌, ◌+◌, IfOk, IfErr};
ghost use Rattle.smk_inputs.specs.declared.stop.Stop.TheVariants.{Exhausted as exhausted};
ghost use Rattle.smk_top.specs.Counting.{counts_together};

use crate::counts::Counts;
use smk_inputs::Stop;

/// Nothing.
pub const NOTHING: Counts = Counts {
    replies: 0,
    refused: 0,
    unread: 0,
    bytes: 0,
};

// The sum of two counts. Where 64 bits can't hold it, no memory could hold what was counted.
fn sum(a: u64, b: u64) -> Result<u64, Stop>
    ensures is { IfOk result (λ both. both ≡ a + b) }
    ensures wants { IfErr result (λ stop. stop ≡ exhausted) }
{
    match a.checked_add(b) {
        Some(both) => Ok(both),
        None => Err(Stop::Exhausted),
    }
}

/// The counts of one part and of another part together.
pub fn together(a: Counts, b: Counts) -> Result<Counts, Stop>
    ensures is { IfOk result (λ both. both ≡ counts_together a b) }
    ensures wants { IfErr result (λ stop. stop ≡ exhausted) }
{
    Ok(Counts {
        replies: sum(a.replies, b.replies)?,
        refused: sum(a.refused, b.refused)?,
        unread: sum(a.unread, b.unread)?,
        bytes: sum(a.bytes, b.bytes)?,
    })
}
