// A view that is too big over the longer table, as the line's refusal says it.
ghost use Rattle.std.specs.Prelude.{◌≡◌, ℕ, true, is_some, List, Option, IfOk, OnOk};
ghost use Rattle.smk_model.specs.{Opening.ViewFault, Session.Workbook};
ghost use Rattle.smk_session.specs.Opened.{IsStartFault};
ghost use Rattle.smk_grow.specs.{Images.told_unless, Told.told_text};

use smk_base::{AppendRefusal, AppendReply};
use smk_session::StartFault;
use std::alloc::{AllocError, Global};

// What is answered then, without a text.
pub(crate) fn refused(
    alloc: Global,
    fault: StartFault,
) -> Result<(AppendReply, Vec<u8>), AllocError>
    ensures told { (found : Option ViewFault) (rows : ℕ) (views : List ℕ) → IsStartFault fault found → IfOk result (λ told. told.0 ≡ told_unless found rows views) }
    ensures found { (found : Option ViewFault) → IsStartFault fault found → OnOk result (is_some found ≡ true) }
    ensures text { (said : Option (List ℕ)) (book : Workbook) → IfOk result (λ told. told.1.items ≡ told_text said book told.0) }
{
    match fault {
        StartFault::Rows { view, node } => {
            let refusal = AppendRefusal::ViewRows { view, node };
            Ok((AppendReply::Refused(refusal), Vec::new(alloc)))
        }
        StartFault::Pairs { view, node, table } => {
            let refusal = AppendRefusal::ViewPairs { view, node, table };
            Ok((AppendReply::Refused(refusal), Vec::new(alloc)))
        }
        StartFault::NoMemory => Err(AllocError),
    }
}
