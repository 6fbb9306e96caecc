// The texts of answers to `ask` lines.
ghost use Rattle.std.specs.Prelude.{◌≡◌, length, IfOk};
ghost use Rattle.smk_base.specs.TreeImage.{ask_image};
ghost use Rattle.smk_model.specs.AskTexts as texts;
ghost use Rattle.smk_model.specs.Texts.{ask_rows_text};

use smk_base::{AskLine, AskReply, ColNames, Rel};
use smk_report::{ask_refusal_text, line_around, with_rows};
use std::alloc::{AllocError, Global};

// The text of rows.
fn rows_text(
    alloc: Global,
    line: &AskLine,
    names: &ColNames,
    rel: &Rel,
) -> Result<Vec<u8>, AllocError>
    requires { length names.now ≡ length rel.now.kinds }
    ensures { IfOk result (λ text. text.items ≡ ask_rows_text line.now.view line.now.table names.now rel.now.rows) }
{
    let front = line_around(
        alloc,
        &[
            b"ask ",
            line.view.as_slice(),
            b" to ",
            line.table.as_slice(),
            b" ",
        ],
        rel.len() as u64,
        &[],
    )?;
    with_rows(alloc, front, names, rel)
}

/// The text of an answer to an `ask` line.
pub fn ask_text(alloc: Global, line: &AskLine, reply: &AskReply) -> Result<Vec<u8>, AllocError>
    requires { texts.IsAskReplyTo (ask_image line.now) reply.now }
    ensures { IfOk result (λ text. text.items ≡ texts.ask_text (ask_image line.now) reply.now) }
{
    match reply {
        AskReply::Rows { names, rel } => rows_text(alloc, line, names, rel),
        AskReply::Refused(refusal) => ask_refusal_text(alloc, line, *refusal),
    }
}
