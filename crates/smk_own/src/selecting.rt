// The rows of a table that all brushes select.
ghost use Rattle.std.specs.Prelude.{◌≡◌, ◌≢◌, ◌≤◌, ◌+◌, ◌<◌, ◌^◌, [], length, map, Some, IfOk};
ghost use Rattle.smk_base.specs.{CatalogImage.{catalog_image, table_place}, Places.upto, TreeImage.ask_step_image};
ghost use Rattle.smk_model.specs.{Limits.KeepsSteps, OwnAnswers.{selected_answered, selected_on}, Replies.rows_at_rids, ReplyTexts.names_of_table, Session.rows_of_table, Typing.info_at};
ghost use Rattle.smk_model.specs.OwnTexts as texts;
ghost use Rattle.smk_session.specs.{Behind.RidsFit, Sessions.state_of};
ghost use Rattle.smk_own.specs.{Answering.IsOwnAnswer, Image.part_image};

use crate::answer::OwnAnswer;
use crate::narrowing::{numbered_text, placed_text, printed_text};
use crate::own_line::Part;
use crate::part::span;
use smk_base::{AskRefusal, AskReply, AskSteps, Rids, Text, numbers_below};
use smk_outside::Steps;
use smk_report::{steps_refusal_text, unknown_table_text};
use smk_session::Session;
use smk_steps::stepped;
use std::alloc::{AllocError, Global};
use std::sync::ledger::Ledger;
use std::thread::Threads;

// So many numbers from one on.
fn numbers_from(alloc: Global, from: u32, count: u32) -> Result<Vec<u32>, AllocError>
    requires { from + count < 2 ^ 32 }
    ensures { IfOk result (λ numbers. numbers.items ≡ map (λ k. from + k) (upto count)) }
{
    let mut numbers = Vec::with_capacity(alloc, count as usize)?;
    for k in 0..count {
        numbers.push(from + k)?;
    }
    Ok(numbers)
}

// A part of all rows of a table. Only the numbers of the part are made.
fn all_text<L: Ledger>(
    alloc: Global,
    session: &Session,
    part: Option<Part>,
    words: &[&[u8]],
    table: u32,
    steps: &mut Steps<L>,
) -> Result<Vec<u8>, AllocError>
    requires { table < length session.now.catalog.tables }
    ensures text { IfOk result (λ text. text.items ≡ texts.placed_text (part_image part) (map (λ w. w.now) words.now) (names_of_table (Some (info_at session.now.catalog.tables table))) (upto (length (rows_of_table (state_of session.now) table))) (rows_at_rids (catalog_image session.now.catalog) (state_of session.now) table (upto (length (rows_of_table (state_of session.now) table)))).rows) }
    ensures looks { steps.new ≤ steps.old + length (texts.part_of (part_image part) (upto (length (rows_of_table (state_of session.now) table)))) }
{
    let all = session.table_len(table);
    let (from, count) = span(part, all);
    let printed = numbers_from(alloc, from, count)?;
    printed_text(alloc, session, words, all, table, printed.as_slice(), steps)
}

// A part of the rows of a table that every brush on it selects.
fn rows_text<L: Ledger>(
    alloc: Global,
    session: &Session,
    part: Option<Part>,
    name: &Text,
    table: u32,
    steps: &mut Steps<L>,
) -> Result<OwnAnswer, AllocError>
    requires there { table < length session.now.catalog.tables }
    requires named { table_place (catalog_image session.now.catalog) name.now ≡ Some table }
    ensures told { IfOk result (λ told. IsOwnAnswer told (selected_answered (catalog_image session.now.catalog) (state_of session.now) (part_image part) name.now [])) }
    ensures looks { steps.new ≤ steps.old + (selected_answered (catalog_image session.now.catalog) (state_of session.now) (part_image part) name.now []).looks }
{
    let words: [&[u8]; 3] = [b"selected ", name.as_slice(), b" "];
    let text = match session.selected_on(alloc, table)? {
        Some(rids) => placed_text(alloc, session, part, &words, table, rids.as_slice(), steps)?,
        None => all_text(alloc, session, part, &words, table, steps)?,
    };
    Ok(OwnAnswer {
        text,
        refused: false,
    })
}

// The rids of a table that every brush on it selects.
fn rids_selected(alloc: Global, session: &Session, table: u32) -> Result<Rids, AllocError>
    requires { table < length session.now.catalog.tables }
    ensures rids { IfOk result (λ rids. rids ≡ selected_on (state_of session.now) table) }
    ensures fit { IfOk result (RidsFit (length (rows_of_table (state_of session.now) table))) }
{
    match session.selected_on(alloc, table)? {
        Some(rids) => Ok(rids),
        None => Ok(Rids::from_vec(numbers_below(alloc, session.table_len(table))?)),
    }
}

// A part of what steps make of the rows of a table that every brush on it selects.
fn steps_text<R: Threads + Sync, L: Ledger>(
    rt: &R,
    alloc: Global,
    session: &Session,
    part: Option<Part>,
    name: &Text,
    table: u32,
    asked: &AskSteps,
    steps: &mut Steps<L>,
) -> Result<OwnAnswer, AllocError>
    requires there { table < length session.now.catalog.tables }
    requires named { table_place (catalog_image session.now.catalog) name.now ≡ Some table }
    requires kept { KeepsSteps (map ask_step_image asked.now) }
    requires some { length asked.now ≢ 0 }
    ensures told { IfOk result (λ told. IsOwnAnswer told (selected_answered (catalog_image session.now.catalog) (state_of session.now) (part_image part) name.now (map ask_step_image asked.now))) }
    ensures looks { steps.new ≤ steps.old + (selected_answered (catalog_image session.now.catalog) (state_of session.now) (part_image part) name.now (map ask_step_image asked.now)).looks }
{
    let rids = rids_selected(alloc, session, table)?;
    let rows = session.rows_at(alloc, table, rids.as_slice(), steps)?;
    drop(rids);
    let columns = &session.catalog().tables.as_slice()[table as usize].cols;
    match stepped(rt, alloc, columns, asked, rows)? {
        AskReply::Rows { names, rel } => Ok(OwnAnswer {
            text: numbered_text(
                alloc,
                part,
                &[b"selected ", name.as_slice(), b" "],
                &names,
                &rel,
            )?,
            refused: false,
        }),
        AskReply::Refused(AskRefusal::Steps { at, fault }) => Ok(OwnAnswer {
            text: steps_refusal_text(alloc, at, fault)?,
            refused: true,
        }),
        AskReply::Refused(AskRefusal::Back(_)) => unreachable!(),
    }
}

/// The rows of a table that every brush on it selects, with their rids, or what steps make of them; a part of them may be printed. The session stays as it is. Each row that is printed, or that the steps go over, is one look, even if they are refused.
pub fn selected<R: Threads + Sync, L: Ledger>(
    rt: &R,
    alloc: Global,
    session: &Session,
    part: Option<Part>,
    table: &Text,
    asked: &AskSteps,
    steps: &mut Steps<L>,
) -> Result<OwnAnswer, AllocError>
    requires { KeepsSteps (map ask_step_image asked.now) }
    ensures told { IfOk result (λ told. IsOwnAnswer told (selected_answered (catalog_image session.now.catalog) (state_of session.now) (part_image part) table.now (map ask_step_image asked.now))) }
    ensures looks { steps.new ≤ steps.old + (selected_answered (catalog_image session.now.catalog) (state_of session.now) (part_image part) table.now (map ask_step_image asked.now)).looks }
{
    match session.catalog().table_place(table) {
        None => Ok(OwnAnswer {
            text: unknown_table_text(alloc, table.as_slice())?,
            refused: true,
        }),
        Some(t) => {
            if asked.as_slice().is_empty() {
                rows_text(alloc, session, part, table, t as u32, steps)
            } else {
                steps_text(rt, alloc, session, part, table, t as u32, asked, steps)
            }
        }
    }
}
