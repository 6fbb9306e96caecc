// Lines of a script over the rows that are selected now, and lines of whose rows a part is printed.
ghost use Rattle.std.specs.Prelude.{◌≡◌, ◌≤◌, ◌<◌, ◌+◌, ◌∷◌, codes, false, true, cond, length, map, slice_index_or, IfOk};
ghost use Rattle.smk_base.specs.{CatalogImage.catalog_image, TreeImage.ask_image};
ghost use Rattle.smk_base.specs.declared.book.tree.Line.TheVariants as lines;
ghost use Rattle.smk_model.specs.{Asks.{ask_over, back_line, is_ask_refused}, AskTexts.IsAskReplyTo, Limits.KeepsAsk, Looks.looks_of_rows, OwnAnswers.{narrowed_answered, narrowed_ask_answered, narrowed_reply}, Replies.rows_at_rids, ReplyTexts.names_of_table, Session.rows_of_table, Texts.{ask_words, back_words, rows_text}, Typing.info_at};
ghost use Rattle.smk_model.specs.OwnLines as owns;
ghost use Rattle.smk_model.specs.OwnTexts as texts;
ghost use Rattle.smk_session.specs.{Behind.{BehindFits, IsBehind, RidsFit}, Sessions.state_of};
ghost use Rattle.smk_own.specs.{Answering.{IsOwnAnswer, rids_told}, Image.part_image};

use crate::answer::OwnAnswer;
use crate::own_line::Part;
use crate::part::{part_of, span};
use smk_base::{AskLine, AskRefusal, AskReply, ColNames, Line, Rel, Reply, Rids, Text, Then};
use smk_outside::{Gate, Steps};
use smk_report::{
    ask_refusal_text, line_around, refusal_text, view_named, with_numbered_part, with_placed_rows,
};
use smk_rid::intersection;
use smk_session::{RowsBehind, Session, Turned};
use smk_steps::stepped;
use std::alloc::{AllocError, Global};
use std::sync::ledger::Ledger;
use std::thread::Threads;

// An answer, and a refusal.
fn answered(text: Vec<u8>) -> OwnAnswer
    ensures text { result.text ≡ text }
    ensures refused { result.refused ≡ false }
{
    OwnAnswer {
        text,
        refused: false,
    }
}

fn refused(text: Vec<u8>) -> OwnAnswer
    ensures text { result.text ≡ text }
    ensures refused { result.refused ≡ true }
{
    OwnAnswer {
        text,
        refused: true,
    }
}

/// A part of numbered rows; the heading counts all rows.
pub(crate) fn numbered_text(
    alloc: Global,
    part: Option<Part>,
    words: &[&[u8]],
    names: &ColNames,
    rel: &Rel,
) -> Result<Vec<u8>, AllocError>
    requires { length names.now ≡ length rel.now.kinds }
    ensures { IfOk result (λ text. text.items ≡ texts.numbered_text (part_image part) (map (λ w. w.now) words.now) names.now rel.now.rows) }
{
    let rows = rel.len();
    let (from, count) = span(part, rows);
    let front = line_around(alloc, words, rows as u64, &[])?;
    with_numbered_part(alloc, front, names, rel, from, count)
}

// A part of the content of a view.
fn show_part<R: Threads + Sync, G: Gate + Sync, L: Ledger>(
    rt: &R,
    alloc: Global,
    session: &Session,
    part: Option<Part>,
    line: &Line,
    view: &Text,
    gate: &G,
    steps: &mut Steps<L>,
) -> Result<OwnAnswer, AllocError>
    requires { line.now ≡ lines.Show view.now }
    ensures told { IfOk result (λ told. IsOwnAnswer told (narrowed_answered (catalog_image session.now.catalog) (state_of session.now) (part_image part) false line.now)) }
    ensures looks { steps.new ≤ steps.old }
{
    let turn = session.turn(rt, alloc, line, gate, steps)?;
    match &turn.reply {
        Reply::View { rel } => match view_named(session.catalog(), view) {
            Some(info) => Ok(answered(numbered_text(
                alloc,
                part,
                &[b"view ", view.as_slice(), b" "],
                &info.names,
                rel,
            )?)),
            None => unreachable!(),
        },
        Reply::Refused(refusal) => Ok(refused(refusal_text(
            alloc,
            session.catalog(),
            line,
            *refusal,
        )?)),
        Reply::Back { .. }
        | Reply::Grouped { .. }
        | Reply::Fwd { .. }
        | Reply::Brush { .. }
        | Reply::Cleared
        | Reply::ClearedOne { .. } => unreachable!(),
    }
}

// Of the rids that a line asks for those that are selected now for its view, or all of them.
fn narrowed_rids(
    alloc: Global,
    session: &Session,
    now: bool,
    found: RowsBehind,
) -> Result<Rids, AllocError>
    requires { BehindFits session.now.catalog session.now.tables found }
    ensures rids { IfOk result (λ rids. rids ≡ rids_told (catalog_image session.now.catalog) (state_of session.now) now found) }
    ensures fit { IfOk result (RidsFit (length (rows_of_table (state_of session.now) found.table))) }
{
    let RowsBehind { view, table, rids } = found;
    if !now {
        return Ok(rids);
    }
    match session.selected_for(alloc, view, table)? {
        Some(selected) => intersection(alloc, rids.as_slice(), selected.as_slice()),
        None => Ok(rids),
    }
}

/// Rows of a table with these rids, under a heading of words and how many rows there are in all. Only these rows are looked at.
pub(crate) fn printed_text<L: Ledger>(
    alloc: Global,
    session: &Session,
    words: &[&[u8]],
    all: u32,
    table: u32,
    printed: &[u32],
    steps: &mut Steps<L>,
) -> Result<Vec<u8>, AllocError>
    requires table { table < length session.now.catalog.tables }
    requires rids { RidsFit (length (rows_of_table (state_of session.now) table)) printed.now }
    ensures text { IfOk result (λ text. text.items ≡ rows_text (map (λ w. w.now) words.now) all (codes "rid" ∷ names_of_table (Some (info_at session.now.catalog.tables table))) (λ i. slice_index_or printed.now i 0) (rows_at_rids (catalog_image session.now.catalog) (state_of session.now) table printed.now).rows) }
    ensures looks { steps.new ≤ steps.old + length printed.now }
{
    let rows = session.rows_at(alloc, table, printed, steps)?;
    let columns = &session.catalog().tables.as_slice()[table as usize].cols;
    let front = line_around(alloc, words, all as u64, &[])?;
    with_placed_rows(alloc, front, columns, printed, &rows)
}

/// A part of rows with their rids; the heading counts all rows.
pub(crate) fn placed_text<L: Ledger>(
    alloc: Global,
    session: &Session,
    part: Option<Part>,
    words: &[&[u8]],
    table: u32,
    rids: &[u32],
    steps: &mut Steps<L>,
) -> Result<Vec<u8>, AllocError>
    requires table { table < length session.now.catalog.tables }
    requires rids { RidsFit (length (rows_of_table (state_of session.now) table)) rids.now }
    ensures text { IfOk result (λ text. text.items ≡ texts.placed_text (part_image part) (map (λ w. w.now) words.now) (names_of_table (Some (info_at session.now.catalog.tables table))) rids.now (rows_at_rids (catalog_image session.now.catalog) (state_of session.now) table rids.now).rows) }
    ensures looks { steps.new ≤ steps.old + length (texts.part_of (part_image part) rids.now) }
{
    let _rows = session.table_len(table);
    let printed = part_of(part, rids);
    printed_text(
        alloc,
        session,
        words,
        rids.len() as u32,
        table,
        printed,
        steps,
    )
}

// A part of the rows that a `back` line for this view and this table finds.
fn back_text<L: Ledger>(
    alloc: Global,
    session: &Session,
    part: Option<Part>,
    now: bool,
    view: &Text,
    table: &Text,
    found: RowsBehind,
    steps: &mut Steps<L>,
) -> Result<Vec<u8>, AllocError>
    requires { BehindFits session.now.catalog session.now.tables found }
    ensures text { IfOk result (λ text. text.items ≡ texts.placed_text (part_image part) (back_words view.now table.now) (names_of_table (Some (info_at session.now.catalog.tables found.table))) (rids_told (catalog_image session.now.catalog) (state_of session.now) now found) (rows_at_rids (catalog_image session.now.catalog) (state_of session.now) found.table (rids_told (catalog_image session.now.catalog) (state_of session.now) now found)).rows) }
    ensures looks { steps.new ≤ steps.old + length (texts.part_of (part_image part) (rids_told (catalog_image session.now.catalog) (state_of session.now) now found)) }
{
    let number = found.table;
    let rids = narrowed_rids(alloc, session, now, found)?;
    let words: [&[u8]; 5] = [b"back ", view.as_slice(), b" to ", table.as_slice(), b" "];
    placed_text(alloc, session, part, &words, number, rids.as_slice(), steps)
}

/// The answer to a `show` line, or to a `back` line for rows, over the rows that are selected now for its view, or with only a part of its rows printed. The session stays as it is. Each row of a table that is printed is one look, whatever the marks reach.
pub fn narrowed<R: Threads + Sync, G: Gate + Sync, L: Ledger>(
    rt: &R,
    alloc: Global,
    session: &Session,
    part: Option<Part>,
    now: bool,
    line: &Line,
    gate: &G,
    steps: &mut Steps<L>,
) -> Result<OwnAnswer, AllocError>
    requires { cond now (owns.has_rows_behind line.now) (owns.has_rows line.now) ≡ true }
    ensures told { IfOk result (λ told. IsOwnAnswer told (narrowed_answered (catalog_image session.now.catalog) (state_of session.now) (part_image part) now line.now)) }
    ensures looks { steps.new ≤ steps.old + (narrowed_answered (catalog_image session.now.catalog) (state_of session.now) (part_image part) now line.now).looks }
{
    match line {
        Line::Show { view } => show_part(rt, alloc, session, part, line, view, gate, steps),
        Line::Back {
            view,
            marks,
            table,
            then,
        } => match session.rows_behind(alloc, view, marks, table, then) {
            Ok(found) => Ok(answered(back_text(
                alloc, session, part, now, view, table, found, steps,
            )?)),
            Err(Turned::Refused(refusal)) => Ok(refused(refusal_text(
                alloc,
                session.catalog(),
                line,
                refusal,
            )?)),
            Err(Turned::Exhausted) => Err(AllocError),
        },
        Line::Fwd { .. } | Line::Brush { .. } | Line::Clear | Line::ClearOne { .. } =>
            unreachable!(),
    }
}

// A part of the answer of an `ask` line's steps, or the line's refusal.
fn stepped_text(
    alloc: Global,
    part: Option<Part>,
    line: &AskLine,
    told: &AskReply,
) -> Result<OwnAnswer, AllocError>
    requires { IsAskReplyTo (ask_image line.now) told.now }
    ensures text { IfOk result (λ answer. answer.text.items ≡ texts.stepped_text (part_image part) (ask_words line.now.view line.now.table) (ask_image line.now) told.now) }
    ensures refused { IfOk result (λ answer. answer.refused ≡ is_ask_refused told.now) }
{
    match told {
        AskReply::Rows { names, rel } => Ok(answered(numbered_text(
            alloc,
            part,
            &[
                b"ask ",
                line.view.as_slice(),
                b" to ",
                line.table.as_slice(),
                b" ",
            ],
            names,
            rel,
        )?)),
        AskReply::Refused(refusal) => Ok(refused(ask_refusal_text(alloc, line, *refusal)?)),
    }
}

// The answer to an `ask` line whose `back` line finds these rows.
fn asked_over<R: Threads + Sync, L: Ledger>(
    rt: &R,
    alloc: Global,
    session: &Session,
    now: bool,
    line: &AskLine,
    found: RowsBehind,
    steps: &mut Steps<L>,
) -> Result<AskReply, AllocError>
    requires kept { KeepsAsk (ask_image line.now) }
    requires behind { IsBehind (catalog_image session.now.catalog) (state_of session.now) (back_line (ask_image line.now)) found }
    requires fits { BehindFits session.now.catalog session.now.tables found }
    ensures told { IfOk result (λ told. told ≡ ask_over (catalog_image session.now.catalog) (ask_image line.now) (narrowed_reply (catalog_image session.now.catalog) (state_of session.now) now (back_line (ask_image line.now)))) }
    ensures fits { IfOk result (IsAskReplyTo (ask_image line.now)) }
    ensures looks { steps.new ≤ steps.old + looks_of_rows (narrowed_reply (catalog_image session.now.catalog) (state_of session.now) now (back_line (ask_image line.now))) }
{
    let table = found.table;
    let rids = narrowed_rids(alloc, session, now, found)?;
    let rows = session.rows_at(alloc, table, rids.as_slice(), steps)?;
    drop(rids);
    let columns = &session.catalog().tables.as_slice()[table as usize].cols;
    stepped(rt, alloc, columns, &line.steps, rows)
}

/// The answer to an `ask` line, over the rows that are selected now for its view, or with only a part of its rows printed. The session stays as it is. Each row that the steps go over is one look, even if they are refused.
pub fn narrowed_ask<R: Threads + Sync, L: Ledger>(
    rt: &R,
    alloc: Global,
    session: &Session,
    part: Option<Part>,
    now: bool,
    line: &AskLine,
    steps: &mut Steps<L>,
) -> Result<OwnAnswer, AllocError>
    requires { KeepsAsk (ask_image line.now) }
    ensures told { IfOk result (λ told. IsOwnAnswer told (narrowed_ask_answered (catalog_image session.now.catalog) (state_of session.now) (part_image part) now (ask_image line.now))) }
    ensures looks { steps.new ≤ steps.old + (narrowed_ask_answered (catalog_image session.now.catalog) (state_of session.now) (part_image part) now (ask_image line.now)).looks }
{
    match session.rows_behind(alloc, &line.view, &line.marks, &line.table, &Then::Plain) {
        Ok(found) => {
            let told = asked_over(rt, alloc, session, now, line, found, steps)?;
            stepped_text(alloc, part, line, &told)
        }
        Err(Turned::Refused(refusal)) => Ok(refused(ask_refusal_text(
            alloc,
            line,
            AskRefusal::Back(refusal),
        )?)),
        Err(Turned::Exhausted) => Err(AllocError),
    }
}
