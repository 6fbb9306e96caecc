ghost use Rattle.std.specs.Prelude.{◌≡◌, ◌≤◌, ◌+◌, IfOk};
ghost use Rattle.smk_base.specs.{CatalogImage.catalog_image, TreeImage.ask_image};
ghost use Rattle.smk_model.specs.Asks as asks;
ghost use Rattle.smk_model.specs.{AskTexts.{IsAskReplyTo, IsBackReply}, Limits.KeepsSteps};
ghost use Rattle.smk_model.specs.Replies as replies;
ghost use Rattle.smk_session.specs.Sessions.{state_of};

use smk_base::{AskLine, AskRefusal, AskReply, Catalog, Line, Marks, Reply, Then};
use smk_outside::{Gate, Steps};
use smk_report::table_named;
use smk_session::Session;
use smk_steps::stepped;
use std::alloc::{AllocError, Global};
use std::sync::ledger::Ledger;
use std::thread::Threads;

// A copy of marks.
fn marks_of(alloc: Global, marks: &Marks) -> Result<Marks, AllocError>
    ensures { IfOk result (λ copy. copy ≡ marks.now) }
{
    match marks {
        Marks::All => Ok(Marks::All),
        Marks::Listed(rows) => Ok(Marks::Listed(rows.copy(alloc)?)),
    }
}

// The `back` line within a line.
fn back_line(alloc: Global, line: &AskLine) -> Result<Line, AllocError>
    ensures { IfOk result (λ back. back ≡ asks.back_line (ask_image line.now)) }
{
    let view = line.view.copy(alloc)?;
    let marks = marks_of(alloc, &line.marks)?;
    let table = line.table.copy(alloc)?;
    Ok(Line::Back {
        view,
        marks,
        table,
        then: Then::Plain,
    })
}

// The reply to the `back` line within a line. The session stays as it is.
fn back_reply<R: Threads + Sync, G: Gate + Sync, L: Ledger>(
    rt: &R,
    alloc: Global,
    session: &mut Session,
    line: &AskLine,
    gate: &G,
    steps: &mut Steps<L>,
) -> Result<Reply, AllocError>
    ensures reply { IfOk result (λ told. told ≡ (replies.reply (catalog_image session.old.catalog) (state_of session.old) (asks.back_line (ask_image line.now))).0) }
    ensures same { session.new ≡ session.old }
    ensures looks { steps.new ≤ steps.old + asks.ask_looks (catalog_image session.old.catalog) (state_of session.old) (ask_image line.now) }
{
    let back = back_line(alloc, line)?;
    let reply = session.answer(rt, alloc, &back, gate, steps);
    drop(back);
    reply
}

// The answer to a line by the reply to its `back` line.
fn told_over<R: Threads + Sync>(
    rt: &R,
    alloc: Global,
    catalog: &Catalog,
    line: &AskLine,
    reply: Reply,
) -> Result<AskReply, AllocError>
    requires kept { KeepsSteps (ask_image line.now).steps }
    requires fits { IsBackReply (catalog_image catalog.now) (ask_image line.now) reply }
    ensures { IfOk result (λ told. told ≡ asks.ask_over (catalog_image catalog.now) (ask_image line.now) reply) }
{
    match reply {
        Reply::Back { rids, rows } => {
            drop(rids);
            match table_named(catalog, &line.table) {
                Some(table) => stepped(rt, alloc, &table.cols, &line.steps, rows),
                None => unreachable!(),
            }
        }
        Reply::Refused(refusal) => Ok(AskReply::Refused(AskRefusal::Back(refusal))),
        Reply::View { .. }
        | Reply::Grouped { .. }
        | Reply::Fwd { .. }
        | Reply::Brush { .. }
        | Reply::Cleared
        | Reply::ClearedOne { .. } => unreachable!(),
    }
}

/// The answer to an `ask` line: what its steps make of the rows that the marks came from, and the names of their columns. The line is refused if its `back` line is, or else if its steps aren't well typed.
///
/// The session stays as it is, after an error too. Each row that the marks came from is one look, even if the steps are refused. The gate is handed on to the answer of the `back` line.
pub fn ask<R: Threads + Sync, G: Gate + Sync, L: Ledger>(
    rt: &R,
    alloc: Global,
    session: &mut Session,
    line: &AskLine,
    gate: &G,
    steps: &mut Steps<L>,
) -> Result<AskReply, AllocError>
    requires kept { KeepsSteps (ask_image line.now).steps }
    ensures reply { IfOk result (λ told. told ≡ asks.ask_reply (catalog_image session.old.catalog) (state_of session.old) (ask_image line.now)) }
    ensures fits { IfOk result (λ told. IsAskReplyTo (ask_image line.now) told) }
    ensures same { session.new ≡ session.old }
    ensures looks { steps.new ≤ steps.old + asks.ask_looks (catalog_image session.old.catalog) (state_of session.old) (ask_image line.now) }
{
    let reply = back_reply(rt, alloc, session, line, gate, steps)?;
    told_over(rt, alloc, session.catalog(), line, reply)
}
