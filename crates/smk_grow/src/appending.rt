// Rows appended to a table of a session by name.
ghost use Rattle.std.specs.Prelude.{◌≡◌, ◌<◌, ◌≤◌, ◌+◌, ℕ, true, length, Some, option_map, IfOk, OnOk, OnErr};
ghost use Rattle.smk_base.specs.CatalogImage.{catalog_image, table_place};
ghost use Rattle.smk_model.specs.AppendTexts as texts;
ghost use Rattle.smk_model.specs.{Appends.{append_turn, append_looks, append_looks_at, is_append_refused, turn_at}, Catalogs.table_kinds, Typing.info_at};
ghost use Rattle.smk_session.specs.Sessions.{state_of, workbook_of};
ghost use Rattle.smk_grow.specs.{Images.next_image, Told.told_text};

use crate::growing::grow_within;
use crate::said::refused_text;
use smk_base::{AppendRefusal, AppendReply, Text};
use smk_jobs::Work;
use smk_outside::{Gate, Steps};
use smk_session::{Session, Workers};
use smk_table::Table;
use std::alloc::{AllocError, Global};
use std::sync::ledger::Ledger;
use std::thread::Threads;

// What is appended to a table by its number, with the text of what is added where its name is given.
fn append_at<R: Threads + Sync, G: Gate + Sync, L: Ledger>(
    work: &Work<'_, R, Workers<'_, G>>,
    session: Session,
    table: u32,
    more: Table,
    said: Option<&Text>,
    steps: &mut Steps<L>,
) -> (Session, Result<(AppendReply, Vec<u8>), AllocError>)
    requires table { table < length session.catalog.tables }
    requires kinds { more.kinds ≡ table_kinds (info_at session.catalog.tables table) }
    ensures reply { IfOk result.1 (λ told. told.0 ≡ (turn_at (catalog_image session.catalog) (state_of session) more.rows (Some table)).reply) }
    ensures text { IfOk result.1 (λ told. told.1.items ≡ told_text (option_map (λ name. name.now) said.entry) (workbook_of result.0) told.0) }
    ensures next { OnOk result.1 (result.0 ≡ next_image session table more.rows) }
    ensures after { OnOk result.1 (state_of result.0 ≡ (turn_at (catalog_image session.catalog) (state_of session) more.rows (Some table)).next) }
    ensures kept { OnErr result.1 (result.0 ≡ session) }
    ensures looks { steps.new ≤ steps.old + append_looks_at (catalog_image session.catalog) (state_of session) more.rows (Some table) }
{
    let mut parts = session.into_parts();
    let told = grow_within(work, &mut parts, table, more, said, steps);
    (Session::from_parts(parts), told)
}

// What is appended to a table by its name, with the text of what is added if `said` is that name.
fn append_by_name<R: Threads + Sync, G: Gate + Sync, L: Ledger>(
    work: &Work<'_, R, Workers<'_, G>>,
    session: Session,
    table: &Text,
    more: Table,
    said: Option<&Text>,
    steps: &mut Steps<L>,
) -> (Session, Result<(AppendReply, Vec<u8>), AllocError>)
    requires kinds { (t : ℕ) → table_place (catalog_image session.catalog) table.now ≡ Some t → more.kinds ≡ table_kinds (info_at session.catalog.tables t) }
    ensures reply { IfOk result.1 (λ told. told.0 ≡ (append_turn (catalog_image session.catalog) (state_of session) table.now more.rows).reply) }
    ensures text { IfOk result.1 (λ told. told.1.items ≡ told_text (option_map (λ name. name.now) said.entry) (workbook_of result.0) told.0) }
    ensures after { IfOk result.1 (λ told. state_of result.0 ≡ (append_turn (catalog_image session.catalog) (state_of session) table.now more.rows).next) }
    ensures refused { IfOk result.1 (λ told. is_append_refused told.0 ≡ true → result.0 ≡ session) }
    ensures kept { OnErr result.1 (result.0 ≡ session) }
    ensures book { result.0.catalog ≡ session.catalog }
    ensures mode { result.0.mode ≡ session.mode }
    ensures workers { result.0.workers ≡ session.workers }
    ensures looks { steps.new ≤ steps.old + append_looks (catalog_image session.catalog) (state_of session) table.now more.rows }
{
    match session.catalog().table_place(table) {
        Some(t) => append_at(work, session, t as u32, more, said, steps),
        None => {
            let refusal = AppendRefusal::UnknownTable;
            let told = (AppendReply::Refused(refusal), Vec::new(work.alloc));
            (session, Ok(told))
        }
    }
}

/// The answer to a line that appends these rows to the table with this name, and the session after it: that of a start over the longer table, with no brush in force. After a refusal and after an error the session is as it was, brushes included, and the rows are dropped.
///
/// A view that is a growing chain on the table looks only at its new rows; every other view that scans the table is evaluated again, over all rows of its leaves, and so are the declared splits and groupings of such views and those to the table, over all rows of their table.
pub fn append<R: Threads + Sync, G: Gate + Sync, L: Ledger>(
    rt: &R,
    alloc: Global,
    session: Session,
    table: &Text,
    more: Table,
    gate: &G,
    steps: &mut Steps<L>,
) -> (Session, Result<AppendReply, AllocError>)
    requires kinds { (t : ℕ) → table_place (catalog_image session.catalog) table.now ≡ Some t → more.kinds ≡ table_kinds (info_at session.catalog.tables t) }
    ensures reply { IfOk result.1 (λ told. told ≡ (append_turn (catalog_image session.catalog) (state_of session) table.now more.rows).reply) }
    ensures after { IfOk result.1 (λ told. state_of result.0 ≡ (append_turn (catalog_image session.catalog) (state_of session) table.now more.rows).next) }
    ensures refused { IfOk result.1 (λ told. is_append_refused told ≡ true → result.0 ≡ session) }
    ensures kept { OnErr result.1 (result.0 ≡ session) }
    ensures book { result.0.catalog ≡ session.catalog }
    ensures mode { result.0.mode ≡ session.mode }
    ensures workers { result.0.workers ≡ session.workers }
    ensures looks { steps.new ≤ steps.old + append_looks (catalog_image session.catalog) (state_of session) table.now more.rows }
{
    let crew = session.crew(gate);
    let work = Work {
        rt,
        alloc,
        crew: &crew,
    };
    let (session, told) = append_by_name(&work, session, table, more, None, steps);
    match told {
        Ok((reply, _)) => (session, Ok(reply)),
        Err(error) => (session, Err(error)),
    }
}

// The text of an answer, of which that of a refusal is still to be made.
fn whole_text(
    alloc: Global,
    session: &Session,
    table: &Text,
    reply: &AppendReply,
    text: Vec<u8>,
) -> Result<Vec<u8>, AllocError>
    requires fits { texts.IsAppendReply (catalog_image session.now.catalog) reply.now }
    requires text { text.items ≡ told_text (Some table.now) (workbook_of session.now) reply.now }
    ensures text { IfOk result (λ text. text.items ≡ texts.append_text (workbook_of session.now) table.now reply.now) }
    ensures refused { OnErr result (is_append_refused reply.now ≡ true) }
{
    match reply {
        AppendReply::Added { .. } => Ok(text),
        AppendReply::Refused(refusal) => refused_text(alloc, session.catalog(), table, *refusal),
    }
}

/// What `append` gives, with the text of the answer, as `append_text` has it, which is made before the session changes. So after an error the session is as it was, even if memory runs out for the text. With several workers the text of a view with many rows is written in pieces, in threads.
pub fn append_told<R: Threads + Sync, G: Gate + Sync, L: Ledger>(
    rt: &R,
    alloc: Global,
    session: Session,
    table: &Text,
    more: Table,
    gate: &G,
    steps: &mut Steps<L>,
) -> (Session, Result<(AppendReply, Vec<u8>), AllocError>)
    requires kinds { (t : ℕ) → table_place (catalog_image session.catalog) table.now ≡ Some t → more.kinds ≡ table_kinds (info_at session.catalog.tables t) }
    ensures reply { IfOk result.1 (λ told. told.0 ≡ (append_turn (catalog_image session.catalog) (state_of session) table.now more.rows).reply) }
    ensures text { IfOk result.1 (λ told. told.1.items ≡ texts.append_text (workbook_of result.0) table.now told.0) }
    ensures after { IfOk result.1 (λ told. state_of result.0 ≡ (append_turn (catalog_image session.catalog) (state_of session) table.now more.rows).next) }
    ensures refused { IfOk result.1 (λ told. is_append_refused told.0 ≡ true → result.0 ≡ session) }
    ensures kept { OnErr result.1 (result.0 ≡ session) }
    ensures book { result.0.catalog ≡ session.catalog }
    ensures mode { result.0.mode ≡ session.mode }
    ensures workers { result.0.workers ≡ session.workers }
    ensures looks { steps.new ≤ steps.old + append_looks (catalog_image session.catalog) (state_of session) table.now more.rows }
{
    let crew = session.crew(gate);
    let work = Work {
        rt,
        alloc,
        crew: &crew,
    };
    let (session, told) = append_by_name(&work, session, table, more, Some(table), steps);
    match told {
        Ok((reply, text)) => match whole_text(alloc, &session, table, &reply, text) {
            Ok(text) => (session, Ok((reply, text))),
            Err(error) => (session, Err(error)),
        },
        Err(error) => (session, Err(error)),
    }
}
