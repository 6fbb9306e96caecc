// The report of a run, text by text.
ghost use Rattle.std.specs.Prelude.{◌≡◌, ◌≤◌, ◌<◌, ◌+◌, [], length, List, IfSome, IfOk};
ghost use Rattle.smk_base.specs.{CatalogImage.catalog_image, Marks.after_marks};
ghost use Rattle.smk_model.specs.{Lines.lines, Outcome.appended_at, Profiles.AreDependencies, Readings.AreReadingsOf, Selection.each_rows, Session.view_at};
ghost use Rattle.smk_model.specs.Readings as readings;
ghost use Rattle.smk_model.specs.Reports as reports;
ghost use Rattle.smk_model.specs.ViewTexts as view_texts;
ghost use Rattle.smk_outside.specs.Outside.{Rose};
ghost use Rattle.smk_session.specs.Sessions.{state_of, workbook_of};
ghost use Rattle.smk_inputs.specs.{Added.{BeginsWith, BringTables, tables_left}, LineLimits.KeepsReading, Image.reading_image, Loaded.said_of};
ghost use Rattle.smk_top.specs.{Counting.{counts_told, counts_of, text_counted}, Writing.{Puts, PutsPieces}};

use crate::answering::{LineTold, tell_line};
use crate::counting::{NOTHING, together};
use crate::counts::Counts;
use crate::stand::Stand;
use crate::starting::Started;
use smk_base::without_mark;
use smk_inputs::{Engine, Reading, Settings, Stop, reading_of};
use smk_outside::{Gate, Sink, Steps};
use smk_parse::line_at;
use smk_report::view_text_in_pieces;
use smk_session::Session;
use smk_table::Table;
use std::alloc::{AllocError, Global};
use std::collections::VecDeque;
use std::sync::ledger::Ledger;
use std::thread::Threads;

/// Writes a text.
pub fn put<O: Sink>(out: &mut O, text: &[u8]) -> Result<(), Stop>
    ensures text { Puts text.now (Rose (O.faults out.old) (O.faults out.new)) (O.written out.old) (O.written out.new) result }
    ensures later { O.faults out.old ≤ O.faults out.new }
{
    match out.put(text) {
        Ok(()) => Ok(()),
        Err(_) => Err(Stop::Unwritten),
    }
}

// Writes a text, where it has a byte.
fn put_some<O: Sink>(out: &mut O, text: &[u8]) -> Result<(), Stop>
    ensures text { Puts text.now (Rose (O.faults out.old) (O.faults out.new)) (O.written out.old) (O.written out.new) result }
    ensures later { O.faults out.old ≤ O.faults out.new }
{
    if text.is_empty() {
        return Ok(());
    }
    put(out, text)
}

/// The text of the view with this number.
pub fn text_of_view<R: Threads + Sync>(
    rt: &R,
    alloc: Global,
    settings: Settings,
    session: &Session,
    number: u32,
) -> Result<Vec<u8>, AllocError>
    requires { number < length session.now.catalog.views }
    ensures { IfOk result (λ text. text.items ≡ view_texts.text_of_view (workbook_of session.now) (view_at (catalog_image session.now.catalog) number)) }
{
    let view = &session.catalog().views.as_slice()[number as usize];
    view_text_in_pieces(
        rt,
        alloc,
        settings.workers,
        &view.name,
        &view.names,
        session.first(number),
    )
}

// Writes the texts of all views, in the book's order, and counts their bytes.
fn write_views<R: Threads + Sync, O: Sink>(
    rt: &R,
    alloc: Global,
    settings: Settings,
    session: &Session,
    out: &mut O,
) -> Result<Counts, Stop>
    ensures written { PutsPieces (view_texts.views_text (workbook_of session.now))
        (Rose (O.faults out.old) (O.faults out.new)) (O.written out.old) (O.written out.new) result }
    ensures counts { IfOk result (λ counts. counts ≡ text_counted (view_texts.views_text (workbook_of session.now))) }
    ensures later { O.faults out.old ≤ O.faults out.new }
{
    let mut counts = NOTHING;
    for number in 0..session.catalog().views.as_slice().len() as u32 {
        let text = text_of_view(rt, alloc, settings, session, number)?;
        let more = together(
            counts,
            Counts {
                bytes: text.len() as u64,
                ..NOTHING
            },
        )?;
        put(out, text.as_slice())?;
        counts = more;
    }
    Ok(counts)
}

// Writes the text of the next line, which says this, if it has a text, and lets go of what it says. It gives the counts and the session.
fn write_line<R: Threads + Sync, G: Gate + Sync, O: Sink, L: Ledger>(
    engine: &Engine<'_, R, G>,
    stand: Stand<'_>,
    reading: Reading,
    added: &mut VecDeque<Table>,
    out: &mut O,
    steps: &mut Steps<L>,
) -> Result<(Session, Counts), Stop>
    requires kept { KeepsReading (reading_image reading) }
    requires shown { AreDependencies (catalog_image stand.session.catalog) stand.fds.now }
    requires few { stand.before < 18446744073709551615 }
    requires fits { IfSome (appended_at (catalog_image stand.session.catalog) (reading_image reading)) (λ info. BeginsWith info added.old.items) }
    ensures written { PutsPieces (reports.line_told (said_of stand.entry.session.catalog stand.entry.fds.now) (state_of stand.entry.session) (stand.entry.before + 1) (reports.next_rows (each_rows added.old.items)) (reading_image reading)).text
        (Rose (O.faults out.old) (O.faults out.new)) (O.written out.old) (O.written out.new) result }
    ensures counts { IfOk result (λ done. done.1 ≡ counts_told (reports.line_told (said_of stand.entry.session.catalog stand.entry.fds.now) (state_of stand.entry.session) (stand.entry.before + 1) (reports.next_rows (each_rows added.old.items)) (reading_image reading))) }
    ensures after { IfOk result (λ done. state_of done.0 ≡ reports.state_after (said_of stand.entry.session.catalog stand.entry.fds.now) (state_of stand.entry.session) (reports.next_rows (each_rows added.old.items)) (reading_image reading)) }
    ensures book { IfOk result (λ done. done.0.catalog ≡ stand.entry.session.catalog) }
    ensures left { IfOk result (λ done. added.new.items ≡ tables_left (reports.brings_rows (catalog_image stand.entry.session.catalog) (reading_image reading)) added.old.items) }
    ensures later { O.faults out.old ≤ O.faults out.new }
    ensures looks { steps.new ≤ steps.old + (reports.line_told (said_of stand.entry.session.catalog stand.entry.fds.now) (state_of stand.entry.session) (stand.entry.before + 1) (reports.next_rows (each_rows added.old.items)) (reading_image reading)).looks }
{
    let (session, told) = tell_line(engine, stand, &reading, added, steps);
    let LineTold { text, counts } = told?;
    put_some(out, text.as_slice())?;
    Ok((session, counts))
}

// Writes the texts of the lines of a script, each before the next line is read, and counts them. The lines that append rows take the tables that were brought, line by line.
fn write_lines<R: Threads + Sync, G: Gate + Sync, O: Sink, L: Ledger>(
    engine: &Engine<'_, R, G>,
    started: Started,
    out: &mut O,
    steps: &mut Steps<L>,
) -> Result<Counts, Stop>
    requires shown { AreDependencies (catalog_image started.session.catalog) started.fds }
    requires fits { BringTables (catalog_image started.session.catalog) (lines (after_marks started.script.items)) started.added.items }
    ensures written { (said : List readings.Reading) → AreReadingsOf started.script.items said → PutsPieces (reports.lines_told (said_of started.session.catalog started.fds) (state_of started.session) 1 (each_rows started.added.items) said).text
        (Rose (O.faults out.old) (O.faults out.new)) (O.written out.old) (O.written out.new) result }
    ensures counts { (said : List readings.Reading) → AreReadingsOf started.script.items said → IfOk result (λ counts. counts ≡ counts_told (reports.lines_told (said_of started.session.catalog started.fds) (state_of started.session) 1 (each_rows started.added.items) said)) }
    ensures later { O.faults out.old ≤ O.faults out.new }
    ensures looks { (said : List readings.Reading) → AreReadingsOf started.script.items said → steps.new ≤ steps.old + (reports.lines_told (said_of started.session.catalog started.fds) (state_of started.session) 1 (each_rows started.added.items) said).looks }
{
    let Started {
        mut session,
        fds,
        script,
        mut added,
    } = started;
    let text = without_mark(script.as_slice());
    let mut counts = NOTHING;
    let mut before = 0;
    let mut from = 0;
    while let Some(span) = line_at(text, from) {
        let reading = reading_of(engine.alloc, &text[span.start..span.end])?;
        // Only what the next line says is kept beside it.
        let stand = Stand {
            session,
            fds: &fds,
            before,
        };
        let (next, line) = write_line(engine, stand, reading, &mut added, out, steps)?;
        session = next;
        before += 1;
        from = span.next;
        counts = together(counts, line)?;
    }
    Ok(counts)
}

/// Writes the report of a session that begins: the texts of the views, then those of the lines of its script, each before the next line is read. It tells what it counted. The lines that append rows take the tables that were brought, line by line.
pub fn write_report<R: Threads + Sync, G: Gate + Sync, O: Sink, L: Ledger>(
    engine: &Engine<'_, R, G>,
    settings: Settings,
    started: Started,
    out: &mut O,
    steps: &mut Steps<L>,
) -> Result<Counts, Stop>
    requires begun { started.session.brushes ≡ [] }
    requires shown { AreDependencies (catalog_image started.session.catalog) started.fds }
    requires fits { BringTables (catalog_image started.session.catalog) (lines (after_marks started.script.items)) started.added.items }
    ensures written { (said : List readings.Reading) → AreReadingsOf started.script.items said → PutsPieces (reports.report_of (workbook_of started.session) started.fds (each_rows started.added.items) said).text
        (Rose (O.faults out.old) (O.faults out.new)) (O.written out.old) (O.written out.new) result }
    ensures counts { (said : List readings.Reading) → AreReadingsOf started.script.items said → IfOk result (λ counts. counts ≡ counts_of (reports.report_of (workbook_of started.session) started.fds (each_rows started.added.items) said)) }
    ensures later { O.faults out.old ≤ O.faults out.new }
    ensures looks { (said : List readings.Reading) → AreReadingsOf started.script.items said → steps.new ≤ steps.old + (reports.script_told (workbook_of started.session) started.fds (each_rows started.added.items) said).looks }
{
    let views = write_views(engine.rt, engine.alloc, settings, &started.session, out)?;
    let lines = write_lines(engine, started, out, steps)?;
    together(views, lines)
}
