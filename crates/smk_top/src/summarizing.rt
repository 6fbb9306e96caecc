// The run of a demo, of whose report only a summary is written.
ghost use Rattle.std.specs.Prelude.{◌≡◌, ◌≤◌, ◌<◌, ◌+◌, [], List, None, length, map, IfOk};
ghost use Rattle.smk_base.specs.{CatalogImage.catalog_image, Marks.after_marks};
ghost use Rattle.smk_model.specs.{Demo.{summary, summary_of}, Lines.lines, Opening.first_view_fault, Profiles.AreDependencies, Readings.{Reading, AreReadingsOf}, Reports.{script_told, size_of_view}, Selection.each_rows, Session.view_at};
ghost use Rattle.smk_model.specs.Outcome as outcomes;
ghost use Rattle.smk_outside.specs.Outside.{Rose};
ghost use Rattle.smk_session.specs.Sessions.{workbook_of};
ghost use Rattle.smk_inputs.specs.{Added.BringTables, Loaded.inputs_with, Collecting.IsSayable};
ghost use Rattle.smk_top.specs.{Endings.Reports, Writing.PutsPieces};

use crate::counts::Counts;
use crate::nowhere::Nowhere;
use crate::reporting::{put, write_report};
use crate::starting::{Started, start};
use smk_base::{ListOf, Size, Sizes};
use smk_demo::summary_text;
use smk_inputs::{Engine, Flights, Inputs, Settings, Stop};
use smk_outside::{Gate, Sink, Steps};
use smk_session::Session;
use std::alloc::{AllocError, Global};
use std::sync::ledger::Ledger;
use std::thread::Threads;

// The sizes of the views, as they are first evaluated.
fn sizes_of(alloc: Global, session: &Session) -> Result<Sizes, AllocError>
    ensures { IfOk result (λ sizes. sizes ≡ map (size_of_view (workbook_of session.now)) (catalog_image session.now.catalog).views) }
{
    let mut sizes = ListOf::new(alloc);
    for number in 0..session.catalog().views.as_slice().len() as u32 {
        sizes.push(size_of(alloc, session, number)?)?;
    }
    Ok(sizes)
}

// The size of the view with this number.
fn size_of(alloc: Global, session: &Session, number: u32) -> Result<Size, AllocError>
    requires { number < length session.now.catalog.views }
    ensures { IfOk result (λ size. size ≡ size_of_view (workbook_of session.now) (view_at (catalog_image session.now.catalog) number)) }
{
    Ok(Size {
        name: session.catalog().views.as_slice()[number as usize]
            .name
            .copy(alloc)?,
        rows: session.first(number).len(),
    })
}

// Writes the summary of a report with these sizes and counts, and tells the counts.
fn put_summary<O: Sink>(
    alloc: Global,
    flights: Flights,
    sizes: &Sizes,
    counts: Counts,
    out: &mut O,
) -> Result<Counts, Stop>
    ensures written { PutsPieces (summary flights.count sizes.now counts.replies counts.refused counts.bytes) (Rose (O.faults out.old) (O.faults out.new)) (O.written out.old) (O.written out.new) result }
    ensures counts { IfOk result (λ told. told ≡ counts) }
    ensures later { O.faults out.old ≤ O.faults out.new }
{
    let text = summary_text(
        alloc,
        flights.count,
        sizes,
        counts.replies,
        counts.refused,
        counts.bytes,
    )?;
    put(out, text.as_slice())?;
    Ok(counts)
}

// Answers the script of a demo's session that begins, and writes the summary of the report. It tells the counts of the report's lines.
fn write_summary<R: Threads + Sync, G: Gate + Sync, O: Sink, L: Ledger>(
    engine: &Engine<'_, R, G>,
    flights: Flights,
    settings: Settings,
    started: Started,
    out: &mut O,
    steps: &mut Steps<L>,
) -> Result<Counts, Stop>
    requires begun { started.session.brushes ≡ [] }
    requires shown { AreDependencies (catalog_image started.session.catalog) started.fds }
    requires fits { BringTables (catalog_image started.session.catalog) (lines (after_marks started.script.items)) started.added.items }
    ensures works { (given : outcomes.Inputs) → AreReadingsOf started.script.items given.readings → first_view_fault given.book ≡ None → workbook_of started.session ≡ given.book → started.fds ≡ given.fds → each_rows started.added.items ≡ given.added
        → Reports (summary_of flights.count) given (Rose (O.faults out.old) (O.faults out.new)) (O.written out.old) (O.written out.new) result }
    ensures said { IsSayable result }
    ensures out_later { O.faults out.old ≤ O.faults out.new }
    ensures looks { (said : List Reading) → AreReadingsOf started.script.items said → steps.new ≤ steps.old + (script_told (workbook_of started.session) started.fds (each_rows started.added.items) said).looks }
{
    let sizes = sizes_of(engine.alloc, &started.session)?;
    let counts = write_report(engine, settings, started, &mut Nowhere, steps)?;
    put_summary(engine.alloc, flights, &sizes, counts, out)
}

/// Evaluates the views of a demo and answers its script, and writes the summary of the report. It tells the counts of the report's lines.
pub fn summarize<R: Threads + Sync, G: Gate + Sync, O: Sink, L: Ledger>(
    engine: &Engine<'_, R, G>,
    flights: Flights,
    settings: Settings,
    inputs: Inputs,
    out: &mut O,
    steps: &mut Steps<L>,
) -> Result<Counts, Stop>
    requires shown { AreDependencies (catalog_image inputs.book) inputs.fds }
    requires fits { BringTables (catalog_image inputs.book) (lines (after_marks inputs.script.items)) inputs.added.items }
    ensures works { (said : List Reading) → AreReadingsOf inputs.script.items said
        → Reports (summary_of flights.count) (inputs_with inputs said) (Rose (O.faults out.old) (O.faults out.new)) (O.written out.old) (O.written out.new) result }
    ensures said { IsSayable result }
    ensures out_later { O.faults out.old ≤ O.faults out.new }
    ensures looks { (said : List Reading) → AreReadingsOf inputs.script.items said → steps.new ≤ steps.old + outcomes.run_looks (inputs_with inputs said) }
{
    let started = start(engine, inputs, settings, steps)?;
    write_summary(engine, flights, settings, started, out, steps)
}
