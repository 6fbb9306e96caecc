ghost use Rattle.std.specs.Prelude.{◌≡◌, ◌≤◌, ◌+◌, ℕ, List, Some, map};
ghost use Rattle.smk_base.specs.{CatalogImage.catalog_image, Marks.after_marks};
ghost use Rattle.smk_model.specs.{Lines.lines, Profiles.AreDependencies, FaultTexts.IsSaid, Outcome.run_looks, Readings.{Reading, AreReadingsOf}, Reports.Report, Words.{Demo, words_of}};
ghost use Rattle.smk_outside.specs.Outside.{Rose};
ghost use Rattle.smk_inputs.specs.{Added.BringTables, Image.texts_image, Loaded.inputs_with, Collecting.IsSayable};
ghost use Rattle.smk_top.specs.{Counting.counts_of, Endings.{RunEnds, Works, Reports, SaysFault, SaysMemory}, Looking.{LooksBehindReading, RunLooks}, Statuses.{IsReadingFault, status_of_fault, status_of_report}};

use crate::counts::Counts;
use crate::reporting::write_report;
use crate::starting::start;
use crate::status::Status;
use crate::summarizing::summarize;
use smk_base::Fault;
use smk_inputs::{
    Engine, Inputs, RunTexts, RunWords, Settings, Stop, read_all, read_demo, read_words,
};
use smk_outside::{Files, Gate, Sink, Steps};
use smk_report::{fault_text, no_memory_text};
use std::alloc::Global;
use std::sync::ledger::Ledger;
use std::thread::Threads;

// The status of a fault that is said.
fn status_of(fault: &Fault) -> Status
    ensures { result ≡ status_of_fault fault.now }
{
    match fault {
        Fault::Usage => Status::Usage,
        Fault::Book(_) | Fault::Types(_) => Status::BadBook,
        Fault::Table { .. } => Status::BadTable,
        Fault::FileLong { .. } | Fault::TableRows { .. } => Status::Limit,
        Fault::ViewRows { .. } | Fault::ViewPairs { .. } => Status::Limit,
        Fault::Unread { .. } => Status::ReadFault,
    }
}

// The status of a whole report with these counts.
fn status_of_counts(counts: Counts) -> Status
    ensures { (report : Report) → counts ≡ counts_of report → result ≡ status_of_report report }
{
    if counts.refused > 0 || counts.unread > 0 {
        Status::DoneWithRefusals
    } else {
        Status::Done
    }
}

/// Says that memory ran out.
pub fn say_no_memory<E: Sink>(err: &mut E) -> Status
    ensures said { SaysMemory (Rose (E.faults err.old) (E.faults err.new)) (E.written err.old) (E.written err.new) result }
    ensures later { E.faults err.old ≤ E.faults err.new }
{
    match err.put(no_memory_text()) {
        Ok(()) => Status::NoMemory,
        Err(_) => Status::WriteFault,
    }
}

/// Says a fault.
pub fn say_fault<E: Sink>(alloc: Global, fault: &Fault, err: &mut E) -> Status
    requires { IsSaid fault.now }
    ensures said { SaysFault fault.now (Rose (E.faults err.old) (E.faults err.new)) (E.written err.old) (E.written err.new) result }
    ensures later { E.faults err.old ≤ E.faults err.new }
{
    match fault_text(alloc, fault) {
        Ok(text) => match err.put(text.as_slice()) {
            Ok(()) => status_of(fault),
            Err(_) => Status::WriteFault,
        },
        Err(_) => say_no_memory(err),
    }
}

// Evaluates the views of what was read, and writes the report. It tells the counts of its lines.
fn report<R: Threads + Sync, G: Gate + Sync, O: Sink, L: Ledger>(
    engine: &Engine<'_, R, G>,
    settings: Settings,
    inputs: Inputs,
    out: &mut O,
    steps: &mut Steps<L>,
) -> Result<Counts, Stop>
    requires shown { AreDependencies (catalog_image inputs.book) inputs.fds }
    requires fits { BringTables (catalog_image inputs.book) (lines (after_marks inputs.script.items)) inputs.added.items }
    ensures works { (said : List Reading) → AreReadingsOf inputs.script.items said
        → Reports (λ report. report.text) (inputs_with inputs said) (Rose (O.faults out.old) (O.faults out.new)) (O.written out.old) (O.written out.new) result }
    ensures said { IsSayable result }
    ensures out_later { O.faults out.old ≤ O.faults out.new }
    ensures looks { (said : List Reading) → AreReadingsOf inputs.script.items said → steps.new ≤ steps.old + run_looks (inputs_with inputs said) }
{
    let started = start(engine, inputs, settings, steps)?;
    write_report(engine, settings, started, out, steps)
}

// Reads what the words of a run ask for, and writes the report, or a demo's summary. It tells the counts of the report's lines.
fn work_on<R: Threads + Sync, F: Files, O: Sink, G: Gate + Sync, L: Ledger>(
    engine: &Engine<'_, R, G>,
    call: &RunWords,
    files: &mut F,
    out: &mut O,
    steps: &mut Steps<L>,
) -> Result<Counts, Stop>
    ensures works { (words : List (List ℕ)) → words_of words ≡ Some (texts_image call.now.texts)
        → Works words (F.held files.old) (Rose (F.faults files.old) (F.faults files.new)) (Rose (O.faults out.old) (O.faults out.new)) (O.written out.old) (O.written out.new) result }
    ensures said { IsSayable result }
    ensures held { F.held files.new ≡ F.held files.old }
    ensures files_later { F.faults files.old ≤ F.faults files.new }
    ensures out_later { O.faults out.old ≤ O.faults out.new }
    ensures looks { (words : List (List ℕ)) → words_of words ≡ Some (texts_image call.now.texts) → RunLooks words (F.held files.old) steps.old steps.new }
    ensures no_look { LooksBehindReading result steps.old steps.new }
    ensures demo { (flights : ℕ) → texts_image call.now.texts ≡ Demo flights → F.faults files.new ≡ F.faults files.old }
{
    match &call.texts {
        RunTexts::Files { book, script } => {
            let settings = call.settings;
            let inputs = read_all(engine, settings, files, book, script.as_ref())?;
            report(engine, settings, inputs, out, steps)
        }
        RunTexts::Demo(flights) => {
            let settings = call.settings;
            let inputs = read_demo(engine, settings, *flights)?;
            summarize(engine, *flights, settings, inputs, out, steps)
        }
    }
}

// Reads what the words name, and writes the report, or a demo's summary. It tells the counts of the report's lines.
fn work<R: Threads + Sync, F: Files, O: Sink, G: Gate + Sync, L: Ledger>(
    engine: &Engine<'_, R, G>,
    words: &[&str],
    files: &mut F,
    out: &mut O,
    steps: &mut Steps<L>,
) -> Result<Counts, Stop>
    ensures works { Works (map (λ w. w.now) words.entry.now) (F.held files.old) (Rose (F.faults files.old) (F.faults files.new)) (Rose (O.faults out.old) (O.faults out.new)) (O.written out.old) (O.written out.new) result }
    ensures said { IsSayable result }
    ensures held { F.held files.new ≡ F.held files.old }
    ensures files_later { F.faults files.old ≤ F.faults files.new }
    ensures out_later { O.faults out.old ≤ O.faults out.new }
    ensures looks { RunLooks (map (λ w. w.now) words.entry.now) (F.held files.old) steps.old steps.new }
    ensures no_look { LooksBehindReading result steps.old steps.new }
    ensures demo { (flights : ℕ) → words_of (map (λ w. w.now) words.entry.now) ≡ Some (Demo flights) → F.faults files.new ≡ F.faults files.old }
{
    let found = read_words(engine.alloc, words)?;
    match found {
        Some(call) => work_on(engine, &call, files, out, steps),
        None => Err(Stop::At(Fault::Usage)),
    }
}

/// A run of Smoke. Its `words` are those after the program's name: a book's file name, and a script's if there is one, or `--demo` with a number
/// of flights; `--mode`: when lineage is made; and `--workers`, from 1 to 64: how many pieces of the work may run at the same time. Neither
/// changes what is written. Each piece passes the gate.
///
/// It reads the book, the book's tables, the script and the files that its lines append from `files`, evaluates the views, and writes to `out` the
/// text of each view and then of the reply to each line of the script. If there is a fault, it writes nothing to `out` and one line to `err`. With
/// `--demo` no file is read: it makes texts in their place, and writes a summary of the report. How it may end is `RunEnds`: what is written is the
/// report of the words and of what the files hold. In it each view is its plan's plain meaning, each declared backward and forward answer is what
/// the annotated meaning relates, exactly the undeclared queries are refused as undeclared, and a view that a brush is linked to is its plan's plain
/// meaning over the rows that the brushes in force select for it. Any other ending has its cause; only running out of memory has none.
/// `completeness` says when the report is whole.
pub fn run<R: Threads + Sync, F: Files, O: Sink, E: Sink, G: Gate + Sync, L: Ledger>(
    rt: &R,
    alloc: Global,
    words: &[&str],
    files: &mut F,
    out: &mut O,
    err: &mut E,
    gate: &G,
    steps: &mut Steps<L>,
) -> Status
    ensures ends { RunEnds (map (λ w. w.now) words.entry.now) (F.held files.old)
        (Rose (F.faults files.old) (F.faults files.new)) (Rose (O.faults out.old) (O.faults out.new)) (Rose (E.faults err.old) (E.faults err.new))
        (O.written out.old) (O.written out.new) (E.written err.old) (E.written err.new) result }
    ensures held { F.held files.new ≡ F.held files.old }
    ensures files_later { F.faults files.old ≤ F.faults files.new }
    ensures out_later { O.faults out.old ≤ O.faults out.new }
    ensures err_later { E.faults err.old ≤ E.faults err.new }
    ensures looks { RunLooks (map (λ w. w.now) words.entry.now) (F.held files.old) steps.old steps.new }
    ensures no_look { IsReadingFault result → steps.new ≡ steps.old }
    ensures demo { (flights : ℕ) → words_of (map (λ w. w.now) words.entry.now) ≡ Some (Demo flights) → F.faults files.new ≡ F.faults files.old }
{
    let engine = Engine { rt, alloc, gate };
    match work(&engine, words, files, out, steps) {
        Ok(counts) => status_of_counts(counts),
        Err(Stop::At(fault)) => say_fault(alloc, &fault, err),
        Err(Stop::Unwritten) => Status::WriteFault,
        Err(Stop::Exhausted) => say_no_memory(err),
    }
}
