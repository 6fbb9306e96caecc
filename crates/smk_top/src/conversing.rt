// A conversation, from its words to its end.
ghost use Rattle.std.specs.Prelude.{◌≡◌, ◌≤◌, ℕ, List, Some, map};
ghost use Rattle.smk_inputs.specs.{Image.texts_image, Collecting.IsSayable};
ghost use Rattle.smk_model.specs.{FaultTexts.IsSaid, TalkWords.talk_source, Words.Demo};
ghost use Rattle.smk_outside.specs.Outside.{Rose};
ghost use Rattle.smk_top.specs.{Looking.LooksBehindReading, Statuses.IsStartFault, TalkEndings.{BeginsTalk, ConverseEnds, SaysReady, SaysTalkFault, SaysTalkEnd, TalkWorks, is_called}};

use crate::program::{say_fault, say_no_memory};
use crate::starting::{Started, start};
use crate::status::Status;
use crate::talking::{Manner, TalkEnd, hold};
use smk_base::{DEMO_BOOK_NAME, Fault, Text};
use smk_demo::demo;
use smk_inputs::{
    DemoTexts, Engine, RunTexts, Stop, TalkWords, read_all, read_talk_words, text_of,
};
use smk_outside::{Ending, Files, Gate, Sink, Steps, Talk};
use std::alloc::Global;
use std::sync::ledger::Ledger;
use std::thread::Threads;

// What is said of words that call for no conversation.
const USAGE: &[u8] =
    b"usage: smoke_live [--mode inject|defer] [--workers 1..64] [--read-only] [--brief] (BOOK | --demo N)\n";

// What is said where no line can be heard.
const UNHEARD: &[u8] = b"smoke_live: cannot read standard input\n";

// A conversation over the book of a file, as the words ask for it.
fn begin<R: Threads + Sync, F: Files, T: Talk, G: Gate + Sync, L: Ledger>(
    engine: &Engine<'_, R, G>,
    call: &TalkWords,
    files: &mut F,
    book: &Text,
    talk: &mut T,
    steps: &mut Steps<L>,
) -> Result<TalkEnd, Stop>
    ensures begins { BeginsTalk (F.held files.old) (F.faults files.old) (F.faults files.new) (Rose (T.faults talk.old) (T.faults talk.new)) book.now call.now.read_only call.now.brief (T.told talk.old) (T.told talk.new) steps.old steps.new result }
    ensures no_look { LooksBehindReading result steps.old steps.new }
    ensures said { IsSayable result }
    ensures held { F.held files.new ≡ F.held files.old }
    ensures later { F.faults files.old ≤ F.faults files.new }
    ensures talk_later { T.faults talk.old ≤ T.faults talk.new }
{
    let settings = call.settings;
    let inputs = read_all(engine, settings, files, book, None)?;
    files.only_regular();
    let Started { session, fds, .. } = start(engine, inputs, settings, steps)?;
    let manner = Manner {
        fds: &fds,
        settings,
        read_only: call.read_only,
        brief: call.brief,
    };
    Ok(hold(engine, &manner, files, talk, session, steps)?)
}

// The conversation that the words ask for.
fn talk_on<R: Threads + Sync, F: Files, T: Talk, G: Gate + Sync, L: Ledger>(
    engine: &Engine<'_, R, G>,
    call: &TalkWords,
    files: &mut F,
    talk: &mut T,
    steps: &mut Steps<L>,
) -> Result<TalkEnd, Stop>
    ensures works { (words : List (List ℕ)) → is_called words call.now → TalkWorks words (F.held files.old) (F.faults files.old) (F.faults files.new) (Rose (T.faults talk.old) (T.faults talk.new)) (T.told talk.old) (T.told talk.new) steps.old steps.new result }
    ensures no_look { LooksBehindReading result steps.old steps.new }
    ensures said { IsSayable result }
    ensures held { F.held files.new ≡ F.held files.old }
    ensures later { F.faults files.old ≤ F.faults files.new }
    ensures talk_later { T.faults talk.old ≤ T.faults talk.new }
    ensures demo { (flights : ℕ) → texts_image call.now.texts ≡ Demo flights → F.faults files.new ≡ F.faults files.old }
{
    match &call.texts {
        RunTexts::Files { book, .. } => { begin(engine, call, files, book, talk, steps) }
        RunTexts::Demo(flights) => {
            let mut texts = DemoTexts {
                texts: demo(engine.alloc, flights.count)?,
            };
            let book = text_of(engine.alloc, DEMO_BOOK_NAME)?;
            begin(engine, call, &mut texts, &book, talk, steps)
        }
    }
}

// The conversation that the words call for.
fn talk_for<R: Threads + Sync, F: Files, T: Talk, G: Gate + Sync, L: Ledger>(
    engine: &Engine<'_, R, G>,
    words: &[&str],
    files: &mut F,
    talk: &mut T,
    steps: &mut Steps<L>,
) -> Result<TalkEnd, Stop>
    ensures works { TalkWorks (map (λ w. w.now) words.entry.now) (F.held files.old) (F.faults files.old) (F.faults files.new) (Rose (T.faults talk.old) (T.faults talk.new)) (T.told talk.old) (T.told talk.new) steps.old steps.new result }
    ensures no_look { LooksBehindReading result steps.old steps.new }
    ensures said { IsSayable result }
    ensures held { F.held files.new ≡ F.held files.old }
    ensures later { F.faults files.old ≤ F.faults files.new }
    ensures talk_later { T.faults talk.old ≤ T.faults talk.new }
    ensures demo { (flights : ℕ) → talk_source (map (λ w. w.now) words.entry.now) ≡ Some (Demo flights) → F.faults files.new ≡ F.faults files.old }
{
    let found = read_talk_words(engine.alloc, words)?;
    match found {
        Some(call) => talk_on(engine, &call, files, talk, steps),
        None => Err(Stop::At(Fault::Usage)),
    }
}

// Says a text that is made already, and gives the status after it.
fn say_ready<E: Sink>(err: &mut E, text: &[u8], status: Status) -> Status
    ensures said { SaysReady text.now status (Rose (E.faults err.old) (E.faults err.new)) (E.written err.old) (E.written err.new) result }
    ensures later { E.faults err.old ≤ E.faults err.new }
{
    match err.put(text) {
        Ok(()) => status,
        Err(_) => Status::WriteFault,
    }
}

// Says a fault of the start.
fn say_talk_fault<E: Sink>(alloc: Global, fault: &Fault, err: &mut E) -> Status
    requires { IsSaid fault.now }
    ensures said { SaysTalkFault fault.now (Rose (E.faults err.old) (E.faults err.new)) (E.written err.old) (E.written err.new) result }
    ensures later { E.faults err.old ≤ E.faults err.new }
{
    match fault {
        Fault::Usage => say_ready(err, USAGE, Status::Usage),
        _ => say_fault(alloc, fault, err),
    }
}

// Says why a conversation ended, where that is to be said.
fn say_end<E: Sink>(end: TalkEnd, err: &mut E) -> Status
    ensures said { SaysTalkEnd end (Rose (E.faults err.old) (E.faults err.new)) (E.written err.old) (E.written err.new) result }
    ensures later { E.faults err.old ≤ E.faults err.new }
{
    match end.ending {
        Ending::Ended | Ending::Outlasted => {
            if end.down {
                Status::DoneWithRefusals
            } else {
                Status::Done
            }
        }
        Ending::Unheard => say_ready(err, UNHEARD, Status::ReadFault),
        Ending::Unsaid => Status::WriteFault,
    }
}

/// A conversation with Smoke. Its `words` are those after the program's name: a book's file name, or `--demo` with a number of flights; `--mode`
/// and `--workers` as for a run; `--read-only`: nothing may be appended, and no line's file is read; and `--brief`: the schema is said first in
/// place of the views.
///
/// It reads the book and the book's tables from `files`, evaluates the views, and says the text of each, or the schema, to `talk`, and then an empty
/// line. Then it hears a line from there, says what a run's report has for that line, or the answer to one of the conversation's own lines, says an
/// empty line, and hears the next one, up to the end of the lines. The file of a line that appends is read as the line is heard. No line ends the
/// conversation: if its file has a fault, if nothing may be appended, if memory ran out or if the line is too long, it is refused, and the session
/// is as it was. If there is a fault before the first line, nothing is said to `talk`, and one line is written to `err`. If memory runs out before
/// it, one line is written to `err`, too, and the texts of some views may have been said, each of them whole. How it may end is `ConverseEnds`.
pub fn converse<R: Threads + Sync, F: Files, T: Talk, E: Sink, G: Gate + Sync, L: Ledger>(
    rt: &R,
    alloc: Global,
    words: &[&str],
    files: &mut F,
    talk: &mut T,
    err: &mut E,
    gate: &G,
    steps: &mut Steps<L>,
) -> Status
    ensures ends { ConverseEnds (map (λ w. w.now) words.entry.now) (F.held files.old)
        (F.faults files.old) (F.faults files.new) (Rose (T.faults talk.old) (T.faults talk.new)) (Rose (E.faults err.old) (E.faults err.new))
        (T.told talk.old) (T.told talk.new) steps.old steps.new (E.written err.old) (E.written err.new) result }
    ensures no_look { IsStartFault result → steps.new ≡ steps.old }
    ensures held { F.held files.new ≡ F.held files.old }
    ensures files_later { F.faults files.old ≤ F.faults files.new }
    ensures talk_later { T.faults talk.old ≤ T.faults talk.new }
    ensures err_later { E.faults err.old ≤ E.faults err.new }
    ensures demo { (flights : ℕ) → talk_source (map (λ w. w.now) words.entry.now) ≡ Some (Demo flights) → F.faults files.new ≡ F.faults files.old }
{
    let engine = Engine { rt, alloc, gate };
    match talk_for(&engine, words, files, talk, steps) {
        Ok(end) => say_end(end, err),
        Err(Stop::At(fault)) => say_talk_fault(alloc, &fault, err),
        Err(_) => say_no_memory(err),
    }
}
