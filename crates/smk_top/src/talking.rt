// A conversation over a session, line by line.
ghost use Rattle.std.specs.{Prelude.{◌≡◌, ◌≤◌, ◌<◌, ◌+◌, ◌&&◌, ◌||◌, ℕ, Bool, true, false, List, [], ◌∷◌, Option, Ok, length, IfOk, OnErr}, Option.option_to_list};
ghost use Rattle.smk_base.specs.CatalogImage.{catalog_image};
ghost use Rattle.smk_model.specs.{Catalogs.each_table_kinds, Conversation.{asks_append, line_limit, opening_block, opening_texts, text_read, unbrought_text}, FaultTexts.IsSaid, Outcome.{Held, appended_at}, Profiles.AreDependencies, Readings.IsReading, Reports.next_rows, Selection.{each_kinds, each_rows}, TalkStarts.BringsBy};
ghost use Rattle.smk_model.specs.OwnLines as owns;
ghost use Rattle.smk_outside.specs.{Outside.Rose, Turning.ReplyGives};
ghost use Rattle.smk_session.specs.Sessions.{state_of, workbook_of};
ghost use Rattle.smk_own.specs.{Image.own_reading_image, Keeping.KeepsOwnReading};
ghost use Rattle.smk_inputs.specs.{LineLimits.KeepsReading, Image.reading_image, Loaded.said_of};
ghost use Rattle.smk_top.specs.Talking.{AnswersLine, SaysFew, TurnTaken, Talked, talk_at, words_bytes};

use crate::answering::{LineTold, tell_line, unread_line};
use crate::no_files::NoFiles;
use crate::owning::tell_own;
use crate::reporting::text_of_view;
use crate::stand::Stand;
use smk_base::{AnyLine, Fault, Names, without_mark};
use smk_inputs::{Engine, Reading, Settings, Stop, bring, reading_of};
use smk_outside::{Ending, Files, Gate, Heard, Steps, Talk, TalkFault};
use smk_own::{OwnAnswer, OwnReading, is_own, read_own, schema};
use smk_report::fault_text;
use smk_session::Session;
use smk_table::Table;
use std::alloc::{AllocError, Global};
use std::collections::VecDeque;
use std::sync::ledger::Ledger;
use std::thread::Threads;

// The most bytes that a line may have.
const LINE_LIMIT: u64 = 67_108_864;

// The refusals that take no memory.
const READ_ONLY: &[u8] = b"refused read only\n";

const FORGONE: &[u8] = b"refused no memory\n";

const TOO_LONG: &[u8] = b"refused line too long\n";

/// How a conversation is held: the names of its book's dependencies, how the session works, whether nothing may be appended, and whether the schema is said first in place of the views.
#[derive(Drop)]
pub struct Manner<'a> {
    pub fds: &'a Names,
    pub settings: Settings,
    pub read_only: bool,
    pub brief: bool,
}

// What is said of a line: a text that was made for it, or a fixed one.
#[derive(Drop)]
enum Words {
    Made(Vec<u8>),
    Ready(&'static [u8]),
}

impl Words {
    // The bytes.
    fn as_slice(&self) -> &[u8]
        ensures { result.now ≡ words_bytes self.now }
    {
        match self {
            Words::Made(text) => text.as_slice(),
            Words::Ready(text) => text,
        }
    }
}

// What is said of a line, and whether it is refused or not read.
#[derive(Drop)]
struct Said {
    words: Words,
    down: bool,
}

// A refusal with a fixed text.
fn refusal(text: &'static [u8]) -> Said
    ensures words { words_bytes result.words ≡ text.now }
    ensures down { result.down ≡ true }
{
    Said {
        words: Words::Ready(text),
        down: true,
    }
}

// Whether a line asks for rows to be appended.
fn appends(reading: &Reading) -> bool
    ensures { result ≡ asks_append (reading_image reading.now) }
{
    match reading {
        Reading::Asks(AnyLine::Append { .. }) => true,
        _ => false,
    }
}

// The refusal of a line whose file has this fault: what a run says of it, with another first word.
fn unbrought(alloc: Global, fault: &Fault) -> Result<Said, AllocError>
    requires { IsSaid fault.now }
    ensures words { IfOk result (λ said. words_bytes said.words ≡ unbrought_text fault.now) }
    ensures down { IfOk result (λ said. said.down ≡ true) }
{
    let said = fault_text(alloc, fault)?;
    let front = b"smoke: ".len().min(said.len());
    let mut text = Vec::from_slice(alloc, b"refused ")?;
    text.extend_from_slice(&said.as_slice()[front..])?;
    Ok(Said {
        words: Words::Made(text),
        down: true,
    })
}

// The table that was brought, if one was, as those of lines in a row.
fn in_a_row(alloc: Global, brought: Option<Table>) -> Result<VecDeque<Table>, AllocError>
    ensures { IfOk result (λ added. added.items ≡ option_to_list brought) }
{
    let mut added = VecDeque::new(alloc);
    match brought {
        Some(table) => {
            added.push_back(table)?;
            Ok(added)
        }
        None => Ok(added),
    }
}

// What is said of a line that says this, once the rows of its file are there, and the session after it.
fn answer_brought<R: Threads + Sync, G: Gate + Sync, L: Ledger>(
    engine: &Engine<'_, R, G>,
    stand: Stand<'_>,
    reading: &Reading,
    brought: Option<Table>,
    steps: &mut Steps<L>,
) -> (Session, Said)
    requires shown { AreDependencies (catalog_image stand.session.catalog) stand.fds.now }
    requires few { stand.before < 18446744073709551615 }
    requires kept { KeepsReading (reading_image reading.now) }
    requires kinds { each_kinds (option_to_list brought) ≡ each_table_kinds (option_to_list (appended_at (catalog_image stand.session.catalog) (reading_image reading.now))) }
    ensures answer { (held : Option Held) (read_only : Bool) (faults faults_after : ℕ) (bytes : List ℕ) → length bytes ≤ line_limit → owns.is_own (text_read stand.entry.before bytes) ≡ false → IsReading (text_read stand.entry.before bytes) (reading_image reading.now)
        → (read_only && asks_append (reading_image reading.now)) ≡ false → BringsBy held (Rose faults faults_after) (appended_at (catalog_image stand.entry.session.catalog) (reading_image reading.now)) (Ok (next_rows (each_rows (option_to_list brought))))
        → AnswersLine (said_of stand.entry.session.catalog stand.entry.fds.now) read_only held (Rose faults faults_after) (talk_at (state_of stand.entry.session) stand.entry.before) bytes (state_of result.0) (words_bytes result.1.words) result.1.down steps.old steps.new }
    ensures book { result.0.catalog ≡ stand.entry.session.catalog }
{
    let mut added = match in_a_row(engine.alloc, brought) {
        Ok(added) => added,
        Err(_) => return (stand.session, refusal(FORGONE)),
    };
    let (session, told) = tell_line(engine, stand, reading, &mut added, steps);
    match told {
        Ok(LineTold { text, counts }) => {
            let said = Said {
                words: Words::Made(text),
                down: either(counts.refused > 0, counts.unread > 0),
            };
            (session, said)
        }
        Err(_) => (session, refusal(FORGONE)),
    }
}

// What is said of a line that says this, and the session after it.
fn answer_reading<R: Threads + Sync, F: Files, G: Gate + Sync, L: Ledger>(
    engine: &Engine<'_, R, G>,
    manner: &Manner<'_>,
    files: &mut F,
    stand: Stand<'_>,
    reading: &Reading,
    steps: &mut Steps<L>,
) -> (Session, Said)
    requires shown { AreDependencies (catalog_image stand.session.catalog) stand.fds.now }
    requires few { stand.before < 18446744073709551615 }
    requires kept { KeepsReading (reading_image reading.now) }
    ensures answer { (bytes : List ℕ) → length bytes ≤ line_limit → owns.is_own (text_read stand.entry.before bytes) ≡ false → IsReading (text_read stand.entry.before bytes) (reading_image reading.now)
        → AnswersLine (said_of stand.entry.session.catalog stand.entry.fds.now) manner.now.read_only (F.held files.old) (Rose (F.faults files.old) (F.faults files.new)) (talk_at (state_of stand.entry.session) stand.entry.before) bytes (state_of result.0) (words_bytes result.1.words) result.1.down steps.old steps.new }
    ensures book { result.0.catalog ≡ stand.entry.session.catalog }
    ensures held { F.held files.new ≡ F.held files.old }
    ensures later { F.faults files.old ≤ F.faults files.new }
{
    if manner.read_only && appends(reading) {
        return (stand.session, refusal(READ_ONLY));
    }
    match bring(
        engine,
        manner.settings,
        files,
        stand.session.catalog(),
        reading,
    ) {
        Ok(brought) => answer_brought(engine, stand, reading, brought, steps),
        Err(Stop::At(fault)) => match unbrought(engine.alloc, &fault) {
            Ok(said) => (stand.session, said),
            Err(_) => (stand.session, refusal(FORGONE)),
        },
        Err(_) => (stand.session, refusal(FORGONE)),
    }
}

// The bytes of a line as they are read, after so many lines.
fn text_heard(heard: u64, bytes: &[u8]) -> &[u8]
    ensures { result.now ≡ text_read heard bytes.now }
{
    if heard == 0 {
        without_mark(bytes)
    } else {
        bytes
    }
}

// What is said of an own line that says this, and the session after it.
fn answer_own<R: Threads + Sync, G: Gate + Sync, L: Ledger>(
    engine: &Engine<'_, R, G>,
    stand: Stand<'_>,
    reading: &OwnReading,
    steps: &mut Steps<L>,
) -> (Session, Said)
    requires shown { AreDependencies (catalog_image stand.session.catalog) stand.fds.now }
    requires few { stand.before < 18446744073709551615 }
    requires kept { KeepsOwnReading (own_reading_image reading.now) }
    ensures answer { (held : Option Held) (read_only : Bool) (faults faults_after : ℕ) (bytes : List ℕ) → length bytes ≤ line_limit → owns.is_own (text_read stand.entry.before bytes) ≡ true → owns.IsOwnReading (text_read stand.entry.before bytes) (own_reading_image reading.now)
        → AnswersLine (said_of stand.entry.session.catalog stand.entry.fds.now) read_only held (Rose faults faults_after) (talk_at (state_of stand.entry.session) stand.entry.before) bytes (state_of result.0) (words_bytes result.1.words) result.1.down steps.old steps.new }
    ensures book { result.0.catalog ≡ stand.entry.session.catalog }
{
    match reading {
        OwnReading::Owns(own) => {
            let (session, told) = tell_own(engine, stand, own, steps);
            match told {
                Ok(OwnAnswer { text, refused }) => {
                    let said = Said {
                        words: Words::Made(text),
                        down: refused,
                    };
                    (session, said)
                }
                Err(_) => (session, refusal(FORGONE)),
            }
        }
        OwnReading::Misses(at) => match unread_line(engine.alloc, stand.before + 1, *at) {
            Ok(told) => {
                let said = Said {
                    words: Words::Made(told.text),
                    down: true,
                };
                (stand.session, said)
            }
            Err(_) => (stand.session, refusal(FORGONE)),
        },
    }
}

// What is said of a line with these bytes, after so many lines, and the session after it.
fn answer_bytes<R: Threads + Sync, F: Files, G: Gate + Sync, L: Ledger>(
    engine: &Engine<'_, R, G>,
    manner: &Manner<'_>,
    files: &mut F,
    stand: Stand<'_>,
    bytes: &[u8],
    steps: &mut Steps<L>,
) -> (Session, Said)
    requires shown { AreDependencies (catalog_image stand.session.catalog) stand.fds.now }
    requires few { stand.before < 18446744073709551615 }
    requires short { length bytes.now ≤ line_limit }
    ensures answer { AnswersLine (said_of stand.entry.session.catalog stand.entry.fds.now) manner.now.read_only (F.held files.old) (Rose (F.faults files.old) (F.faults files.new)) (talk_at (state_of stand.entry.session) stand.entry.before) bytes.now (state_of result.0) (words_bytes result.1.words) result.1.down steps.old steps.new }
    ensures book { result.0.catalog ≡ stand.entry.session.catalog }
    ensures held { F.held files.new ≡ F.held files.old }
    ensures later { F.faults files.old ≤ F.faults files.new }
{
    let text = text_heard(stand.before, bytes);
    if is_own(text) {
        return match read_own(engine.alloc, text) {
            Ok(reading) => answer_own(engine, stand, &reading, steps),
            Err(_) => (stand.session, refusal(FORGONE)),
        };
    }
    match reading_of(engine.alloc, text) {
        Ok(reading) => answer_reading(engine, manner, files, stand, &reading, steps),
        Err(_) => (stand.session, refusal(FORGONE)),
    }
}

// Says a text and an empty line after it. It tells whether the conversation ends by this.
fn say_block<T: Talk>(talk: &mut T, text: &[u8]) -> Option<Ending>
    ensures gives { ReplyGives (Rose (T.faults talk.old) (T.faults talk.new)) (T.told talk.old) (T.told talk.new) (text.now ∷ (10 ∷ []) ∷ []) result }
    ensures later { T.faults talk.old ≤ T.faults talk.new }
{
    match talk.say(text) {
        Ok(()) => {}
        Err(_) => return Some(Ending::Unsaid),
    }
    match talk.say(b"\n") {
        Ok(()) => None,
        Err(_) => Some(Ending::Unsaid),
    }
}

// A session after a turn, whether the conversation ends by that, and whether a line was refused or not read.
#[derive(Drop)]
struct Taken {
    session: Session,
    ending: Option<Ending>,
    down: bool,
}

// Says a refusal with a fixed text; the session is then as it was.
fn say_ready<T: Talk>(talk: &mut T, session: Session, text: &'static [u8]) -> Taken
    ensures gives { ReplyGives (Rose (T.faults talk.old) (T.faults talk.new)) (T.told talk.old) (T.told talk.new) (text.now ∷ (10 ∷ []) ∷ []) result.ending }
    ensures session { result.session ≡ session }
    ensures down { result.down ≡ true }
    ensures later { T.faults talk.old ≤ T.faults talk.new }
{
    let ending = say_block(talk, text);
    Taken {
        session,
        ending,
        down: true,
    }
}

// Hears a line, and says what it is answered.
fn take_turn<R: Threads + Sync, F: Files, T: Talk, G: Gate + Sync, L: Ledger>(
    engine: &Engine<'_, R, G>,
    manner: &Manner<'_>,
    files: &mut F,
    talk: &mut T,
    stand: Stand<'_>,
    steps: &mut Steps<L>,
) -> Taken
    requires shown { AreDependencies (catalog_image stand.session.catalog) stand.fds.now }
    requires few { stand.before < 18446744073709551615 }
    ensures taken { TurnTaken (said_of stand.entry.session.catalog stand.entry.fds.now) manner.now.read_only (F.held files.old) (F.faults files.old) (F.faults files.new) (Rose (T.faults talk.old) (T.faults talk.new))
        (talk_at (state_of stand.entry.session) stand.entry.before) (talk_at (state_of result.session) (stand.entry.before + 1)) (T.told talk.old) (T.told talk.new) result.ending result.down steps.old steps.new }
    ensures book { result.session.catalog ≡ stand.entry.session.catalog }
    ensures held { F.held files.new ≡ F.held files.old }
    ensures later { F.faults files.old ≤ F.faults files.new }
    ensures talk_later { T.faults talk.old ≤ T.faults talk.new }
{
    match talk.hear(engine.alloc, LINE_LIMIT) {
        Ok(Heard::Line(bytes)) => {
            let (session, said) = answer_bytes(
                engine,
                manner,
                files,
                stand,
                bytes.as_slice(),
                steps,
            );
            let ending = say_block(talk, said.words.as_slice());
            Taken {
                session,
                ending,
                down: said.down,
            }
        }
        Ok(Heard::Long) => say_ready(talk, stand.session, TOO_LONG),
        Ok(Heard::End) => Taken {
            session: stand.session,
            ending: Some(Ending::Ended),
            down: false,
        },
        Err(TalkFault::NoMemory) => say_ready(talk, stand.session, FORGONE),
        Err(TalkFault::Failed) => Taken {
            session: stand.session,
            ending: Some(Ending::Unheard),
            down: false,
        },
    }
}

// Whether one or the other is so.
fn either(a: bool, b: bool) -> bool
    ensures { result ≡ (a || b) }
{
    if a { true } else { b }
}

/// How a conversation ended, and whether a line of it was refused or unread.
#[derive(Drop)]
pub struct TalkEnd {
    pub ending: Ending,
    pub down: bool,
}

// The turns of a conversation, up to its end.
fn take_turns<R: Threads + Sync, F: Files, T: Talk, G: Gate + Sync, L: Ledger>(
    engine: &Engine<'_, R, G>,
    manner: &Manner<'_>,
    files: &mut F,
    talk: &mut T,
    session: Session,
    steps: &mut Steps<L>,
) -> TalkEnd
    requires shown { AreDependencies (catalog_image session.catalog) manner.now.fds.now }
    ensures talked { Talked (said_of session.catalog manner.now.fds.now) manner.now.read_only (F.held files.old) (F.faults files.old) (F.faults files.new) (Rose (T.faults talk.old) (T.faults talk.new))
        [] (talk_at (state_of session) 0) (T.told talk.old) (T.told talk.new) result.ending result.down steps.old steps.new }
    ensures held { F.held files.new ≡ F.held files.old }
    ensures later { F.faults files.old ≤ F.faults files.new }
    ensures talk_later { T.faults talk.old ≤ T.faults talk.new }
{
    let mut session = session;
    let mut down = false;
    for heard in 0..u64::MAX {
        let stand = Stand {
            session,
            fds: manner.fds,
            before: heard,
        };
        let taken = take_turn(engine, manner, files, talk, stand, steps);
        down = either(down, taken.down);
        if let Some(ending) = taken.ending {
            return TalkEnd { ending, down };
        }
        session = taken.session;
    }
    TalkEnd {
        ending: Ending::Outlasted,
        down,
    }
}

// Says the texts that come first, each of which is let go before the next is made, and then an empty line. It tells whether the conversation ends by this.
fn say_opening<R: Threads + Sync, T: Talk, G: Gate + Sync>(
    engine: &Engine<'_, R, G>,
    manner: &Manner<'_>,
    talk: &mut T,
    session: &Session,
) -> Result<Option<Ending>, AllocError>
    requires begun { session.now.brushes ≡ [] }
    ensures gives { IfOk result (λ ending. ReplyGives (Rose (T.faults talk.old) (T.faults talk.new)) (T.told talk.old) (T.told talk.new) (opening_block manner.now.brief (workbook_of session.now) manner.now.fds.now) ending) }
    ensures few { OnErr result (SaysFew (opening_texts manner.now.brief (workbook_of session.now) manner.now.fds.now) (T.told talk.old) (T.told talk.new)) }
    ensures later { T.faults talk.old ≤ T.faults talk.new }
{
    if manner.brief {
        let text = schema(engine.alloc, session, manner.fds)?;
        return Ok(say_block(talk, text.as_slice()));
    }
    for number in 0..session.catalog().views.as_slice().len() as u32 {
        let text = text_of_view(engine.rt, engine.alloc, manner.settings, session, number)?;
        match talk.say(text.as_slice()) {
            Ok(()) => {}
            Err(_) => return Ok(Some(Ending::Unsaid)),
        }
    }
    Ok(match talk.say(b"\n") {
        Ok(()) => None,
        Err(_) => Some(Ending::Unsaid),
    })
}

/// A conversation with a session that begins: it says its opening, and then hears lines and answers each before it hears the next. After each text it says an empty line, and after the opening only one. If nothing may be appended, no line reads a file. It errs only in the opening.
pub fn hold<R: Threads + Sync, F: Files, T: Talk, G: Gate + Sync, L: Ledger>(
    engine: &Engine<'_, R, G>,
    manner: &Manner<'_>,
    files: &mut F,
    talk: &mut T,
    session: Session,
    steps: &mut Steps<L>,
) -> Result<TalkEnd, AllocError>
    requires shown { AreDependencies (catalog_image session.catalog) manner.now.fds.now }
    requires begun { session.brushes ≡ [] }
    ensures talked { IfOk result (λ end. Talked (said_of session.catalog manner.now.fds.now) manner.now.read_only (F.held files.old) (F.faults files.old) (F.faults files.new) (Rose (T.faults talk.old) (T.faults talk.new))
        (opening_block manner.now.brief (workbook_of session) manner.now.fds.now) (talk_at (state_of session) 0) (T.told talk.old) (T.told talk.new) end.ending end.down steps.old steps.new) }
    ensures few { OnErr result (SaysFew (opening_texts manner.now.brief (workbook_of session) manner.now.fds.now) (T.told talk.old) (T.told talk.new) × (steps.new ≡ steps.old)) }
    ensures held { F.held files.new ≡ F.held files.old }
    ensures later { F.faults files.old ≤ F.faults files.new }
    ensures talk_later { T.faults talk.old ≤ T.faults talk.new }
{
    let opened = say_opening(engine, manner, talk, &session)?;
    Ok(match opened {
        Some(ending) => TalkEnd {
            ending,
            down: false,
        },
        None => {
            if manner.read_only {
                take_turns(engine, manner, &mut NoFiles, talk, session, steps)
            } else {
                take_turns(engine, manner, files, talk, session, steps)
            }
        }
    })
}
