// The answers to the lines of a script. Each kind of line has one function here, and `answer_line` is the one place that knows which kinds there are.
ghost use Rattle.std.specs.Prelude.{◌≡◌, ◌≤◌, ◌<◌, ◌+◌, ℕ, List, Some, None, cond, is_some, length, IfSome, IfOk, OnOk, OnErr};
ghost use Rattle.smk_base.specs.{CatalogImage.{catalog_image, table_place}, TreeImage.{any_image, ask_image}};
ghost use Rattle.smk_model.specs.Appends as appends;
ghost use Rattle.smk_model.specs.{Asks.is_ask_refused, Catalogs.table_kinds, Limits.KeepsAsk, Outcome.{appended_at, appended_by}, Profiles.AreDependencies, ReplyTexts.table_named, Selection.each_rows, Typing.info_at, Values.Row};
ghost use Rattle.smk_model.specs.Profiles as profiles;
ghost use Rattle.smk_model.specs.Reports as reports;
ghost use Rattle.smk_model.specs.Texts as line_texts;
ghost use Rattle.smk_session.specs.Sessions.{state_of};
ghost use Rattle.smk_inputs.specs.{Added.{BeginsWith, tables_left}, Image.reading_image, LineLimits.{KeepsLine, KeepsReading}, Loaded.said_of};
ghost use Rattle.smk_top.specs.{Answering.IsAnswered, Counting.counts_told};

use crate::counting::NOTHING;
use crate::counts::Counts;
use crate::stand::Stand;
use smk_ask::{ask, ask_text};
use smk_base::{
    AnyLine, AppendRefusal, AppendReply, AskLine, AskReply, Line, Names, ProfileReply, Text,
};
use smk_grow::{append_text, append_told};
use smk_inputs::{Engine, Reading};
use smk_outside::{Gate, Steps};
use smk_profile::{profile, profile_text};
use smk_report::{bad_line_text, reply_text_in_pieces};
use smk_session::{Session, has_refused};
use smk_table::Table;
use std::alloc::{AllocError, Global};
use std::collections::VecDeque;
use std::sync::ledger::Ledger;
use std::thread::Threads;

// The answer to a line of the grammar: its text, and whether it is refused.
#[derive(Drop)]
pub(crate) struct Answered {
    pub(crate) text: Vec<u8>,
    pub(crate) refused: bool,
}

// A line that the session answers by itself.
fn answer_plain<R: Threads + Sync, G: Gate + Sync, L: Ledger>(
    engine: &Engine<'_, R, G>,
    session: &mut Session,
    line: &Line,
    steps: &mut Steps<L>,
) -> Result<Answered, AllocError>
    ensures told { IfOk result (λ told. IsAnswered told (reports.plain_answered (catalog_image session.old.catalog) (state_of session.old) line.now)) }
    ensures after { IfOk result (λ told. state_of session.new ≡ (reports.plain_answered (catalog_image session.old.catalog) (state_of session.old) line.now).next) }
    ensures book { session.new.catalog ≡ session.old.catalog }
    ensures kept { OnErr result (session.new ≡ session.old) }
    ensures looks { steps.new ≤ steps.old + (reports.plain_answered (catalog_image session.old.catalog) (state_of session.old) line.now).looks }
{
    let turn = session.turn(engine.rt, engine.alloc, line, engine.gate, steps)?;
    let workers = session.crew(engine.gate).workers;
    let text = reply_text_in_pieces(
        engine.rt,
        engine.alloc,
        workers,
        session.catalog(),
        line,
        &turn.reply,
    )?;
    // From here on nothing takes memory.
    let reply = session.take(turn);
    let refused = has_refused(&reply);
    Ok(Answered { text, refused })
}

// Whether an answer to an `ask` line is a refusal.
fn is_refused(reply: &AskReply) -> bool
    ensures { result ≡ is_ask_refused reply.now }
{
    match reply {
        AskReply::Refused(_) => true,
        AskReply::Rows { .. } => false,
    }
}

// A line that asks for steps over a backward answer.
fn answer_ask<R: Threads + Sync, G: Gate + Sync, L: Ledger>(
    engine: &Engine<'_, R, G>,
    session: &mut Session,
    line: &AskLine,
    steps: &mut Steps<L>,
) -> Result<Answered, AllocError>
    requires { KeepsAsk (ask_image line.now) }
    ensures told { IfOk result (λ told. IsAnswered told (reports.ask_answered (catalog_image session.old.catalog) (state_of session.old) (ask_image line.now))) }
    ensures after { IfOk result (λ told. state_of session.new ≡ (reports.ask_answered (catalog_image session.old.catalog) (state_of session.old) (ask_image line.now)).next) }
    ensures book { session.new.catalog ≡ session.old.catalog }
    ensures kept { OnErr result (session.new ≡ session.old) }
    ensures looks { steps.new ≤ steps.old + (reports.ask_answered (catalog_image session.old.catalog) (state_of session.old) (ask_image line.now)).looks }
{
    let reply = ask(engine.rt, engine.alloc, session, line, engine.gate, steps)?;
    let text = ask_text(engine.alloc, line, &reply)?;
    let refused = is_refused(&reply);
    Ok(Answered { text, refused })
}

// Whether an answer to an `fd` line is a refusal.
fn is_profile_refused(reply: &ProfileReply) -> bool
    ensures { result ≡ profiles.is_profile_refused reply.now }
{
    match reply {
        ProfileReply::Refused(_) => true,
        ProfileReply::Found { .. } => false,
    }
}

// A line that asks what violates a dependency.
fn answer_profile<R: Threads + Sync, G: Gate + Sync, L: Ledger>(
    engine: &Engine<'_, R, G>,
    session: &mut Session,
    fds: &Names,
    view: &Text,
    steps: &mut Steps<L>,
) -> Result<Answered, AllocError>
    requires { AreDependencies (catalog_image session.old.catalog) fds.now }
    ensures told { IfOk result (λ told. IsAnswered told (reports.profile_answered (said_of session.old.catalog fds.now) (state_of session.old) view.now)) }
    ensures after { IfOk result (λ told. state_of session.new ≡ (reports.profile_answered (said_of session.old.catalog fds.now) (state_of session.old) view.now).next) }
    ensures book { session.new.catalog ≡ session.old.catalog }
    ensures kept { OnErr result (session.new ≡ session.old) }
    ensures looks { steps.new ≤ steps.old + (reports.profile_answered (said_of session.old.catalog fds.now) (state_of session.old) view.now).looks }
{
    let reply = profile(
        engine.rt,
        engine.alloc,
        session,
        fds,
        view,
        engine.gate,
        steps,
    )?;
    let text = profile_text(engine.alloc, session.catalog(), view, &reply)?;
    let refused = is_profile_refused(&reply);
    Ok(Answered { text, refused })
}

// Whether an answer to an `append` line is a refusal.
fn is_append_refused(reply: &AppendReply) -> bool
    ensures { result ≡ appends.is_append_refused reply.now }
{
    match reply {
        AppendReply::Refused(_) => true,
        AppendReply::Added { .. } => false,
    }
}

// Rows that a line appends to the table of this name, which the book has.
fn append_rows<R: Threads + Sync, G: Gate + Sync, L: Ledger>(
    engine: &Engine<'_, R, G>,
    session: Session,
    table: &Text,
    more: Table,
    steps: &mut Steps<L>,
) -> (Session, Result<Answered, AllocError>)
    requires kinds { (t : ℕ) → table_place (catalog_image session.catalog) table.now ≡ Some t → more.kinds ≡ table_kinds (info_at session.catalog.tables t) }
    ensures told { IfOk result.1 (λ told. IsAnswered told (reports.append_answered (catalog_image session.catalog) (state_of session) table.now more.rows)) }
    ensures after { OnOk result.1 (state_of result.0 ≡ (reports.append_answered (catalog_image session.catalog) (state_of session) table.now more.rows).next) }
    ensures kept { OnErr result.1 (result.0 ≡ session) }
    ensures book { result.0.catalog ≡ session.catalog }
    ensures looks { steps.new ≤ steps.old + (reports.append_answered (catalog_image session.catalog) (state_of session) table.now more.rows).looks }
{
    let (session, told) = append_told(
        engine.rt,
        engine.alloc,
        session,
        table,
        more,
        engine.gate,
        steps,
    );
    match told {
        Ok((reply, text)) => {
            let refused = is_append_refused(&reply);
            (session, Ok(Answered { text, refused }))
        }
        Err(e) => (session, Err(e)),
    }
}

// A line that appends to a table that the book hasn't.
fn refuse_rows(alloc: Global, session: &Session, table: &Text) -> Result<Answered, AllocError>
    requires { table_place (catalog_image session.now.catalog) table.now ≡ None }
    ensures told { (more : List Row) → IfOk result (λ told. IsAnswered told (reports.append_answered (catalog_image session.now.catalog) (state_of session.now) table.now more)) }
{
    let reply = AppendReply::Refused(AppendRefusal::UnknownTable);
    let text = append_text(alloc, session, table, &reply)?;
    Ok(Answered {
        text,
        refused: true,
    })
}

// A line that appends the rows of the next of these tables.
fn answer_append<R: Threads + Sync, G: Gate + Sync, L: Ledger>(
    engine: &Engine<'_, R, G>,
    session: Session,
    table: &Text,
    added: &mut VecDeque<Table>,
    steps: &mut Steps<L>,
) -> (Session, Result<Answered, AllocError>)
    requires { IfSome (table_named (catalog_image session.catalog) table.now) (λ info. BeginsWith info added.old.items) }
    ensures told { IfOk result.1 (λ told. IsAnswered told (reports.append_answered (catalog_image session.catalog) (state_of session) table.now (reports.next_rows (each_rows added.old.items)))) }
    ensures after { OnOk result.1 (state_of result.0 ≡ (reports.append_answered (catalog_image session.catalog) (state_of session) table.now (reports.next_rows (each_rows added.old.items))).next) }
    ensures kept { OnErr result.1 (result.0 ≡ session) }
    ensures book { result.0.catalog ≡ session.catalog }
    ensures left { OnOk result.1 (added.new.items ≡ tables_left (is_some (table_place (catalog_image session.catalog) table.now)) added.old.items) }
    ensures looks { steps.new ≤ steps.old + (reports.append_answered (catalog_image session.catalog) (state_of session) table.now (reports.next_rows (each_rows added.old.items))).looks }
{
    if session.catalog().table_place(table).is_none() {
        let told = refuse_rows(engine.alloc, &session, table);
        return (session, told);
    }
    match added.pop_front() {
        Some(more) => append_rows(engine, session, table, more, steps),
        None => unreachable!(),
    }
}

// The answer to a line of any kind, over a book whose dependencies have these names, and the session in the next state. A line that appends rows takes the first of these tables. After an error the session is as it was.
fn answer_line<R: Threads + Sync, G: Gate + Sync, L: Ledger>(
    engine: &Engine<'_, R, G>,
    session: Session,
    fds: &Names,
    line: &AnyLine,
    added: &mut VecDeque<Table>,
    steps: &mut Steps<L>,
) -> (Session, Result<Answered, AllocError>)
    requires kept { KeepsLine (any_image line.now) }
    requires shown { AreDependencies (catalog_image session.catalog) fds.now }
    requires fits { IfSome (appended_by (catalog_image session.catalog) (any_image line.now)) (λ info. BeginsWith info added.old.items) }
    ensures told { IfOk result.1 (λ told. IsAnswered told (reports.answered (said_of session.catalog fds.now) (state_of session) (reports.next_rows (each_rows added.old.items)) (any_image line.now))) }
    ensures after { OnOk result.1 (state_of result.0 ≡ (reports.answered (said_of session.catalog fds.now) (state_of session) (reports.next_rows (each_rows added.old.items)) (any_image line.now)).next) }
    ensures kept { OnErr result.1 (result.0 ≡ session) }
    ensures book { result.0.catalog ≡ session.catalog }
    ensures left { OnOk result.1 (added.new.items ≡ tables_left (reports.appends (catalog_image session.catalog) (any_image line.now)) added.old.items) }
    ensures looks { steps.new ≤ steps.old + (reports.answered (said_of session.catalog fds.now) (state_of session) (reports.next_rows (each_rows added.old.items)) (any_image line.now)).looks }
{
    let mut session = session;
    match line {
        AnyLine::Plain(line) => {
            let told = answer_plain(engine, &mut session, line, steps);
            (session, told)
        }
        AnyLine::Ask(line) => {
            let told = answer_ask(engine, &mut session, line, steps);
            (session, told)
        }
        AnyLine::Profile { view } => {
            let told = answer_profile(engine, &mut session, fds, view, steps);
            (session, told)
        }
        AnyLine::Append { table, .. } => { answer_append(engine, session, table, added, steps) }
    }
}

/// The answer to a line of a script: its text and its counts.
#[derive(Drop)]
pub struct LineTold {
    pub text: Vec<u8>,
    pub counts: Counts,
}

// The text and the counts of a line that is answered.
fn counted(told: Answered) -> LineTold
    ensures text { result.text ≡ told.text }
    ensures counts { result.counts ≡ record { replies = 1; refused = cond told.refused 1 0; unread = 0; bytes = length told.text.items } }
{
    let Answered { text, refused } = told;
    let counts = Counts {
        replies: 1,
        refused: if refused { 1 } else { 0 },
        unread: 0,
        bytes: text.len() as u64,
    };
    LineTold { text, counts }
}

/// The text and the counts of a line with this number that isn't in the grammar.
pub fn unread_line(alloc: Global, number: u64, at: u64) -> Result<LineTold, AllocError>
    ensures text { IfOk result (λ told. told.text.items ≡ line_texts.bad_line_text number at) }
    ensures counts { IfOk result (λ told. told.counts ≡ record { replies = 0; refused = 0; unread = 1; bytes = length (line_texts.bad_line_text number at) }) }
{
    let text = bad_line_text(alloc, number, at)?;
    let counts = Counts {
        unread: 1,
        bytes: text.len() as u64,
        ..NOTHING
    };
    Ok(LineTold { text, counts })
}

/// The answer to the next line, which says this, and the session in the next state. A line that appends rows takes the first of these tables. After an error the session is as it was.
pub fn tell_line<R: Threads + Sync, G: Gate + Sync, L: Ledger>(
    engine: &Engine<'_, R, G>,
    stand: Stand<'_>,
    reading: &Reading,
    added: &mut VecDeque<Table>,
    steps: &mut Steps<L>,
) -> (Session, Result<LineTold, AllocError>)
    requires kept { KeepsReading (reading_image reading.now) }
    requires shown { AreDependencies (catalog_image stand.session.catalog) stand.fds.now }
    requires few { stand.before < 18446744073709551615 }
    requires fits { IfSome (appended_at (catalog_image stand.session.catalog) (reading_image reading.now)) (λ info. BeginsWith info added.old.items) }
    ensures text { IfOk result.1 (λ told. told.text.items ≡ (reports.line_told (said_of stand.entry.session.catalog stand.entry.fds.now) (state_of stand.entry.session) (stand.entry.before + 1) (reports.next_rows (each_rows added.old.items)) (reading_image reading.now)).text) }
    ensures counts { IfOk result.1 (λ told. told.counts ≡ counts_told (reports.line_told (said_of stand.entry.session.catalog stand.entry.fds.now) (state_of stand.entry.session) (stand.entry.before + 1) (reports.next_rows (each_rows added.old.items)) (reading_image reading.now))) }
    ensures after { OnOk result.1 (state_of result.0 ≡ reports.state_after (said_of stand.entry.session.catalog stand.entry.fds.now) (state_of stand.entry.session) (reports.next_rows (each_rows added.old.items)) (reading_image reading.now)) }
    ensures kept { OnErr result.1 (result.0 ≡ stand.entry.session) }
    ensures book { result.0.catalog ≡ stand.entry.session.catalog }
    ensures left { OnOk result.1 (added.new.items ≡ tables_left (reports.brings_rows (catalog_image stand.entry.session.catalog) (reading_image reading.now)) added.old.items) }
    ensures looks { steps.new ≤ steps.old + (reports.line_told (said_of stand.entry.session.catalog stand.entry.fds.now) (state_of stand.entry.session) (stand.entry.before + 1) (reports.next_rows (each_rows added.old.items)) (reading_image reading.now)).looks }
{
    match reading {
        Reading::Nothing => {
            let text = Vec::new(engine.alloc);
            (
                stand.session,
                Ok(LineTold {
                    text,
                    counts: NOTHING,
                }),
            )
        }
        Reading::Asks(line) => {
            let (session, told) = answer_line(engine, stand.session, stand.fds, line, added, steps);
            match told {
                Ok(told) => (session, Ok(counted(told))),
                Err(e) => (session, Err(e)),
            }
        }
        Reading::Unread(at) => {
            let told = unread_line(engine.alloc, stand.before + 1, *at);
            (stand.session, told)
        }
    }
}
