// The answers to a conversation's own lines. Each kind of line has one function, and `tell_own` is the one place that knows which kinds there are.
ghost use Rattle.std.specs.Prelude.{◌≡◌, ◌≤◌, ◌+◌, false, IfOk, OnOk, OnErr};
ghost use Rattle.smk_base.specs.{CatalogImage.catalog_image, declared.reply.ProfileReply.ProfileReply};
ghost use Rattle.smk_model.specs.{OwnAnswers.{own_answered, brief_profile_answered}, Profiles.{AreDependencies, is_profile_refused}};
ghost use Rattle.smk_session.specs.Sessions.{state_of};
ghost use Rattle.smk_inputs.specs.Loaded.{said_of};
ghost use Rattle.smk_own.specs.{Answering.IsOwnAnswer, Image.own_image, Keeping.KeepsOwn};
ghost use Rattle.smk_profile.specs.Briefs.{group_sizes};

use crate::stand::Stand;
use smk_base::{Names, Text};
use smk_inputs::Engine;
use smk_outside::{Gate, Steps};
use smk_own::{OwnAnswer, OwnLine, brief, help, narrowed, narrowed_ask, schema, selected};
use smk_profile::{BriefProfile, brief_profile_text, profile_briefly};
use smk_session::Session;
use std::alloc::{AllocError, Global};
use std::sync::ledger::Ledger;
use std::thread::Threads;

// An answer that is no refusal.
fn unrefused(text: Vec<u8>) -> OwnAnswer
    ensures text { result.text ≡ text }
    ensures refused { result.refused ≡ false }
{
    OwnAnswer {
        text,
        refused: false,
    }
}

// Whether an answer to an `fd` line is a refusal.
fn is_refused(told: &BriefProfile) -> bool
    ensures { (reply : ProfileReply) → group_sizes reply ≡ told.now → result ≡ is_profile_refused reply }
{
    match told {
        BriefProfile::Found(_) => false,
        BriefProfile::Refused(_) => true,
    }
}

// What violates a dependency, without the rows. It makes no look.
fn answer_brief_profile(
    alloc: Global,
    session: &Session,
    fds: &Names,
    view: &Text,
) -> Result<OwnAnswer, AllocError>
    requires { AreDependencies (catalog_image session.now.catalog) fds.now }
    ensures { IfOk result (λ told. IsOwnAnswer told (brief_profile_answered (said_of session.now.catalog fds.now) (state_of session.now) view.now)) }
{
    let told = profile_briefly(alloc, session, fds, view)?;
    let text = brief_profile_text(alloc, view, &told)?;
    let refused = is_refused(&told);
    Ok(OwnAnswer { text, refused })
}

// The answer to an own line, and what it changes in the session.
fn answer_own_line<R: Threads + Sync, G: Gate + Sync, L: Ledger>(
    engine: &Engine<'_, R, G>,
    session: &mut Session,
    fds: &Names,
    own: &OwnLine,
    steps: &mut Steps<L>,
) -> Result<OwnAnswer, AllocError>
    requires kept { KeepsOwn (own_image own.now) }
    requires shown { AreDependencies (catalog_image session.old.catalog) fds.now }
    ensures told { IfOk result (λ told. IsOwnAnswer told (own_answered (said_of session.old.catalog fds.now) (state_of session.old) (own_image own.now))) }
    ensures after { OnOk result (state_of session.new ≡ (own_answered (said_of session.old.catalog fds.now) (state_of session.old) (own_image own.now)).next) }
    ensures kept { OnErr result (session.new ≡ session.old) }
    ensures book { session.new.catalog ≡ session.old.catalog }
    ensures looks { steps.new ≤ steps.old + (own_answered (said_of session.old.catalog fds.now) (state_of session.old) (own_image own.now)).looks }
{
    let (rt, alloc) = (engine.rt, engine.alloc);
    match own {
        OwnLine::Schema => Ok(unrefused(schema(alloc, session, fds)?)),
        OwnLine::Help => Ok(unrefused(Vec::from_slice(alloc, help())?)),
        OwnLine::Selected {
            part,
            table,
            steps: asked,
        } => selected(rt, alloc, session, *part, table, asked, steps),
        OwnLine::Narrowed { part, now, line } => {
            narrowed(rt, alloc, session, *part, *now, line, engine.gate, steps)
        }
        OwnLine::NarrowedAsk { part, now, line } => {
            narrowed_ask(rt, alloc, session, *part, *now, line, steps)
        }
        OwnLine::Brief(line) => brief(rt, alloc, session, line, engine.gate, steps),
        OwnLine::BriefProfile { view } => answer_brief_profile(alloc, session, fds, view),
    }
}

/// The answer to an own line, and the session in the next state. After an error the session is as it was.
pub fn tell_own<R: Threads + Sync, G: Gate + Sync, L: Ledger>(
    engine: &Engine<'_, R, G>,
    stand: Stand<'_>,
    own: &OwnLine,
    steps: &mut Steps<L>,
) -> (Session, Result<OwnAnswer, AllocError>)
    requires kept { KeepsOwn (own_image own.now) }
    requires shown { AreDependencies (catalog_image stand.session.catalog) stand.fds.now }
    ensures told { IfOk result.1 (λ told. IsOwnAnswer told (own_answered (said_of stand.entry.session.catalog stand.entry.fds.now) (state_of stand.entry.session) (own_image own.now))) }
    ensures after { OnOk result.1 (state_of result.0 ≡ (own_answered (said_of stand.entry.session.catalog stand.entry.fds.now) (state_of stand.entry.session) (own_image own.now)).next) }
    ensures kept { OnErr result.1 (result.0 ≡ stand.entry.session) }
    ensures book { result.0.catalog ≡ stand.entry.session.catalog }
    ensures looks { steps.new ≤ steps.old + (own_answered (said_of stand.entry.session.catalog stand.entry.fds.now) (state_of stand.entry.session) (own_image own.now)).looks }
{
    let mut session = stand.session;
    let told = answer_own_line(engine, &mut session, stand.fds, own, steps);
    (session, told)
}
