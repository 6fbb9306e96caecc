// Lines that change brushes, answered without rids and marks.
ghost use Rattle.std.specs.Prelude.{◌≡◌, ◌≤◌, ◌+◌, true, IfOk, OnErr};
ghost use Rattle.smk_base.specs.CatalogImage.{catalog_image};
ghost use Rattle.smk_model.specs.{OwnAnswers.brief_answered, OwnLines.moves_brushes};
ghost use Rattle.smk_session.specs.Sessions.{state_of};
ghost use Rattle.smk_own.specs.Answering.{IsOwnAnswer};

use crate::answer::OwnAnswer;
use smk_base::Line;
use smk_outside::{Gate, Steps};
use smk_report::brief_text;
use smk_session::{Session, has_refused};
use std::alloc::{AllocError, Global};
use std::sync::ledger::Ledger;
use std::thread::Threads;

/// The answer to a line that changes brushes, without its lists: its first line and the contents of the linked views, and the session in the next state, which is that of the line by itself. No list of rids or of marks is made for the text. After an error the session is as it was.
pub fn brief<R: Threads + Sync, G: Gate + Sync, L: Ledger>(
    rt: &R,
    alloc: Global,
    session: &mut Session,
    line: &Line,
    gate: &G,
    steps: &mut Steps<L>,
) -> Result<OwnAnswer, AllocError>
    requires { moves_brushes line.now ≡ true }
    ensures told { IfOk result (λ told. IsOwnAnswer told (brief_answered (catalog_image session.old.catalog) (state_of session.old) line.now)) }
    ensures after { IfOk result (λ told. state_of session.new ≡ (brief_answered (catalog_image session.old.catalog) (state_of session.old) line.now).next) }
    ensures book { session.new.catalog ≡ session.old.catalog }
    ensures kept { OnErr result (session.new ≡ session.old) }
    ensures looks { steps.new ≤ steps.old + (brief_answered (catalog_image session.old.catalog) (state_of session.old) line.now).looks }
{
    let turn = session.turn_briefly(rt, alloc, line, gate, steps)?;
    let text = brief_text(alloc, session.catalog(), line, &turn.reply, turn.count)?;
    // From here on nothing takes memory.
    let reply = session.take(turn);
    let refused = has_refused(&reply);
    Ok(OwnAnswer { text, refused })
}
