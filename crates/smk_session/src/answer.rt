ghost use Rattle.std.specs.Prelude.{◌≡◌, ◌<◌, ◌≤◌, ◌+◌, Ok, None, IfOk, IfErr, IfSome, length};
ghost use Rattle.smk_model.specs.{Looks.line_looks, ReplyTexts.AsksRows};
ghost use Rattle.smk_model.specs.Replies as replies;
ghost use Rattle.smk_base.specs.declared.book.tree.Line.TheVariants as lines;
ghost use Rattle.smk_session.specs.{Behind.{BehindFits, FindsBehind}, Told.{HasNoLists, Tells}, Answers.{Gives, Turns, IsLent, Changes, book_of, state_lent, next_of, fwd_by, looks_of_asked}};

mod backward;
pub(crate) mod lineage;
pub(crate) mod marks;
pub(crate) mod names;
pub(crate) mod no_answer;
pub(crate) mod rows_behind;

use crate::answer::backward::{groups, pair_of, rids_of, rows_of};
use crate::answer::lineage::fwd_map;
use crate::answer::marks::marked_members;
use crate::answer::names::{known_pair, known_view};
use crate::answer::no_answer::Turned;
use crate::answer::rows_behind::RowsBehind;
use crate::brush::{brush, clear, clear_one};
use crate::lent::Lent;
use crate::start::workers::Workers;
use crate::turn::Turn;
use smk_base::{Line, Marks, Rel, Reply, Text, Then};
use smk_compose::Run;
use smk_jobs::Work;
use smk_outside::{Gate, Steps};
use std::alloc::Global;
use std::sync::ledger::Ledger;
use std::thread::Threads;

/// Whether a reply is a refusal.
pub fn has_refused(reply: &Reply) -> bool
    ensures { result ≡ replies.is_refused reply.now }
{
    match reply {
        Reply::Refused(_) => true,
        _ => false,
    }
}

// What a view shows: the content that is kept under the brushes in force, or else its first content.
fn content<'a>(held: &'a Lent<'_>, v: usize) -> &'a Rel
    requires held { IsLent held.now }
    requires view { v < length held.now.catalog.now.views }
    ensures { result.now ≡ replies.content_of (book_of held.now) (state_lent held.now) v }
{
    match &held.contents[v] {
        Some(rel) => rel,
        None => &held.views[v].rel,
    }
}

// The content of a view under the brushes in force.
fn show(alloc: Global, held: &Lent<'_>, view: &Text) -> Result<Reply, Turned>
    requires { IsLent held.now }
    ensures gives { Gives result (replies.named_view (book_of held.now) (state_lent held.now) view.now) }
    ensures lists { IfOk result HasNoLists }
{
    let v = known_view(held.catalog, view)?;
    let rel = content(held, v).copy(alloc)?;
    Ok(Reply::View { rel })
}

// A backward query, as its line has it.
#[derive(Drop)]
pub(crate) struct Query<'a> {
    pub(crate) view: &'a Text,
    pub(crate) marks: &'a Marks,
    pub(crate) table: &'a Text,
    pub(crate) then: &'a Then,
}

// The rids of the rows that a backward query asks for, with its view and its table. No row is looked at.
pub(crate) fn rids_behind(
    alloc: Global,
    held: &Lent<'_>,
    asked: &Query<'_>,
) -> Result<RowsBehind, Turned>
    requires held { IsLent held.now }
    requires rows { AsksRows asked.now.then.now }
    ensures found { FindsBehind (book_of held.now) (state_lent held.now) (lines.Back asked.now.view.now asked.now.marks.now asked.now.table.now asked.now.then.now) result }
    ensures fits { IfOk result (BehindFits held.now.catalog.now held.now.tables.now) }
{
    let pair = pair_of(held, asked.view, asked.table)?;
    let rids = rids_of(alloc, &pair, asked.marks, asked.then)?;
    Ok(RowsBehind {
        view: pair.view as u32,
        table: pair.table as u32,
        rids,
    })
}

// The answer to a backward query: the rows, those of them with a value, or a declared grouping of them.
fn back<L: Ledger>(
    alloc: Global,
    held: &Lent<'_>,
    asked: &Query<'_>,
    steps: &mut Steps<L>,
) -> Result<Reply, Turned>
    requires { IsLent held.now }
    ensures gives { Gives result (replies.named_back (book_of held.now) (state_lent held.now) asked.now.view.now asked.now.marks.now asked.now.table.now asked.now.then.now) }
    ensures lists { IfOk result HasNoLists }
    ensures looks { steps.new ≤ steps.old + looks_of_asked (replies.named_back (book_of held.now) (state_lent held.now) asked.now.view.now asked.now.marks.now asked.now.table.now asked.now.then.now) }
{
    let pair = pair_of(held, asked.view, asked.table)?;
    match asked.then {
        Then::Plain | Then::Matching { .. } => {
            rows_of(alloc, &pair, asked.marks, asked.then, steps)
        }
        Then::Grouped => groups(alloc, &pair, asked.marks),
    }
}

// The marks of a view that the marked rows of a table reach, by the kept lineage.
fn fwd_marks(alloc: Global, run: &Run, t: usize, rows: &Marks) -> Result<Reply, Turned>
    ensures gives { Gives result (fwd_by run.now.kept t rows.now) }
    ensures lists { IfOk result HasNoLists }
{
    let map = fwd_map(run, t)?;
    let marks = marked_members(alloc, map, rows)?;
    Ok(Reply::Fwd { marks })
}

// The answer to a forward query.
fn fwd(
    alloc: Global,
    held: &Lent<'_>,
    table: &Text,
    rows: &Marks,
    view: &Text,
) -> Result<Reply, Turned>
    requires { IsLent held.now }
    ensures gives { Gives result (replies.named_fwd (book_of held.now) (state_lent held.now) table.now rows.now view.now) }
    ensures lists { IfOk result HasNoLists }
{
    let (v, t) = known_pair(held.catalog, view, table)?;
    fwd_marks(alloc, &held.views[v], t, rows)
}

// A reply that leaves the session as it is.
fn stays(reply: Reply) -> Result<Turn, Turned>
    ensures { result ≡ Ok (record { reply = reply; count = 0; change = None }) }
{
    Ok(Turn {
        reply,
        count: 0,
        change: None,
    })
}

// What a line is answered, with lists of rids and marks where a brush is set or ended and they are wanted, and what it changes.
pub(crate) fn answer_to<R: Threads + Sync, G: Gate + Sync, L: Ledger>(
    work: &Work<'_, R, Workers<'_, G>>,
    held: &Lent<'_>,
    line: &Line,
    listed: bool,
    steps: &mut Steps<L>,
) -> Result<Turn, Turned>
    requires held { IsLent held.now }
    ensures told { IfOk result (λ turn. Tells listed turn (next_of (state_lent held.now) turn.change) (replies.answer_to (book_of held.now) (state_lent held.now) line.now)) }
    ensures turned { IfErr result (λ turned. Turns turned (replies.answer_to (book_of held.now) (state_lent held.now) line.now)) }
    ensures changes { IfOk result (λ turn. IfSome turn.change (Changes held.now turn.reply)) }
    ensures looks { steps.new ≤ steps.old + line_looks (book_of held.now) (state_lent held.now) line.now }
{
    match line {
        Line::Show { view } => stays(show(work.alloc, held, view)?),
        Line::Back {
            view,
            marks,
            table,
            then,
        } => {
            let asked = Query {
                view,
                marks,
                table,
                then,
            };
            stays(back(work.alloc, held, &asked, steps)?)
        }
        Line::Fwd { table, rows, view } => stays(fwd(work.alloc, held, table, rows, view)?),
        Line::Brush { view, marks, table } => {
            brush(work, held, view, marks, table, listed, steps)
        }
        Line::Clear => Ok(clear(work.alloc, held)?),
        Line::ClearOne { view, table } => clear_one(work, held, view, table, listed, steps),
    }
}
