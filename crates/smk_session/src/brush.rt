// Lines that change which brushes are in force.
ghost use Rattle.std.specs.{Prelude.{◌≡◌, ◌<◌, ◌≤◌, ◌+◌, Ok, [], true, cond, length, IfOk, IfErr, IfSome, MatchResult}, List.list_any};
ghost use Rattle.smk_base.specs.{CatalogImage.catalog_image, Places.IsPlaces};
ghost use Rattle.smk_model.specs.{Catalogs.IsCatalog, Composed.backs, Looks.{looks_of_brush, looks_of_clear}};
ghost use Rattle.smk_base.specs.declared.reply.Reply.TheVariants as shapes;
ghost use Rattle.smk_model.specs.Replies as replies;
ghost use Rattle.smk_model.specs.Session as sessions;
ghost use Rattle.smk_model.specs.Workload as workload;
ghost use Rattle.smk_session.specs.{Told.Tells, Answers.{Gives, Turns, IsLent, Changes, book_of, state_lent, next_of}, Sessions.BrushFits};
ghost use Rattle.smk_session.specs.declared.answer.no_answer.Turned.TheVariants as turns;

pub(crate) mod choices;
mod evaluating;
mod following;
mod in_force;
mod links;
mod refresh;

use crate::answer::lineage::back_map;
use crate::answer::marks::marked_members;
use crate::answer::names::known_pair;
use crate::answer::no_answer::Turned;
use crate::brush::following::follow;
use crate::brush::in_force::{with_brush, without_brush};
use crate::brush::links::has_link;
use crate::brush::refresh::Refresh;
use crate::lent::Lent;
use crate::start::workers::Workers;
use crate::turn::{Brushes, Change, Content, Contents, Turn};
use smk_base::{BrushOn, Catalog, Marks, Refusal, Reply, Rids, Text};
use smk_jobs::Work;
use smk_outside::{Gate, Steps};
use smk_rid::RidMap;
use std::alloc::{AllocError, Global};
use std::sync::ledger::Ledger;
use std::thread::Threads;

// The view and the table of these names, between which there is a link.
fn linked_pair(catalog: &Catalog, view: &Text, table: &Text) -> Result<(u32, u32), Turned>
    requires checked { IsCatalog (catalog_image catalog.now) }
    ensures gives { Gives result (replies.linked_pair (catalog_image catalog.now) view.now table.now) }
    ensures view { IfOk result (λ p. p.0 < length catalog.now.views) }
    ensures table { IfOk result (λ p. p.1 < length catalog.now.tables) }
    ensures linked { IfOk result (λ p. list_any (workload.is_link p.0 p.1) catalog.now.links ≡ true) }
{
    let (v, t) = known_pair(catalog, view, table)?;
    let (v, t) = (v as u32, t as u32);
    if has_link(catalog, v, t) {
        Ok((v, t))
    } else {
        Err(Turned::Refused(Refusal::NotLinked))
    }
}

// The backward lineage of a view to a table between which there is a link. It is kept.
fn linked_map<'a>(held: &'a Lent<'_>, v: u32, t: u32) -> Result<&'a RidMap, Turned>
    requires held { IsLent held.now }
    requires view { v < length held.now.catalog.now.views }
    requires table { t < length held.now.catalog.now.tables }
    requires linked { list_any (workload.is_link v t) held.now.catalog.now.links ≡ true }
    ensures { MatchResult result (λ map. map.now ≡ backs (sessions.view_at (book_of held.now) v).plan (state_lent held.now).tables t) (λ turned. turned ≡ turns.Exhausted) }
{
    back_map(&held.views[v as usize], t as usize)
}

// The rids of a table that the marks of a view select, by the kept lineage.
fn rids_of(alloc: Global, held: &Lent<'_>, v: u32, t: u32, marks: &Marks) -> Result<Rids, Turned>
    requires held { IsLent held.now }
    requires view { v < length held.now.catalog.now.views }
    requires table { t < length held.now.catalog.now.tables }
    requires linked { list_any (workload.is_link v t) held.now.catalog.now.links ≡ true }
    ensures gives { Gives result (replies.rids_of (book_of held.now) (state_lent held.now) v t marks.now) }
    ensures set { IfOk result (λ rids. IsPlaces (length (sessions.rows_of_table (state_lent held.now) t)) rids) }
{
    let map = linked_map(held, v, t)?;
    marked_members(alloc, map, marks)
}

// The brush that a line makes: the rids that its marks select.
fn brush_of(
    alloc: Global,
    held: &Lent<'_>,
    view: &Text,
    marks: &Marks,
    table: &Text,
) -> Result<BrushOn, Turned>
    requires { IsLent held.now }
    ensures gives { Gives result (replies.brush_of (book_of held.now) (state_lent held.now) view.now marks.now table.now) }
    ensures fits { IfOk result (BrushFits held.now.catalog.now held.now.tables.now) }
{
    let (view, table) = linked_pair(held.catalog, view, table)?;
    let rids = rids_of(alloc, held, view, table, marks)?;
    Ok(BrushOn { view, table, rids })
}

// How many rids a brush has.
fn count_of(held: &Lent<'_>, brush: &BrushOn) -> u32
    requires held { IsLent held.now }
    requires fits { BrushFits held.now.catalog.now held.now.tables.now brush.now }
    ensures { result ≡ length brush.now.rids }
{
    let _rows = held.tables[brush.table as usize].len();
    brush.rids.as_slice().len() as u32
}

// Its rids if they are wanted, and else none.
fn rids_told(alloc: Global, brush: &BrushOn, listed: bool) -> Result<Rids, AllocError>
    ensures { IfOk result (λ rids. rids ≡ cond listed brush.now.rids []) }
{
    if listed {
        brush.rids.copy(alloc)
    } else {
        Ok(Rids::new(alloc))
    }
}

// A brush: it comes into force, in place of that of its view and table. Its reply has the lists of rids and of marks if they are wanted.
pub(crate) fn brush<R: Threads + Sync, G: Gate + Sync, L: Ledger>(
    work: &Work<'_, R, Workers<'_, G>>,
    held: &Lent<'_>,
    view: &Text,
    marks: &Marks,
    table: &Text,
    listed: bool,
    steps: &mut Steps<L>,
) -> Result<Turn, Turned>
    requires { IsLent held.now }
    ensures told { IfOk result (λ turn. Tells listed turn (next_of (state_lent held.now) turn.change) (replies.named_brush (book_of held.now) (state_lent held.now) view.now marks.now table.now)) }
    ensures turned { IfErr result (λ turned. Turns turned (replies.named_brush (book_of held.now) (state_lent held.now) view.now marks.now table.now)) }
    ensures changes { IfOk result (λ turn. IfSome turn.change (Changes held.now turn.reply)) }
    ensures looks { steps.new ≤ steps.old + looks_of_brush (book_of held.now) (state_lent held.now) (replies.brush_of (book_of held.now) (state_lent held.now) view.now marks.now table.now) }
{
    let brush = brush_of(work.alloc, held, view, marks, table)?;
    let count = count_of(held, &brush);
    let rids = rids_told(work.alloc, &brush, listed)?;
    let (v, t) = (brush.view, brush.table);
    let brushes = with_brush(work.alloc, held.brushes, brush)?;
    let refresh = Refresh {
        held,
        brushes: brushes.as_slice(),
        table: t,
        marked: listed,
    };
    let followed = follow(work, &refresh, v, steps)?;
    Ok(Turn {
        reply: Reply::Brush {
            rids,
            linked: followed.linked,
        },
        count,
        change: Some(Change {
            brushes,
            contents: followed.contents,
        }),
    })
}

// The end of the brush of a view and a table. Where there is none, the linked views stay as they are.
pub(crate) fn clear_one<R: Threads + Sync, G: Gate + Sync, L: Ledger>(
    work: &Work<'_, R, Workers<'_, G>>,
    held: &Lent<'_>,
    view: &Text,
    table: &Text,
    listed: bool,
    steps: &mut Steps<L>,
) -> Result<Turn, Turned>
    requires { IsLent held.now }
    ensures told { IfOk result (λ turn. Tells listed turn (next_of (state_lent held.now) turn.change) (replies.named_clear (book_of held.now) (state_lent held.now) view.now table.now)) }
    ensures turned { IfErr result (λ turned. Turns turned (replies.named_clear (book_of held.now) (state_lent held.now) view.now table.now)) }
    ensures changes { IfOk result (λ turn. IfSome turn.change (Changes held.now turn.reply)) }
    ensures looks { steps.new ≤ steps.old + looks_of_clear (book_of held.now) (state_lent held.now) (replies.linked_pair (book_of held.now) view.now table.now) }
{
    let (v, t) = linked_pair(held.catalog, view, table)?;
    let brushes = without_brush(work.alloc, held.brushes, v, t)?;
    let refresh = Refresh {
        held,
        brushes: brushes.as_slice(),
        table: t,
        marked: listed,
    };
    let followed = follow(work, &refresh, v, steps)?;
    Ok(Turn {
        reply: Reply::ClearedOne {
            linked: followed.linked,
        },
        count: 0,
        change: Some(Change {
            brushes,
            contents: followed.contents,
        }),
    })
}

// The end of all brushes: no view shows anything but its first content.
pub(crate) fn clear(alloc: Global, held: &Lent<'_>) -> Result<Turn, AllocError>
    requires { IsLent held.now }
    ensures told { IfOk result (λ turn. (turn.reply ≡ shapes.Cleared) × (next_of (state_lent held.now) turn.change ≡ sessions.under (state_lent held.now) [])) }
    ensures count { IfOk result (λ turn. turn.count ≡ 0) }
    ensures changes { IfOk result (λ turn. IfSome turn.change (Changes held.now turn.reply)) }
{
    let mut contents = Contents::new(alloc);
    for view in 0..held.contents.len() as u32 {
        contents.push(Content { view, rel: None })?;
    }
    let brushes = Brushes::new(alloc);
    Ok(Turn {
        reply: Reply::Cleared,
        count: 0,
        change: Some(Change { brushes, contents }),
    })
}
