// The views that follow a brush, evaluated again under other brushes.
ghost use Rattle.std.specs.{Prelude.{◌≡◌, ◌<◌, ◌≤◌, ◌+◌, ◌++◌, ◌∷◌, [], ℕ, List, Ok, None, Some, Option, true, false, cond, length, All, IfOk, IfErr, IfSome, IfNone, MatchResult, OnOk}, List.{list_any, sum_by}};
ghost use Rattle.smk_base.specs.{Places.members_at, PlanImage.expr_of, declared.reply.Linked.Linked as LinkedImage};
ghost use Rattle.smk_model.specs.{Composed.forwards, LineageLaws.selected_table, Looks.looks_of_linked, Workload.declares_fwd};
ghost use Rattle.smk_model.specs.Replies as replies;
ghost use Rattle.smk_model.specs.Session as sessions;
ghost use Rattle.smk_compose.specs.declared.fault.EvalFault.TheVariants as faults;
ghost use Rattle.smk_session.specs.{Answers.{Turns, rids_or_all}, Refreshed.{all_told, AreChoices, AreFollowed, FollowsAs, IsBrushed, IsFetched, IsKept, IsReady, IsRefresh, IsSource, Names, book_at, contents_at, groups_table, linked_at, looks_now, marks_next, marks_told, state_next, views_of}, Sessions.follows};

use crate::answer::no_answer::Turned;
use crate::brush::choices::{Choice, choose, picks};
use crate::brush::evaluating::{Fetched, Source, evaluate};
use crate::brush::links::{follows_some, linked};
use crate::brush::refresh::Refresh;
use crate::start::kept::fwd_kept;
use crate::start::opening::view_of;
use crate::start::workers::Workers;
use crate::turn::{Content, Contents};
use smk_base::{Linked, Linkeds, Refusal, Rids};
use smk_compose::{EvalFault, fetch_leaves};
use smk_jobs::{Work, due, each_or_first};
use smk_marks::{KeptView, grouped_chain, reach, scanned_table};
use smk_outside::{Gate, Steps};
use smk_rid::RidMap;
use std::alloc::{AllocError, Global};
use std::sync::ledger::Ledger;
use std::thread::Threads;

// The views that follow a brush, and what is kept of them.
#[derive(Drop)]
pub(crate) struct Followed {
    pub(crate) linked: Linkeds,
    pub(crate) contents: Contents,
}

// The members of the lists at these rids, or of all lists.
fn reached(alloc: Global, map: &RidMap, chosen: &Option<Rids>) -> Result<Rids, AllocError>
    requires { All (λ rid. rid < length map.now.lists) (rids_or_all chosen.now (length map.now.lists)) }
    ensures { IfOk result (λ marks. marks ≡ members_at map.now (rids_or_all chosen.now (length map.now.lists))) }
{
    match chosen {
        Some(rids) => map.join_up(alloc, rids.as_slice()),
        None => map.join_all(alloc),
    }
}

// The forward lineage from the table to a view for which its forward query is declared. It is kept.
fn declared_map<'a>(refresh: &Refresh<'a>, w: u32) -> &'a RidMap
    requires refresh { IsRefresh refresh.now }
    requires view { w < length refresh.now.held.now.catalog.now.views }
    requires declared { declares_fwd (book_at refresh.now) w refresh.now.table ≡ true }
    ensures { result.now ≡ forwards (sessions.view_at (book_at refresh.now) w).plan (state_next refresh.now).tables refresh.now.table }
{
    let held = refresh.held;
    match fwd_kept(&held.views[w as usize], refresh.table as usize) {
        Some(map) => map,
        None => unreachable!(),
    }
}

// The marks of a view that the rows selected for it on the table reach, by the kept lineage.
fn marks_now(
    alloc: Global,
    refresh: &Refresh<'_>,
    w: u32,
    chosen: &Option<Rids>,
) -> Result<Rids, AllocError>
    requires refresh { IsRefresh refresh.now }
    requires view { w < length refresh.now.held.now.catalog.now.views }
    requires declared { declares_fwd (book_at refresh.now) w refresh.now.table ≡ true }
    requires chosen { IsBrushed refresh.now w chosen.now }
    ensures { IfOk result (λ marks. marks ≡ marks_next refresh.now w) }
{
    let map = declared_map(refresh, w);
    reached(alloc, map, chosen)
}

// These marks if they are wanted, else none.
fn marks_wanted(
    alloc: Global,
    refresh: &Refresh<'_>,
    w: u32,
    chosen: &Option<Rids>,
) -> Result<Rids, AllocError>
    requires refresh { IsRefresh refresh.now }
    requires view { w < length refresh.now.held.now.catalog.now.views }
    requires declared { declares_fwd (book_at refresh.now) w refresh.now.table ≡ true }
    requires chosen { IsBrushed refresh.now w chosen.now }
    ensures { IfOk result (λ marks. marks ≡ marks_told refresh.now w) }
{
    if refresh.marked {
        marks_now(alloc, refresh, w, chosen)
    } else {
        Ok(Rids::new(alloc))
    }
}

// The refusal of a view with too many rows at a node.
fn at_node(view: u32, fault: EvalFault) -> Turned
    ensures { (first : Option ℕ) → ((node : ℕ) → fault ≡ faults.Rows node → first ≡ Some node) → (linked : LinkedImage) → linked.view ≡ view → Turns result (replies.unless_full first linked) }
{
    match fault {
        EvalFault::Rows { node } => Turned::Refused(Refusal::RowsLimit { view, node }),
        EvalFault::NoMemory => Turned::Exhausted,
    }
}

// What is kept of a view, exactly if it is a grouping over a chain of the table.
fn kept_view<'a>(refresh: &Refresh<'a>, w: u32) -> Option<KeptView<'a>>
    requires refresh { IsRefresh refresh.now }
    requires view { w < length refresh.now.held.now.catalog.now.views }
    requires declared { declares_fwd (book_at refresh.now) w refresh.now.table ≡ true }
    ensures kept { IfSome result (IsKept refresh.now.held.now w) }
    ensures table { IfSome result (λ view. refresh.now.table ≡ selected_table (expr_of view.plan.chain.now)) }
    ensures none { IfNone result (groups_table refresh.now w ≡ false) }
{
    let held = refresh.held;
    let plan = grouped_chain(&view_of(held.catalog, w).plan)?;
    if scanned_table(plan.chain) == refresh.table {
        Some(KeptView {
            plan,
            content: &held.views[w as usize].rel,
            forward: declared_map(refresh, w),
        })
    } else {
        None
    }
}

// What is kept of a view, and what the rows selected for it reach there, where these are not all rows of the table: it shows its first content where they are. Nothing is made of it yet.
fn fetch_marks<'a, L: Ledger>(
    alloc: Global,
    refresh: &Refresh<'a>,
    w: u32,
    view: KeptView<'a>,
    chosen: &Option<Rids>,
    steps: &mut Steps<L>,
) -> Result<Source<'a>, AllocError>
    requires refresh { IsRefresh refresh.now }
    requires view { w < length refresh.now.held.now.catalog.now.views }
    requires kept { IsKept refresh.now.held.now w view }
    requires table { refresh.now.table ≡ selected_table (expr_of view.plan.chain.now) }
    requires chosen { IsBrushed refresh.now w chosen.now }
    ensures source { IfOk result (IsSource refresh.now w) }
    ensures ready { IfOk result IsReady }
    ensures looks { steps.new ≤ steps.old + looks_now refresh.now w }
{
    let table = &refresh.held.tables[refresh.table as usize];
    let rows = table.len() as usize;
    match chosen {
        Some(rids) if rids.as_slice().len() < rows => {
            let reached = reach(alloc, &view, table, rids.as_slice(), steps)?;
            Ok(Source::Marks {
                view,
                reached: Some(reached),
            })
        }
        _ => Ok(Source::Marks {
            view,
            reached: None,
        }),
    }
}

// A view's plan with the rows selected for it, one look each.
fn fetch_rows<'a, L: Ledger>(
    alloc: Global,
    refresh: &Refresh<'a>,
    w: u32,
    steps: &mut Steps<L>,
) -> Result<Source<'a>, AllocError>
    requires refresh { IsRefresh refresh.now }
    requires view { w < length refresh.now.held.now.catalog.now.views }
    ensures source { IfOk result (IsSource refresh.now w) }
    ensures ready { IfOk result IsReady }
    ensures looks { steps.new ≤ steps.old + looks_now refresh.now w }
{
    let held = refresh.held;
    let plan = &view_of(held.catalog, w).plan;
    let picks = picks(alloc, held, refresh.brushes, w)?;
    let leaves = fetch_leaves(alloc, plan, held.tables, &picks, steps)?;
    Ok(Source::Leaves { plan, leaves })
}

// What a view is made from, at most one look for each row selected for it.
fn fetch_source<'a, L: Ledger>(
    alloc: Global,
    refresh: &Refresh<'a>,
    w: u32,
    chosen: &Option<Rids>,
    steps: &mut Steps<L>,
) -> Result<Source<'a>, AllocError>
    requires refresh { IsRefresh refresh.now }
    requires view { w < length refresh.now.held.now.catalog.now.views }
    requires declared { declares_fwd (book_at refresh.now) w refresh.now.table ≡ true }
    requires chosen { IsBrushed refresh.now w chosen.now }
    ensures source { IfOk result (IsSource refresh.now w) }
    ensures ready { IfOk result IsReady }
    ensures looks { steps.new ≤ steps.old + looks_now refresh.now w }
{
    match kept_view(refresh, w) {
        Some(view) => fetch_marks(alloc, refresh, w, view, chosen, steps),
        None => fetch_rows(alloc, refresh, w, steps),
    }
}

// Puts last a view with what it is made from, and its marks, by the rows selected for it on the table. These are worked out once. It passes the gate with the number of those that wait before it.
fn fetch<'a, L: Ledger>(
    alloc: Global,
    refresh: &Refresh<'a>,
    w: u32,
    choices: &mut Vec<Choice>,
    waiting: &mut Vec<Fetched<'a>>,
    steps: &mut Steps<L>,
) -> Result<(), AllocError>
    requires refresh { IsRefresh refresh.now }
    requires choices { AreChoices refresh.now choices.old.items }
    requires view { w < length refresh.now.held.now.catalog.now.views }
    requires declared { declares_fwd (book_at refresh.now) w refresh.now.table ≡ true }
    ensures choices { OnOk result (AreChoices refresh.now choices.new.items) }
    ensures fetched { OnOk result (All (IsFetched refresh.now) waiting.old.items → All (IsFetched refresh.now) waiting.new.items) }
    ensures views { OnOk result (views_of waiting.new.items ≡ views_of waiting.old.items ++ w ∷ []) }
    ensures looks { steps.new ≤ steps.old + looks_now refresh.now w }
{
    let catalog = refresh.held.catalog;
    let at = choose(alloc, catalog, refresh.brushes, w, refresh.table, choices)?;
    let chosen = &choices[at].rids;
    let source = fetch_source(alloc, refresh, w, chosen, steps)?;
    let marks = marks_wanted(alloc, refresh, w, chosen)?;
    let place = waiting.len().min(u32::MAX as usize) as u32;
    waiting.push(Fetched {
        place,
        view: w,
        source,
        marks,
    })?;
    Ok(())
}

// What is kept of a view that shows this: nothing where no brush concerns it, since it shows its first content then.
fn to_keep(alloc: Global, refresh: &Refresh<'_>, shown: &Linked) -> Result<Content, AllocError>
    ensures { IfOk result (λ made. made ≡ record { view = shown.now.view; rel = cond (list_any (follows (book_at refresh.now) shown.now.view) refresh.now.brushes.now) (Some shown.now.rel) None }) }
{
    let rel = if follows_some(refresh.held.catalog, refresh.brushes, shown.view) {
        Some(shown.rel.copy(alloc)?)
    } else {
        None
    };
    Ok(Content {
        view: shown.view,
        rel,
    })
}

// A view evaluated again over what is fetched for it, with what is kept of it. No lineage is captured. A view that is made beside others passes the gate first.
#[tactic(auto, using(crate::proofs::Refreshing::source_made))]
fn follow_one<R: Threads + Sync, G: Gate + Sync>(
    work: &Work<'_, R, Workers<'_, G>>,
    most: u32,
    refresh: &Refresh<'_>,
    fetched: Fetched<'_>,
) -> Result<(Linked, Content), Turned>
    requires { IsFetched refresh.now fetched }
    ensures { FollowsAs refresh.now fetched.entry.view result }
{
    let Fetched {
        place,
        view,
        source,
        marks,
    } = fetched;
    if most > 1 {
        work.crew.gate.arrive(place);
    }
    match evaluate(work, source) {
        Ok(rel) => {
            let shown = Linked { view, marks, rel };
            let content = to_keep(work.alloc, refresh, &shown)?;
            Ok((shown, content))
        }
        Err(fault) => Err(at_node(view, fault)),
    }
}

// Puts last the views for which all is fetched, so many of them made at once, or gives the refusal of the first that has too many rows.
fn put_each<R: Threads + Sync, G: Gate + Sync>(
    work: &Work<'_, R, Workers<'_, G>>,
    most: u32,
    refresh: &Refresh<'_>,
    all: Vec<Fetched<'_>>,
    followed: &mut Followed,
) -> Result<(), Turned>
    requires most { 1 ≤ most }
    requires fetched { All (IsFetched refresh.now) all.items }
    ensures followed { OnOk result ((done : List ℕ) → AreFollowed refresh.now done followed.old → AreFollowed refresh.now (done ++ views_of all.entry.items) followed.new) }
    ensures turned { IfErr result (λ turned. (done rest : List ℕ) → AreFollowed refresh.now done followed.old → Turns turned (linked_at refresh.now (done ++ (views_of all.entry.items ++ rest)))) }
{
    let made = each_or_first(
        work.rt,
        work.alloc,
        most,
        all,
        &|fetched: Fetched<'_>| -> Result<(Linked, Content), Turned>
            requires { IsFetched refresh.now fetched }
            ensures { FollowsAs refresh.entry.now fetched.entry.view result }
        { follow_one(work, most, refresh, fetched) },
    )?;
    for (shown, content) in made {
        followed.contents.push(content)?;
        followed.linked.push(shown)?;
    }
    Ok(())
}

// These views, or the refusal of the first that has too many rows. So many are made at once when their rows are fetched.
fn follow_by<R: Threads + Sync, G: Gate + Sync, L: Ledger>(
    work: &Work<'_, R, Workers<'_, G>>,
    most: u32,
    refresh: &Refresh<'_>,
    views: &[u32],
    steps: &mut Steps<L>,
) -> Result<Followed, Turned>
    requires most { 1 ≤ most }
    requires refresh { IsRefresh refresh.now }
    requires named { Names refresh.now views.now }
    ensures linked { MatchResult result (λ followed. linked_at refresh.now views.now ≡ Ok followed.linked) (λ turned. Turns turned (linked_at refresh.now views.now)) }
    ensures contents { IfOk result (λ followed. followed.contents ≡ contents_at refresh.now views.now) }
    ensures looks { steps.new ≤ steps.old + sum_by (looks_now refresh.now) views.now }
{
    let mut followed = Followed {
        linked: Linkeds::new(work.alloc),
        contents: Contents::new(work.alloc),
    };
    let mut choices = Vec::new(work.alloc);
    let mut waiting = Vec::new(work.alloc);
    for w in views {
        let all = due(work.alloc, most, &mut waiting);
        put_each(work, most, refresh, all, &mut followed)?;
        fetch(work.alloc, refresh, *w, &mut choices, &mut waiting, steps)?;
    }
    put_each(work, most, refresh, waiting, &mut followed)?;
    Ok(followed)
}

// The views that the links of a view on the table name, or the refusal of the first that has too many rows. Two or more are made at once where there are several workers, and no step of them is cut.
pub(crate) fn follow<R: Threads + Sync, G: Gate + Sync, L: Ledger>(
    work: &Work<'_, R, Workers<'_, G>>,
    refresh: &Refresh<'_>,
    v: u32,
    steps: &mut Steps<L>,
) -> Result<Followed, Turned>
    requires refresh { IsRefresh refresh.now }
    ensures linked { MatchResult result (λ followed. all_told refresh.now v ≡ Ok followed.linked) (λ turned. Turns turned (all_told refresh.now v)) }
    ensures contents { IfOk result (λ followed. followed.contents ≡ contents_at refresh.now (sessions.linked (book_at refresh.now) v refresh.now.table)) }
    ensures looks { steps.new ≤ steps.old + looks_of_linked (book_at refresh.now) (state_next refresh.now) v refresh.now.table }
{
    let views = linked(work.alloc, refresh.held.catalog, v, refresh.table)?;
    let (most, workers) = if work.crew.workers == 1 || views.len() < 2 {
        (1, work.crew.workers)
    } else {
        (u32::MAX, 1)
    };
    let crew = Workers {
        gate: work.crew.gate,
        workers,
    };
    let each = Work {
        rt: work.rt,
        alloc: work.alloc,
        crew: &crew,
    };
    follow_by(&each, most, refresh, views.as_slice(), steps)
}
