// Views over a table that has grown.
ghost use Rattle.std.specs.{Prelude.{◌≡◌, ◌<◌, ◌≤◌, ◌+◌, false, length, map, None, IfOk, IfErr, OnOk}, List.sum_by};
ghost use Rattle.smk_base.specs.Places.{upto};
ghost use Rattle.smk_model.specs.Opening.{first_some};
ghost use Rattle.smk_session.specs.Opened.{IsStartFault};
ghost use Rattle.smk_grow.specs.{Renewals.{IsRenewal, book_of, first_book, last_book}, Renewed.{apart_view, chains, fresh_view, kept_view, kept_views, scan_fault, looks_again}};

use crate::chained::grown_view;
use crate::renewal::Renewal;
use smk_jobs::Work;
use smk_outside::{Gate, Steps};
use smk_session::{Opened, StartFault, Workers, open_view, view_scans};
use std::sync::ledger::Ledger;
use std::thread::Threads;

// What takes the place of a view that is no growing chain, if anything does.
fn other_view<R: Threads + Sync, G: Gate + Sync, L: Ledger>(
    work: &Work<'_, R, Workers<'_, G>>,
    renewal: &Renewal<'_>,
    v: u32,
    steps: &mut Steps<L>,
) -> Result<Option<Opened>, StartFault>
    requires renewal { IsRenewal renewal.now }
    requires view { v < length renewal.now.book.now.views }
    requires other { chains (book_of renewal.now).catalog renewal.now.table v ≡ false }
    ensures fresh { IfOk result (λ fresh. fresh ≡ fresh_view renewal.now.table (book_of renewal.now) v) }
    ensures none { OnOk result (scan_fault renewal.now.table (book_of renewal.now) v ≡ None) }
    ensures fault { IfErr result (λ e. IsStartFault e (scan_fault renewal.now.table (book_of renewal.now) v)) }
    ensures looks { steps.new ≤ steps.old + looks_again renewal.now.table (book_of renewal.now) v }
{
    if view_scans(renewal.book, renewal.table, v) {
        match open_view(work, renewal.mode, renewal.book, renewal.tables, v, steps) {
            Ok(opened) => Ok(Some(opened)),
            Err(fault) => Err(fault),
        }
    } else {
        Ok(None)
    }
}

// What takes the place of a view, if anything does. A growing chain over the new rows alone is given.
fn one_fresh<R: Threads + Sync, G: Gate + Sync, L: Ledger>(
    work: &Work<'_, R, Workers<'_, G>>,
    renewal: &Renewal<'_>,
    v: u32,
    old: &Opened,
    apart: &Option<Opened>,
    steps: &mut Steps<L>,
) -> Result<Option<Opened>, StartFault>
    requires renewal { IsRenewal renewal.now }
    requires view { v < length renewal.now.book.now.views }
    requires old { old.now ≡ kept_view renewal.now.table (first_book renewal.now) (book_of renewal.now) v }
    requires apart { apart.now ≡ apart_view renewal.now.table (last_book renewal.now) v }
    ensures fresh { IfOk result (λ fresh. fresh ≡ fresh_view renewal.now.table (book_of renewal.now) v) }
    ensures none { OnOk result (scan_fault renewal.now.table (book_of renewal.now) v ≡ None) }
    ensures fault { IfErr result (λ e. IsStartFault e (scan_fault renewal.now.table (book_of renewal.now) v)) }
    ensures looks { steps.new ≤ steps.old + looks_again renewal.now.table (book_of renewal.now) v }
{
    match apart {
        Some(new) => match grown_view(work.alloc, renewal, v, old, new) {
            Ok(grown) => Ok(Some(grown)),
            Err(_) => Err(StartFault::NoMemory),
        },
        None => other_view(work, renewal, v, steps),
    }
}

// What replaces the views over the tables without the new rows, each at the place of its view; or the first that scans the table and is too big.
pub(crate) fn each_fresh<R: Threads + Sync, G: Gate + Sync, L: Ledger>(
    work: &Work<'_, R, Workers<'_, G>>,
    renewal: &Renewal<'_>,
    olds: &[Opened],
    apart: &[Option<Opened>],
    steps: &mut Steps<L>,
) -> Result<Vec<Option<Opened>>, StartFault>
    requires renewal { IsRenewal renewal.now }
    requires olds { olds.now ≡ kept_views renewal.now.table (first_book renewal.now) (book_of renewal.now) }
    requires apart { apart.now ≡ map (apart_view renewal.now.table (last_book renewal.now)) (upto (length (book_of renewal.now).catalog.views)) }
    ensures fresh { IfOk result (λ fresh. fresh.items ≡ map (fresh_view renewal.now.table (book_of renewal.now)) (upto (length (book_of renewal.now).catalog.views))) }
    ensures none { OnOk result (first_some (scan_fault renewal.now.table (book_of renewal.now)) (upto (length (book_of renewal.now).catalog.views)) ≡ None) }
    ensures fault { IfErr result (λ e. IsStartFault e (first_some (scan_fault renewal.now.table (book_of renewal.now)) (upto (length (book_of renewal.now).catalog.views)))) }
    ensures looks { steps.new ≤ steps.old + sum_by (looks_again renewal.now.table (book_of renewal.now)) (upto (length (book_of renewal.now).catalog.views)) }
{
    let count = renewal.book.catalog().views.as_slice().len();
    let mut views = Vec::with_capacity(work.alloc, count)?;
    for v in 0..count as u32 {
        let (old, new) = (&olds[v as usize], &apart[v as usize]);
        views.push(one_fresh(work, renewal, v, old, new, steps)?)?;
    }
    Ok(views)
}
