// All that takes the place of what a session keeps when a table has grown.
ghost use Rattle.std.specs.{Prelude.{◌≡◌, ◌≤◌, ◌+◌, length, map, None, option_map, IfOk, IfErr, OnOk}, List.sum_by};
ghost use Rattle.smk_base.specs.Places.{upto};
ghost use Rattle.smk_model.specs.{Appends.scanning, Opening.{first_some, view_fault}};
ghost use Rattle.smk_session.specs.Opened.{IsStartFault};
ghost use Rattle.smk_grow.specs.{Renewals.{IsRenewal, IsFresh, book_of, first_book, last_book}, Renewed.{apart_view, fresh_view, kept_views, looks_again, looks_of_declared}, Told.added_told};

use crate::extras::{FreshExtras, fresh_extras};
use crate::renewal::{Append, Renewal};
use crate::scans::scanning_views;
use crate::telling::added_now;
use crate::views::each_fresh;
use smk_base::Rids;
use smk_jobs::Work;
use smk_outside::{Gate, Steps};
use smk_session::{Opened, Opening, StartFault, Workers};
use std::alloc::AllocError;
use std::sync::ledger::Ledger;
use std::thread::Threads;

// What takes the places of views, splits and groupings, and the views that scan the table.
#[derive(Drop)]
pub(crate) struct Fresh {
    pub(crate) views: Vec<Option<Opened>>,
    pub(crate) extras: FreshExtras,
    pub(crate) scanning: Rids,
}

// What replaces splits and groupings, once the views are made, with these.
fn with_extras<R: Threads + Sync, G: Gate + Sync, L: Ledger>(
    work: &Work<'_, R, Workers<'_, G>>,
    renewal: &Renewal<'_>,
    olds: &[Opened],
    views: Vec<Option<Opened>>,
    steps: &mut Steps<L>,
) -> Result<Fresh, AllocError>
    requires renewal { IsRenewal renewal.now }
    requires olds { olds.now ≡ kept_views renewal.now.table (first_book renewal.now) (book_of renewal.now) }
    requires views { views.items ≡ map (fresh_view renewal.now.table (book_of renewal.now)) (upto (length (book_of renewal.now).catalog.views)) }
    ensures fresh { IfOk result (IsFresh renewal.now.table (book_of renewal.now)) }
    ensures looks { steps.new ≤ steps.old + sum_by (looks_of_declared renewal.now.table (book_of renewal.now)) (book_of renewal.now).catalog.backs }
{
    let opening = Opening {
        book: renewal.book,
        tables: renewal.tables,
        views: olds,
        fresh: views.as_slice(),
        grown: Some(renewal.table),
    };
    let extras = fresh_extras(work, &opening, steps)?;
    let scanning = scanning_views(work.alloc, renewal.book, renewal.table)?;
    Ok(Fresh {
        views,
        extras,
        scanning,
    })
}

// All that replaces what was made over the tables without the new rows, or the first view that scans the table and is too big.
fn renew<R: Threads + Sync, G: Gate + Sync, L: Ledger>(
    work: &Work<'_, R, Workers<'_, G>>,
    renewal: &Renewal<'_>,
    olds: &[Opened],
    apart: &[Option<Opened>],
    steps: &mut Steps<L>,
) -> Result<Fresh, StartFault>
    requires renewal { IsRenewal renewal.now }
    requires olds { olds.now ≡ kept_views renewal.now.table (first_book renewal.now) (book_of renewal.now) }
    requires apart { apart.now ≡ map (apart_view renewal.now.table (last_book renewal.now)) (upto (length (book_of renewal.now).catalog.views)) }
    ensures fresh { IfOk result (IsFresh renewal.now.table (book_of renewal.now)) }
    ensures none { OnOk result (first_some (view_fault (book_of renewal.now)) (scanning (book_of renewal.now).catalog renewal.now.table) ≡ None) }
    ensures fault { IfErr result (λ e. IsStartFault e (first_some (view_fault (book_of renewal.now)) (scanning (book_of renewal.now).catalog renewal.now.table))) }
    ensures looks { steps.new ≤ steps.old + sum_by (looks_again renewal.now.table (book_of renewal.now)) (upto (length (book_of renewal.now).catalog.views)) + sum_by (looks_of_declared renewal.now.table (book_of renewal.now)) (book_of renewal.now).catalog.backs }
{
    match each_fresh(work, renewal, olds, apart, steps) {
        Ok(views) => match with_extras(work, renewal, olds, views, steps) {
            Ok(fresh) => Ok(fresh),
            Err(_) => Err(StartFault::NoMemory),
        },
        Err(fault) => Err(fault),
    }
}

// The text of what is added if the table's name is given, by what replaces the views.
fn fresh_text<R: Threads + Sync, G: Gate + Sync>(
    work: &Work<'_, R, Workers<'_, G>>,
    renewal: &Renewal<'_>,
    append: &Append<'_>,
    olds: &[Opened],
    fresh: &Fresh,
) -> Result<Vec<u8>, AllocError>
    requires renewal { IsRenewal renewal.now }
    requires olds { olds.now ≡ kept_views renewal.now.table (first_book renewal.now) (book_of renewal.now) }
    requires fresh { IsFresh renewal.now.table (book_of renewal.now) fresh.now }
    ensures { IfOk result (λ text. text.items ≡ added_told (option_map (λ name. name.now) append.now.said) (book_of renewal.now) append.now.rows fresh.now.scanning) }
{
    match append.said {
        Some(name) => {
            let views = Opening {
                book: renewal.book,
                tables: renewal.tables,
                views: olds,
                fresh: fresh.views.as_slice(),
                grown: Some(renewal.table),
            };
            let scanning = fresh.scanning.as_slice();
            added_now(work, &views, name, append.rows, scanning)
        }
        None => Ok(Vec::new(work.alloc)),
    }
}

// What `renew` gives, and the text of what is added if the table's name is given.
pub(crate) fn renew_told<R: Threads + Sync, G: Gate + Sync, L: Ledger>(
    work: &Work<'_, R, Workers<'_, G>>,
    renewal: &Renewal<'_>,
    append: &Append<'_>,
    olds: &[Opened],
    apart: &[Option<Opened>],
    steps: &mut Steps<L>,
) -> Result<(Fresh, Vec<u8>), StartFault>
    requires renewal { IsRenewal renewal.now }
    requires olds { olds.now ≡ kept_views renewal.now.table (first_book renewal.now) (book_of renewal.now) }
    requires apart { apart.now ≡ map (apart_view renewal.now.table (last_book renewal.now)) (upto (length (book_of renewal.now).catalog.views)) }
    ensures fresh { IfOk result (λ made. IsFresh renewal.now.table (book_of renewal.now) made.0) }
    ensures text { IfOk result (λ made. made.1.items ≡ added_told (option_map (λ name. name.now) append.now.said) (book_of renewal.now) append.now.rows made.0.scanning) }
    ensures none { OnOk result (first_some (view_fault (book_of renewal.now)) (scanning (book_of renewal.now).catalog renewal.now.table) ≡ None) }
    ensures fault { IfErr result (λ e. IsStartFault e (first_some (view_fault (book_of renewal.now)) (scanning (book_of renewal.now).catalog renewal.now.table))) }
    ensures looks { steps.new ≤ steps.old + sum_by (looks_again renewal.now.table (book_of renewal.now)) (upto (length (book_of renewal.now).catalog.views)) + sum_by (looks_of_declared renewal.now.table (book_of renewal.now)) (book_of renewal.now).catalog.backs }
{
    match renew(work, renewal, olds, apart, steps) {
        Ok(fresh) => match fresh_text(work, renewal, append, olds, &fresh) {
            Ok(text) => Ok((fresh, text)),
            Err(_) => Err(StartFault::NoMemory),
        },
        Err(fault) => Err(fault),
    }
}
