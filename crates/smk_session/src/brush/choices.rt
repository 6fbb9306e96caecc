// The rows that brushes select for a view.
ghost use Rattle.std.specs.{Prelude.{◌≡◌, ◌<◌, ℕ, length, slice_index_or, All, IfOk, IfNone, IfSome, OnOk}, Bool.{OnTrue, OnFalse}};
ghost use Rattle.smk_base.specs.{CatalogImage.catalog_image, Picks.IsAscending};
ghost use Rattle.smk_session.specs.{Answers.{AreAlike, AreOn, IsChoice, IsLent, book_of, state_at, brushed_of, chosen_by, narrowed_by, picks_brushed, rids_or_all, selected_by, state_lent}, Behind.RidsFit, Sessions.BrushFits};
ghost use Rattle.smk_model.specs.Session.{rows_of_table};
ghost use Rattle.smk_session.specs.Answers as answers;

use crate::brush::links::concerns;
use crate::lent::Lent;
use smk_base::{BrushOn, Catalog, Pick, Picks, Rids};
use smk_rid::intersection;
use std::alloc::{AllocError, Global};

// The rids that are left of those chosen so far, with one more brush.
fn narrowed(alloc: Global, chosen: Option<Rids>, rids: &Rids) -> Result<Rids, AllocError>
    requires chosen { IfSome chosen IsAscending }
    requires rids { IsAscending rids.now }
    ensures { IfOk result (λ made. made ≡ narrowed_by chosen rids.now) }
{
    match chosen {
        Some(chosen) => intersection(alloc, chosen.as_slice(), rids.as_slice()),
        None => rids.copy(alloc),
    }
}

// Whether a brush counts on a table: for a view it must concern the view; without a view any brush on the table does.
fn counts(catalog: &Catalog, view: Option<u32>, t: u32, brush: &BrushOn) -> bool
    ensures { result ≡ answers.counts (catalog_image catalog.now) view t brush.now }
{
    match view {
        Some(w) => concerns(catalog, w, t, brush),
        None => brush.table == t,
    }
}

// The rids of a table that all the brushes that count have; None if no brush counts.
pub(crate) fn brushed(
    alloc: Global,
    catalog: &Catalog,
    brushes: &[BrushOn],
    view: Option<u32>,
    t: u32,
) -> Result<Option<Rids>, AllocError>
    requires { All (λ brush. IsAscending brush.rids) brushes.now }
    ensures { IfOk result (λ rids. (n : ℕ) → AreOn t n brushes.now → rids ≡ chosen_by (answers.counts (catalog_image catalog.now) view t) brushes.now n) }
{
    let mut chosen = None;
    for brush in brushes {
        if counts(catalog, view, t, brush) {
            chosen = Some(narrowed(alloc, chosen, &brush.rids)?);
        }
    }
    Ok(chosen)
}

// These rids, for the brushes in force.
pub(crate) fn selected(
    alloc: Global,
    held: &Lent<'_>,
    view: Option<u32>,
    t: u32,
) -> Result<Option<Rids>, AllocError>
    requires { IsLent held.now }
    ensures selected { IfOk result (λ rids. rids_or_all rids (length (rows_of_table (state_lent held.now) t)) ≡ selected_by (book_of held.now) (state_lent held.now) view t) }
    ensures fit { IfOk result (λ rids. IfSome rids (RidsFit (length (rows_of_table (state_lent held.now) t)))) }
{
    brushed(alloc, held.catalog, held.brushes, view, t)
}

// The rids of a table that brushes select for a view: none where no brush concerns it.
#[derive(Drop)]
pub(crate) struct Choice {
    pub(crate) view: u32,
    pub(crate) rids: Option<Rids>,
}

// Whether the same brushes concern two views on a table.
fn are_alike(catalog: &Catalog, brushes: &[BrushOn], t: u32, w: u32, other: u32) -> bool
    ensures alike { OnTrue result (AreAlike (catalog_image catalog.now) brushes.now t w other) }
    ensures other { OnFalse result (¬ AreAlike (catalog_image catalog.now) brushes.now t w other) }
{
    brushes.iter().all(|brush| concerns(catalog, w, t, brush) == concerns(catalog, other, t, brush))
}

// Where the rids are that brushes select for a view: with those of a view that the same brushes concern.
fn place_of(
    catalog: &Catalog,
    brushes: &[BrushOn],
    t: u32,
    w: u32,
    choices: &[Choice],
) -> Option<usize>
    requires choices { All (IsChoice (catalog_image catalog.now) brushes.now t) choices.now }
    ensures place { IfSome result (λ p. p < length choices.now) }
    ensures own { IfSome result (λ p. (d : _) (n : ℕ) → AreOn t n brushes.now → (slice_index_or choices.now p d).rids ≡ brushed_of (catalog_image catalog.now) brushes.now w t n) }
    ensures none { IfNone result (All (λ choice. ¬ AreAlike (catalog_image catalog.now) brushes.now t w choice.view) choices.now) }
{
    for i in 0..choices.len() {
        if are_alike(catalog, brushes, t, w, choices[i].view) {
            return Some(i);
        }
    }
    None
}

// Appends the rids that brushes select of a table for a view, unless they are there for a view that the same brushes concern. It tells where they are.
pub(crate) fn choose(
    alloc: Global,
    catalog: &Catalog,
    brushes: &[BrushOn],
    w: u32,
    t: u32,
    choices: &mut Vec<Choice>,
) -> Result<usize, AllocError>
    requires rising { All (λ brush. IsAscending brush.rids) brushes.now }
    requires choices { All (IsChoice (catalog_image catalog.now) brushes.now t) choices.old.items }
    ensures choices { OnOk result (All (IsChoice (catalog_image catalog.now) brushes.now t) choices.new.items) }
    ensures place { IfOk result (λ p. p < length choices.new.items) }
    ensures own { IfOk result (λ p. (d : _) (n : ℕ) → AreOn t n brushes.now → (slice_index_or choices.new.items p d).rids ≡ brushed_of (catalog_image catalog.now) brushes.now w t n) }
{
    if let Some(place) = place_of(catalog, brushes, t, w, choices.as_slice()) {
        return Ok(place);
    }
    let rids = brushed(alloc, catalog, brushes, Some(w), t)?;
    choices.push(Choice { view: w, rids })?;
    Ok(choices.len() - 1)
}

// What is picked of the tables for a view. A table that no brush concerns is whole, and isn't among the picks.
pub(crate) fn picks(
    alloc: Global,
    held: &Lent<'_>,
    brushes: &[BrushOn],
    w: u32,
) -> Result<Picks, AllocError>
    requires held { IsLent held.now }
    requires fit { All (BrushFits held.now.catalog.now held.now.tables.now) brushes.now }
    ensures { IfOk result (λ picks. picks ≡ picks_brushed (book_of held.now) (state_at held.now brushes.now) w (length held.now.tables.now)) }
{
    let mut picks = Picks::new(alloc);
    for t in 0..held.tables.len() as u32 {
        if let Some(rids) = brushed(alloc, held.catalog, brushes, Some(w), t)? {
            picks.push(Pick { table: t, rids })?;
        }
    }
    Ok(picks)
}
