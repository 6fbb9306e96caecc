//! The lineage that is kept of a view.

ghost use Rattle.std.specs.{Prelude.{◌≡◌, option_map}, List.find, Option.option_and_then};
ghost use Rattle.smk_session.specs.Kept.{is_of_table};

use smk_compose::{KeptMap, Run};
use smk_rid::RidMap;

// What is kept of a table, of at most 16.
fn kept_of(run: &Run, table: usize) -> Option<&KeptMap>
    ensures { option_map (λ kept. kept.now) result ≡ find (is_of_table table) run.now.kept }
{
    run.kept
        .as_slice()
        .iter()
        .find(|kept| kept.table as usize == table)
}

/// The backward lineage to a table, if it is kept.
pub fn back_kept(run: &Run, table: usize) -> Option<&RidMap>
    ensures { option_map (λ map. map.now) result ≡ option_and_then (λ kept. kept.back) (find (is_of_table table) run.now.kept) }
{
    match kept_of(run, table) {
        Some(kept) => match &kept.back {
            Some(map) => Some(map),
            None => None,
        },
        None => None,
    }
}

/// The forward lineage from a table, if it is kept.
pub fn fwd_kept(run: &Run, table: usize) -> Option<&RidMap>
    ensures { option_map (λ map. map.now) result ≡ option_and_then (λ kept. kept.fwd) (find (is_of_table table) run.now.kept) }
{
    match kept_of(run, table) {
        Some(kept) => match &kept.fwd {
            Some(map) => Some(map),
            None => None,
        },
        None => None,
    }
}
