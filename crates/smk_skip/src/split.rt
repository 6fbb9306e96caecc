ghost use Rattle.std.specs.Prelude.{◌≡◌, ◌<◌, ◌≤◌, ◌+◌, length, All, IfOk};
ghost use Rattle.smk_base.specs.Places.{IsPlaces};
ghost use Rattle.smk_skip.specs.Splits.{members_with};

use crate::order::places_in;
use crate::runs::joined_runs;
use crate::values::{parted, place_of};
use indexmap::IndexSet;
use smk_base::{Rel, Rids, Seeded, Value};
use smk_outside::Steps;
use smk_rid::RidMap;
use smk_table::Table;
use std::alloc::{AllocError, Global};
use std::marker::Model;
use std::snapshot::Snapshot;
use std::sync::ledger::Ledger;

/// The lists of a map to the rows of a table, split by the values of a column. Contracts see the map, the rows and the column.
///
/// It holds the rids in the order of their values, and the lists as ascending places in that order. So the rids of a list that have a value lie side by side in it.
#[derive(Drop)]
pub struct Split {
    map: Snapshot<RidMap>,
    rel: Snapshot<Rel>,
    col: u32,
    values: IndexSet<Value, Seeded>,
    by_value: RidMap,
    places: RidMap,
}

impl Model for Split {
    ghost use Rattle.smk_skip.specs.{Splits.SplitImage, Parts.IsParted};

    ghost Value = { SplitImage };

    ghost view = { λ a. record { map = a.map.value; rows = a.rel.value.rows; col = a.col } };

    ghost invariant = { λ a. IsParted (record { map = a.map.value; rows = a.rel.value.rows; col = a.col }) a.values.keys a.by_value a.places };
}

impl Split {
    /// The lists of a map to the rows of this table, split by a column. It is at most one look for each row of the table, even if memory runs out.
    pub fn build<L: Ledger>(
        alloc: Global,
        map: &RidMap,
        table: &Table,
        col: u32,
        steps: &mut Steps<L>,
    ) -> Result<Split, AllocError>
        requires column { col < length table.now.kinds }
        requires bound { map.now.bound ≡ length table.now.rows }
        ensures split { IfOk result (λ split. split ≡ record { map = map.now; rows = table.now.rows; col = col }) }
        ensures looks { steps.new ≤ steps.old + length table.now.rows }
    {
        let rel = table.whole(alloc, steps)?;
        Split::of_rows(alloc, map, &rel, col)
    }

    /// The lists of a map to these rows, split by a column. It makes no look.
    pub fn of_rows(alloc: Global, map: &RidMap, rel: &Rel, col: u32) -> Result<Split, AllocError>
        requires column { col < length rel.now.kinds }
        requires bound { map.now.bound ≡ length rel.now.rows }
        ensures { IfOk result (λ split. split ≡ record { map = map.now; rows = rel.now.rows; col = col }) }
    {
        let _rows = rel.len();
        let _pairs = map.pairs();
        let (values, by_value) = parted(alloc, rel, col)?;
        let places = places_in(alloc, map, &by_value)?;
        Ok(Split {
            map: Snapshot::of(map),
            rel: Snapshot::of(rel),
            col,
            values,
            by_value,
            places,
        })
    }

    /// The rids in the lists at these marks whose row has this value in the column, ascending without repeats. It makes no look.
    pub fn rows(&self, alloc: Global, marks: &[u32], v: &Value) -> Result<Rids, AllocError>
        requires { All (λ mark. mark < length self.now.map.lists) marks.now }
        ensures rids { IfOk result (λ rids. rids ≡ members_with self.now marks.now v.now) }
        ensures set { IfOk result (λ rids. IsPlaces self.now.map.bound rids) }
    {
        let _values = self.by_value.len();
        match place_of(&self.values, v) {
            Some(place) => {
                let code = place as u32;
                let start = self.by_value.start(code);
                let rids = self.by_value.at(code);
                joined_runs(
                    alloc,
                    &self.places,
                    marks,
                    start,
                    rids,
                    self.by_value.bound(),
                )
            }
            None => Ok(Rids::new(alloc)),
        }
    }
}
