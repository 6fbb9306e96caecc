ghost use Rattle.std.specs.Prelude.{◌≡◌, ◌<◌, ◌≤◌, ◌+◌, length, IfOk};
ghost use Rattle.smk_model.specs.Kinds.{GroupFits};
ghost use Rattle.smk_push.specs.Cubes.{cube_at, cubes_of};

use crate::group::group_at;
use crate::input::input_of;
use smk_base::{Aggs, Keys, Rel};
use smk_outside::Steps;
use smk_rid::RidMap;
use smk_table::{Chosen, Table};
use std::alloc::{AllocError, Global};
use std::marker::Model;
use std::sync::ledger::Ledger;

/// A grouping of the rows of a table, made for each list of a map. Contracts see the list of the groups.
#[derive(Drop)]
pub struct Cubes {
    groups: Vec<Rel>,
}

impl Model for Cubes {
    ghost use Rattle.std.specs.Prelude.{List};
    ghost use Rattle.smk_base.specs.Rels.{Relation};

    ghost Value = { List Relation };

    ghost view = { λ a. a.groups.items };
}

impl Cubes {
    /// For each list of a map to the rows of this table, the grouping of the rows at its rids, in their order. It is at most one look for each row of the table, even if memory runs out.
    pub fn build<L: Ledger>(
        alloc: Global,
        map: &RidMap,
        table: &Table,
        keys: &Keys,
        aggs: &Aggs,
        steps: &mut Steps<L>,
    ) -> Result<Cubes, AllocError>
        requires fits { GroupFits table.now.kinds keys.now aggs.now }
        requires bound { map.now.bound ≡ length table.now.rows }
        ensures groups { IfOk result (λ cubes. cubes ≡ cubes_of map.now table.now keys.now aggs.now) }
        ensures looks { steps.new ≤ steps.old + length table.now.rows }
    {
        let all = table.choose_all(alloc, steps)?;
        Cubes::of_rows(alloc, map, &all, keys, aggs)
    }

    /// For each list of a map to these rows the grouping of the rows at its rids, in their order. It makes no look.
    pub fn of_rows(
        alloc: Global,
        map: &RidMap,
        all: &Chosen,
        keys: &Keys,
        aggs: &Aggs,
    ) -> Result<Cubes, AllocError>
        requires fits { GroupFits all.now.kinds keys.now aggs.now }
        requires bound { map.now.bound ≡ length all.now.rows }
        ensures { IfOk result (λ cubes. cubes ≡ cubes_of map.now all.now keys.now aggs.now) }
    {
        let _rows = all.len();
        let input = input_of(alloc, keys.as_slice(), aggs.as_slice(), all)?;
        let mut table = vec![in alloc; 0u32; input.classes.firsts().len()]?;
        let mut groups = Vec::with_capacity(alloc, map.len() as usize)?;
        for mark in 0..map.len() {
            let rids = map.at(mark);
            let made = group_at(alloc, &input, rids, table.as_mut_slice())?;
            groups.push(made)?;
        }
        Ok(Cubes { groups })
    }

    /// The groups of a mark. It makes no look.
    pub fn groups(&self, mark: u32) -> &Rel
        requires { mark < length self.now }
        ensures { result.now ≡ cube_at self.now mark }
    {
        &self.groups[mark as usize]
    }
}
