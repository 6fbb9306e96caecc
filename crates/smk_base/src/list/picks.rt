ghost use Rattle.std.specs.Prelude.{◌≡◌, [], ◌∷◌, ◌++◌, OnOk, OnErr};
ghost use Rattle.smk_base.specs.Picks.{ArePicks};

use crate::list::table_rids::Pick;
use std::alloc::{AllocError, Global};
use std::marker::Model;

/// Picked rows, table by table: ascending by table, each table's rids ascending without repeats. Contracts see the list of them.
#[derive(Drop)]
pub struct Picks {
    items: Vec<Pick>,
}

impl Model for Picks {
    ghost use Rattle.std.specs.Prelude.{List};
    ghost use Rattle.smk_base.specs.{declared.list.table_rids.Pick.Pick, Picks.ArePicks};

    ghost Value = { List Pick };

    ghost view = { λ a. a.items.items };

    ghost invariant = { λ a. ArePicks a.items.items };
}

impl Picks {
    /// No picks: every table is whole. It takes no memory.
    pub fn new(alloc: Global) -> Picks
        ensures { result ≡ [] }
    {
        Picks {
            items: Vec::new(alloc),
        }
    }

    /// The picks.
    pub fn as_slice(&self) -> &[Pick]
        ensures picks { result.now ≡ self.now }
        ensures keeps { ArePicks self.now }
    {
        self.items.as_slice()
    }

    /// Puts the rids of one more table last. After an error the list is as before.
    pub fn push(&mut self, pick: Pick) -> Result<(), AllocError>
        requires { ArePicks (self.old ++ pick ∷ []) }
        ensures pushed { OnOk result (self.new ≡ self.old ++ pick ∷ []) }
        ensures kept { OnErr result (self.new ≡ self.old) }
    {
        self.items.push(pick)?;
        Ok(())
    }
}
