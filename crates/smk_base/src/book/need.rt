ghost use Rattle.std.specs.Prelude.{◌≡◌, ◌<◌, [], ◌∷◌, ◌++◌, IsTrue, All, OnOk, OnErr};
ghost use Rattle.smk_base.specs.Needs.{IsNeed, is_needed};

use crate::book::plan::Dir;
use std::alloc::{AllocError, Global};
use std::marker::Model;

/// A table whose lineage is needed, and in which directions.
#[derive(Clone, Copy)]
pub struct Needed {
    pub table: u32,
    pub dir: Dir,
}

/// The tables whose lineage is needed, ascending by table, each in some direction. Contracts see the list of them.
#[derive(Drop)]
pub struct Need {
    items: Vec<Needed>,
}

impl Model for Need {
    ghost use Rattle.std.specs.Prelude.{List};
    ghost use Rattle.smk_base.specs.{declared.book.need.Needed.Needed, Needs.IsNeed};

    ghost Value = { List Needed };

    ghost view = { λ a. a.items.items };

    ghost invariant = { λ a. IsNeed a.items.items };
}

impl Need {
    /// Nothing is needed. It takes no memory.
    pub fn new(alloc: Global) -> Need
        ensures { result ≡ [] }
    {
        Need {
            items: Vec::new(alloc),
        }
    }

    /// What is needed, table by table.
    pub fn as_slice(&self) -> &[Needed]
        ensures needed { result.now ≡ self.now }
        ensures keeps { IsNeed self.now }
    {
        self.items.as_slice()
    }

    /// Puts one more table last. After an error the need is as before.
    pub fn push(&mut self, needed: Needed) -> Result<(), AllocError>
        requires above { All (λ before. before.table < needed.table) self.old }
        requires directed { IsTrue (is_needed needed) }
        ensures pushed { OnOk result (self.new ≡ self.old ++ needed ∷ []) }
        ensures kept { OnErr result (self.new ≡ self.old) }
    {
        self.items.push(needed)?;
        Ok(())
    }
}
