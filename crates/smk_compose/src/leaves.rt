ghost use Rattle.std.specs.Prelude.{◌≡◌, ◌<◌, ◌≤◌, ◌+◌, ◌^◌, ℕ, [], ◌∷◌, ◌++◌, length, drop, IfOk, OnOk, OnErr};
ghost use Rattle.smk_base.specs.Plans.{Leaf};
ghost use Rattle.smk_model.specs.Selection.{each_rows, each_kinds};
ghost use Rattle.smk_compose.specs.Walk.{IsWidth};

use smk_base::Rel;
use smk_table::Chosen;
use std::alloc::{AllocError, Global};
use std::collections::VecDeque;
use std::marker::Model;

/// One Rel for each leaf of a plan, left to right, gathered or chosen. Contracts see the list of them.
#[derive(Drop)]
pub struct Leaves {
    leaves: VecDeque<Chosen>,
}

impl Model for Leaves {
    ghost use Rattle.std.specs.Prelude.{List};
    ghost use Rattle.smk_base.specs.Rels.{Relation};

    ghost Value = { List Relation };

    ghost view = { λ a. a.leaves.items };
}

impl Leaves {
    /// No leaf. It takes no memory.
    pub fn new(alloc: Global) -> Leaves
        ensures { result ≡ [] }
    {
        Leaves {
            leaves: VecDeque::new(alloc),
        }
    }

    /// The Rel of one leaf. On an error it is dropped.
    pub fn one(alloc: Global, rel: Rel) -> Result<Leaves, AllocError>
        ensures { IfOk result (λ leaves. leaves ≡ rel ∷ []) }
    {
        let mut leaves = Leaves::new(alloc);
        leaves.push(rel)?;
        Ok(leaves)
    }

    /// Appends the Rel of one more leaf. On an error the Rel is dropped.
    pub fn push(&mut self, rel: Rel) -> Result<(), AllocError>
        ensures pushed { OnOk result (self.new ≡ self.old ++ rel ∷ []) }
        ensures kept { OnErr result (self.new ≡ self.old) }
    {
        self.push_chosen(Chosen::of_rel(rel))
    }

    /// Appends the chosen rows of one more leaf. On an error they are dropped.
    pub(crate) fn push_chosen(&mut self, leaf: Chosen) -> Result<(), AllocError>
        ensures pushed { OnOk result (self.new ≡ self.old ++ leaf ∷ []) }
        ensures kept { OnErr result (self.new ≡ self.old) }
    {
        self.leaves.push_back(leaf)?;
        Ok(())
    }

    /// Takes the first one out.
    pub(crate) fn take_first(&mut self) -> Chosen
        requires { 0 < length self.old }
        ensures { self.old ≡ result ∷ self.new }
    {
        match self.leaves.pop_front() {
            Some(leaf) => leaf,
            None => unreachable!(),
        }
    }

    /// The number of columns of the k-th one.
    pub(crate) fn width_at(&self, k: usize) -> u32
        requires { k < length self.now }
        ensures is { (table : ℕ) → IsWidth (Leaf table) (drop k (each_kinds self.now)) (drop k (each_rows self.now)) result }
        ensures behind { k + 1 < 2 ^ 64 }
    {
        match self.leaves.get(k) {
            Some(leaf) => leaf.width(),
            None => unreachable!(),
        }
    }
}
