ghost use Rattle.std.specs.Prelude.{◌≡◌, ◌<◌, ◌≤◌, length, map, All, IfOk};
ghost use Rattle.smk_base.specs.{Rels.{IsRelation, kind_in, picked, rows_at}, declared.rel.TheConstants.{COLUMN_LIMIT, ROW_LIMIT}};

use smk_base::{Rel, Rids};
use std::alloc::{AllocError, Global};
use std::marker::Model;

/// Rows of a table that are chosen and not gathered yet: the table's columns, which it shares, and the rids of some rows, or None if it has all of them. Each row was counted as a look when it was chosen. Contracts see the kinds and the list of the chosen rows.
#[derive(Drop)]
pub struct Chosen {
    rel: Rel,
    rids: Option<Rids>,
}

impl Model for Chosen {
    ghost use Rattle.smk_base.specs.Rels.{Relation};
    ghost use Rattle.smk_table.specs.Choosing.{chosen_of, AreInside};

    ghost Value = { Relation };

    ghost view = { λ a. chosen_of a.rel a.rids };

    ghost invariant = { λ a. AreInside a.rel a.rids };
}

impl Chosen {
    /// All rows of a Rel.
    pub fn of_rel(rel: Rel) -> Chosen
        ensures { result ≡ rel }
    {
        Chosen { rel, rids: None }
    }

    // The rows at these rids.
    pub(crate) fn at_rids(alloc: Global, rel: &Rel, rids: &[u32]) -> Result<Chosen, AllocError>
        requires inside { All (λ rid. rid < length rel.now.rows) rids.now }
        requires few { length rids.now ≤ ROW_LIMIT }
        ensures { IfOk result (λ chosen. chosen ≡ record { kinds = rel.now.kinds; rows = rows_at rel.now.rows rids.now }) }
    {
        let rids = Rids::from_vec(Vec::from_slice(alloc, rids)?);
        match rel.copy(alloc) {
            Ok(rel) => Ok(Chosen {
                rel,
                rids: Some(rids),
            }),
            Err(error) => {
                drop(rids);
                Err(error)
            }
        }
    }

    #[tactic(auto, using(crate::proofs::Choices::rows_at_long))]
    /// The number of rows.
    pub fn len(&self) -> u32
        ensures count { result ≡ length self.now.rows }
        ensures few { result ≤ ROW_LIMIT }
    {
        match &self.rids {
            Some(rids) => rids.as_slice().len() as u32,
            None => self.rel.len(),
        }
    }

    /// The number of columns.
    pub fn width(&self) -> u32
        ensures count { result ≡ length self.now.kinds }
        ensures few { result ≤ COLUMN_LIMIT }
        ensures keeps { IsRelation self.now }
    {
        self.rel.width()
    }

    /// These rows, with the table's values shared by copies: a column that is picked is then counted, and no value of it is copied.
    pub fn shared(self, alloc: Global) -> Result<Chosen, AllocError>
        ensures { IfOk result (λ chosen. chosen ≡ self) }
    {
        let Chosen { rel, rids } = self;
        match rel.shared(alloc) {
            Ok(rel) => Ok(Chosen { rel, rids }),
            Err(error) => {
                drop(rids);
                Err(error)
            }
        }
    }

    /// The rows with all their columns.
    pub fn rel(self, alloc: Global) -> Result<Rel, AllocError>
        ensures { IfOk result (λ rel. rel ≡ self) }
    {
        let Chosen { rel, rids } = self;
        match rids {
            Some(rids) => rel.gather(alloc, rids.as_slice()),
            None => Ok(rel),
        }
    }

    /// The rows with these columns alone, in this order.
    pub fn columns(&self, alloc: Global, cols: &[u32]) -> Result<Rel, AllocError>
        requires within { All (λ c. c < length self.now.kinds) cols.now }
        requires few { length cols.now ≤ COLUMN_LIMIT }
        ensures { IfOk result (λ made. made ≡ record { kinds = map (kind_in self.now.kinds) cols.now; rows = map (picked cols.now) self.now.rows }) }
    {
        let whole = self.rel.pick_columns(alloc, cols)?;
        match &self.rids {
            Some(rids) => whole.gather(alloc, rids.as_slice()),
            None => Ok(whole),
        }
    }
}
