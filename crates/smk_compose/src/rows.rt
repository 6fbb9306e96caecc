ghost use Rattle.std.specs.Prelude.{◌≡◌, ◌+◌, ◌<◌, length, All, IfOk};
ghost use Rattle.smk_base.specs.Picks.{IsAscending};
ghost use Rattle.smk_model.specs.Lineage.{sub};

use smk_base::Rel;
use smk_outside::Steps;
use smk_table::{Chosen, Table};
use std::alloc::{AllocError, Global};
use std::sync::ledger::Ledger;

/// The rows of a table at these rids, one look each, even if memory runs out.
pub fn fetch_rids<L: Ledger>(
    alloc: Global,
    table: &Table,
    rids: &[u32],
    steps: &mut Steps<L>,
) -> Result<Rel, AllocError>
    requires ascending { IsAscending rids.now }
    requires inside { All (λ rid. rid < length table.now.rows) rids.now }
    ensures rows { IfOk result (λ rel. rel ≡ record { kinds = table.now.kinds; rows = sub table.now.rows rids.now }) }
    ensures looks { steps.new ≡ steps.old + length rids.now }
{
    let _rows = table.len();
    table.gather(alloc, rids, steps)
}

/// These rows, to be gathered later; each is one look at once, even if memory runs out.
pub(crate) fn choose_rids<L: Ledger>(
    alloc: Global,
    table: &Table,
    rids: &[u32],
    steps: &mut Steps<L>,
) -> Result<Chosen, AllocError>
    requires ascending { IsAscending rids.now }
    requires inside { All (λ rid. rid < length table.now.rows) rids.now }
    ensures rows { IfOk result (λ chosen. chosen ≡ record { kinds = table.now.kinds; rows = sub table.now.rows rids.now }) }
    ensures looks { steps.new ≡ steps.old + length rids.now }
{
    let _rows = table.len();
    table.choose(alloc, rids, steps)
}
