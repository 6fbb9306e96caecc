ghost use Rattle.std.specs.Prelude.{◌≡◌, [], ◌∷◌, IfOk, map};
ghost use Rattle.smk_base.specs.Plans.{Projection};
ghost use Rattle.smk_model.specs.{Plain.{item_at, step1}, Kinds.{ItemFits, ItemsFit, kind_of_item, kinds1}};

use smk_base::{Item, Rel};
use std::alloc::{AllocError, Global};

/// The image of each row, in order.
pub fn images(alloc: Global, rel: &Rel, items: &[Item]) -> Result<Rel, AllocError>
    requires { ItemsFit rel.now.kinds items.now }
    ensures kinds { IfOk result (λ made. made.kinds ≡ kinds1 (Projection items.now) rel.now.kinds) }
    ensures rows { IfOk result (λ made. made.rows ≡ step1 (Projection items.now) rel.now.rows) }
{
    let mut made = rel.pick_columns(alloc, &[])?;
    for item in items {
        let column = item_column(alloc, rel, item)?;
        made = made.beside(column)?;
    }
    Ok(made)
}

// One output column of a projection.
fn item_column(alloc: Global, rel: &Rel, item: &Item) -> Result<Rel, AllocError>
    requires { ItemFits rel.now.kinds item.now }
    ensures { IfOk result (λ made. made ≡ record { kinds = kind_of_item rel.now.kinds item.now ∷ []; rows = map (λ row. item_at row item.now ∷ []) rel.now.rows }) }
{
    match item {
        Item::Col(c) => rel.pick_columns(alloc, &[*c]),
        Item::Bin { col, width } => rel.bins(alloc, *col, *width),
    }
}
