// The views and tables that a line names.
ghost use Rattle.std.specs.Prelude.{◌≡◌, ◌<◌, length, IfOk};
ghost use Rattle.smk_base.specs.CatalogImage.{catalog_image};
ghost use Rattle.smk_model.specs.Replies as replies;
ghost use Rattle.smk_session.specs.Answers.{Gives};

use crate::answer::no_answer::Turned;
use smk_base::{Catalog, Refusal, Text};

// The view of this name.
pub(crate) fn known_view(catalog: &Catalog, view: &Text) -> Result<usize, Turned>
    ensures gives { Gives result (replies.known_view (catalog_image catalog.now) view.now) }
    ensures within { IfOk result (λ v. v < length catalog.now.views) }
{
    match catalog.view_place(view) {
        Some(v) => Ok(v),
        None => Err(Turned::Refused(Refusal::UnknownView)),
    }
}

// The view and the table of these names. The view is looked up first.
pub(crate) fn known_pair(
    catalog: &Catalog,
    view: &Text,
    table: &Text,
) -> Result<(usize, usize), Turned>
    ensures gives { Gives result (replies.known_pair (catalog_image catalog.now) view.now table.now) }
    ensures view { IfOk result (λ p. p.0 < length catalog.now.views) }
    ensures table { IfOk result (λ p. p.1 < length catalog.now.tables) }
{
    let v = known_view(catalog, view)?;
    match catalog.table_place(table) {
        Some(t) => Ok((v, t)),
        None => Err(Turned::Refused(Refusal::UnknownTable)),
    }
}
