// What a line names, as the catalog has it.
ghost use Rattle.std.specs.{Prelude.{◌≡◌, ◌<◌, None, length, cond, option_map}, Option.option_copied};
ghost use Rattle.smk_base.specs.CatalogImage.{catalog_image, view_image};
ghost use Rattle.smk_model.specs.{Replies.{grouping_in, grouping_of}, Workload.is_back};
ghost use Rattle.smk_model.specs.ReplyTexts as texts;
ghost use Rattle.smk_model.specs.Session as session;

use smk_base::{Back, BackExtra, Catalog, ColNames, TableInfo, Text, ViewInfo};

/// The view with this name.
pub fn view_named<'c>(catalog: &'c Catalog, name: &Text) -> Option<&'c ViewInfo>
    ensures { option_map view_image (option_copied result) ≡ texts.view_named (catalog_image catalog.now) name.now }
{
    for view in catalog.views.as_slice() {
        if view.name == *name {
            return Some(view);
        }
    }
    None
}

/// The table with this name.
pub fn table_named<'c>(catalog: &'c Catalog, name: &Text) -> Option<&'c TableInfo>
    ensures { option_copied result ≡ texts.table_named (catalog_image catalog.now) name.now }
{
    for table in catalog.tables.as_slice() {
        if table.name == *name {
            return Some(table);
        }
    }
    None
}

/// The view with this number.
pub fn view_at(catalog: &Catalog, view: u32) -> &ViewInfo
    requires { view < length catalog.now.views }
    ensures { view_image result.now ≡ session.view_at (catalog_image catalog.now) view }
{
    &catalog.views.as_slice()[view as usize]
}

// The names of the grouping that a declaration has for a view's backward query to a table.
fn grouping_names(declared: &Back, view: usize, table: usize) -> Option<&ColNames>
    ensures { option_copied result ≡ cond (is_back view table declared.now) (option_map (λ grouped. grouped.names) (grouping_in declared.now.extra)) None }
{
    if declared.view as usize != view || declared.table as usize != table {
        return None;
    }
    match &declared.extra {
        BackExtra::Grouped { names, .. } => Some(names),
        BackExtra::Plain | BackExtra::By(_) => None,
    }
}

// The names of the first grouping that is declared for a view's backward query to a table.
fn first_grouping(catalog: &Catalog, view: usize, table: usize) -> Option<&ColNames>
    ensures { option_copied result ≡ option_map (λ grouped. grouped.names) (grouping_of (catalog_image catalog.now) view table) }
{
    for declared in catalog.backs.as_slice() {
        if let Some(names) = grouping_names(declared, view, table) {
            return Some(names);
        }
    }
    None
}

/// The names of the grouping that is declared for the backward query of a view to a table.
pub fn grouping_named<'c>(catalog: &'c Catalog, view: &Text, table: &Text) -> Option<&'c ColNames>
    ensures { option_copied result ≡ option_map (λ grouped. grouped.names) (texts.grouping_named (catalog_image catalog.now) view.now table.now) }
{
    let view = catalog.view_place(view)?;
    let table = catalog.table_place(table)?;
    first_grouping(catalog, view, table)
}
