ghost use Rattle.std.specs.Prelude.{◌≡◌, ◌<◌, ◌≤◌, length, map, IfOk};
ghost use Rattle.smk_base.specs.{CatalogImage.{catalog_image, view_image}, declared.book.limits.TheConstants.VIEW_LIMIT, declared.rel.TheConstants.COLUMN_LIMIT};
ghost use Rattle.smk_model.specs.Catalogs.{IsWithinLimits};
ghost use Rattle.smk_model.specs.Typing as typing;
ghost use Rattle.smk_typing.specs.{Answers.Finds, Drafts.draft_image, Keys.{AreTables, back_key, fwd_key}};

pub(crate) mod form;
pub(crate) mod indexed;

use crate::book::links::Links;
use crate::draft::form::Form;
use crate::draft::indexed::{Indexed, Keyed};
use smk_base::{
    Back, Catalog, ColDecls, Column, Columns, Fwd, TableInfo, Text, TypeFault, ViewInfo, Word,
};
use std::alloc::Global;

impl Keyed for TableInfo {
    type Key = Text;

    ghost key_of = { λ table. table.name };

    ghost kept = { AreTables };
}

impl Keyed for ViewInfo {
    type Key = Text;

    ghost key_of = { λ view. view.name };

    ghost kept = { λ views. length views ≤ VIEW_LIMIT };
}

impl Keyed for Back {
    type Key = (u32, u32, Form);

    ghost key_of = { back_key };
}

impl Keyed for Fwd {
    type Key = (u32, u32);

    ghost key_of = { fwd_key };
}

/// The catalog of the statements so far, indexed.
#[derive(Drop)]
pub struct Draft {
    pub tables: Indexed<TableInfo>,
    pub views: Indexed<ViewInfo>,
    pub backs: Indexed<Back>,
    pub fwds: Indexed<Fwd>,
    pub links: Links,
}

impl Draft {
    /// The catalog of no statement.
    pub fn new(alloc: Global) -> Draft
        ensures { draft_image result ≡ typing.nothing_declared }
    {
        Draft {
            tables: Indexed::new(alloc),
            views: Indexed::new(alloc),
            backs: Indexed::new(alloc),
            fwds: Indexed::new(alloc),
            links: Links::new(alloc),
        }
    }

    /// The catalog alone.
    pub fn into_catalog(self) -> Catalog
        ensures catalog { catalog_image result ≡ draft_image self }
        ensures limits { IsWithinLimits (draft_image self) }
    {
        Catalog {
            tables: self.tables.into_list(),
            views: self.views.into_list(),
            backs: self.backs.into_list(),
            fwds: self.fwds.into_list(),
            links: self.links.into_list(),
        }
    }
}

/// The number of the table that a word names.
pub fn table_by_word(tables: &Indexed<TableInfo>, word: &Word) -> Result<u32, TypeFault>
    ensures table { Finds result (typing.table_by_word tables.now word.now) (λ t. t) }
    ensures within { IfOk result (λ t. t < length tables.now) }
{
    match tables.place_of(&word.name) {
        Some(place) => Ok(place as u32),
        None => Err(TypeFault::UnknownTable { at: word.at }),
    }
}

/// The number of the view that a word names.
#[tactic(auto, using(crate::proofs::Keys::view_names))]
pub fn view_by_word(views: &Indexed<ViewInfo>, word: &Word) -> Result<u32, TypeFault>
    ensures { Finds result (typing.view_by_word (map view_image views.now) word.now) (λ v. v) }
{
    match views.place_of(&word.name) {
        Some(place) => Ok(place as u32),
        None => Err(TypeFault::UnknownView { at: word.at }),
    }
}

/// The columns of the table with this number.
pub fn columns_at(
    alloc: Global,
    tables: &Indexed<TableInfo>,
    table: u32,
) -> Result<Columns, TypeFault>
    requires { table < length tables.now }
    ensures columns { Finds result (Ok (typing.columns_of (typing.info_at tables.now table))) (λ columns. columns) }
    ensures width { IfOk result (λ columns. length columns ≤ COLUMN_LIMIT) }
{
    columns_of(alloc, &tables.as_slice()[table as usize].cols)
}

/// The columns that are declared so.
pub fn columns_of(alloc: Global, cols: &ColDecls) -> Result<Columns, TypeFault>
    ensures columns { Finds result (Ok (map typing.column_of cols.now)) (λ columns. columns) }
    ensures width { IfOk result (λ columns. length columns ≡ length cols.now) }
{
    let mut columns = Columns::new(alloc);
    for col in cols.as_slice() {
        let name = col.name.copy(alloc)?;
        columns.push(Column {
            name,
            kind: col.kind,
        })?;
    }
    Ok(columns)
}
