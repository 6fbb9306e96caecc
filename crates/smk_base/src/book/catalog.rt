ghost use Rattle.std.specs.Prelude.{◌≡◌, ◌<◌, length, IfSome};
ghost use Rattle.smk_base.specs.CatalogImage as images;

use crate::book::col_decl::ColDecls;
use crate::book::plan::{Aggs, Keys, Plan};
use crate::list::{ListOf, Rids, Text};
use crate::value::Kind;

/// A checked book. Tables and views are named by their places in it, and columns by their places among their table's or view's columns.
#[derive(Drop)]
pub struct Catalog {
    pub tables: TableInfos,
    pub views: ViewInfos,
    pub backs: Backs,
    pub fwds: Fwds,
    pub links: LinkInfos,
}

impl Catalog {
    /// The number of the view of this name, of the first one if there were several.
    pub fn view_place(&self, name: &Text) -> Option<usize>
        ensures place { result ≡ images.view_place (images.catalog_image self.now) name.now }
        ensures within { IfSome result (λ v. v < length self.now.views) }
    {
        let views = self.views.as_slice();
        for v in 0..views.len() {
            if views[v].name == *name {
                return Some(v);
            }
        }
        None
    }

    /// The number of the table of this name, of the first one if there were several.
    pub fn table_place(&self, name: &Text) -> Option<usize>
        ensures place { result ≡ images.table_place (images.catalog_image self.now) name.now }
        ensures within { IfSome result (λ t. t < length self.now.tables) }
    {
        let tables = self.tables.as_slice();
        for t in 0..tables.len() {
            if tables[t].name == *name {
                return Some(t);
            }
        }
        None
    }
}

/// A table: its name, the file that holds it, and its columns.
#[derive(Drop)]
pub struct TableInfo {
    pub name: Text,
    pub file: Text,
    pub cols: ColDecls,
}

/// A view: its name, its plan, and the names and kinds of its columns.
#[derive(Drop)]
pub struct ViewInfo {
    pub name: Text,
    pub plan: Plan,
    pub names: ColNames,
    pub kinds: Kinds,
}

/// A declared backward query of a view to a table.
#[derive(Drop)]
pub struct Back {
    pub view: u32,
    pub table: u32,
    pub extra: BackExtra,
}

/// What a declared backward query answers besides the rows: those with a value in one column of the table, or a grouping over the table with the names and kinds of its columns.
#[derive(Drop)]
pub enum BackExtra {
    Plain,
    By(u32),
    Grouped {
        keys: Keys,
        aggs: Aggs,
        names: ColNames,
        kinds: Kinds,
    },
}

/// A declared forward query of a table to a view.
#[derive(Drop)]
pub struct Fwd {
    pub table: u32,
    pub view: u32,
}

/// The views that follow a brush of a view on a table, by their numbers.
#[derive(Drop)]
pub struct LinkInfo {
    pub view: u32,
    pub table: u32,
    pub to: Rids,
}

/// A column as the steps of a plan know it.
#[derive(Drop)]
pub struct Column {
    pub name: Text,
    pub kind: Kind,
}

/// The columns that a step of a plan hands on, in order.
pub type Columns = ListOf<Column>;

/// The tables of a book, in order.
pub type TableInfos = ListOf<TableInfo>;

/// The views of a book, in order.
pub type ViewInfos = ListOf<ViewInfo>;

/// Names of columns, in order.
pub type ColNames = ListOf<Text>;

/// Kinds of columns, in order.
pub type Kinds = ListOf<Kind>;

/// The declared backward queries of a book, in order.
pub type Backs = ListOf<Back>;

/// The declared forward queries of a book, in order.
pub type Fwds = ListOf<Fwd>;

/// The links of a book, in order.
pub type LinkInfos = ListOf<LinkInfo>;
