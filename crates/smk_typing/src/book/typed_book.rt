ghost use Rattle.std.specs.Prelude.{◌≡◌};
ghost use Rattle.smk_base.specs.CatalogImage.{catalog_image};
ghost use Rattle.smk_model.specs.Catalogs.{IsCatalog};

use smk_base::Catalog;
use std::marker::Model;

/// A checked book: every number in it names something, every kind is right, and it keeps the limits.
#[derive(Drop)]
pub struct TypedBook {
    catalog: Catalog,
}

impl Model for TypedBook {
    ghost use Rattle.smk_base.specs.declared.book.catalog.Catalog.{Catalog};
    ghost use Rattle.smk_base.specs.contracts.book.catalog.Catalog as held;
    ghost use Rattle.std.specs.Coded.{codes};

    ghost Value = { Catalog };

    ghost coded = { Prim.hlevel (codes, held.the_row.coded) };

    ghost view = { λ a. a.catalog };

    ghost use Rattle.smk_base.specs.CatalogImage.{catalog_image};
    ghost use Rattle.smk_model.specs.Catalogs.{IsCatalog};

    ghost invariant = { λ a. IsCatalog (catalog_image a.catalog) };
}

impl TypedBook {
    /// The checked book of a catalog.
    pub(crate) fn of(catalog: Catalog) -> TypedBook
        requires { IsCatalog (catalog_image catalog) }
        ensures { result ≡ catalog }
    {
        TypedBook { catalog }
    }

    /// The tables, views, declared queries and links of the book, within the limits, where every number names something and every kind is right.
    pub fn catalog(&self) -> &Catalog
        ensures value { result.now ≡ self.now }
        ensures checked { IsCatalog (catalog_image self.now) }
    {
        &self.catalog
    }
}
