// What there is.
ghost use Rattle.std.specs.Prelude.{◌≡◌, length, map, IfOk};
ghost use Rattle.smk_base.specs.{CatalogImage.catalog_image, Places.upto};
ghost use Rattle.smk_model.specs.{OwnTexts.schema_text as schema_said, Session.{first_content, rows_of_table}};
ghost use Rattle.smk_session.specs.Sessions.{state_of};

use smk_base::Names;
use smk_report::schema_text;
use smk_session::Session;
use std::alloc::{AllocError, Global};

// How many rows each table has.
fn table_rows(alloc: Global, session: &Session) -> Result<Vec<u32>, AllocError>
    ensures { IfOk result (λ counts. counts.items ≡ map (λ t. length (rows_of_table (state_of session.now) t)) (upto (length session.now.catalog.tables))) }
{
    let mut counts = Vec::new(alloc);
    for t in 0..session.catalog().tables.as_slice().len() as u32 {
        counts.push(session.table_len(t))?;
    }
    Ok(counts)
}

// How many rows each view has in its first content.
fn view_rows(alloc: Global, session: &Session) -> Result<Vec<u32>, AllocError>
    ensures { IfOk result (λ counts. counts.items ≡ map (λ v. length (first_content (catalog_image session.now.catalog) (state_of session.now) v)) (upto (length session.now.catalog.views))) }
{
    let mut counts = Vec::new(alloc);
    for v in 0..session.catalog().views.as_slice().len() as u32 {
        counts.push(session.first(v).len())?;
    }
    Ok(counts)
}

/// The schema of a book whose dependencies have these names: the tables with their rows and columns, the views with as many rows as they have marks, and the declarations. It makes no look.
pub fn schema(alloc: Global, session: &Session, fds: &Names) -> Result<Vec<u8>, AllocError>
    ensures { IfOk result (λ text. text.items ≡ schema_said (record { catalog = catalog_image session.now.catalog; fds = fds.now }) (state_of session.now)) }
{
    let tables = table_rows(alloc, session)?;
    let views = view_rows(alloc, session)?;
    schema_text(
        alloc,
        session.catalog(),
        fds,
        tables.as_slice(),
        views.as_slice(),
    )
}
