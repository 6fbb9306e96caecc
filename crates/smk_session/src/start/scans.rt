// Which views scan a table.
ghost use Rattle.std.specs.Prelude.{◌≡◌, ◌<◌, length};
ghost use Rattle.smk_base.specs.{CatalogImage.catalog_image, PlanImage.expr_of, Places.has};
ghost use Rattle.smk_model.specs.{Appends.scans, Plain.leaves};

use crate::start::opening::view_of;
use smk_base::Plan;
use smk_typing::TypedBook;

// Whether a plan scans a table.
fn plan_scans(plan: &Plan, table: u32) -> bool
    ensures { result ≡ has (leaves (expr_of plan.now)) table }
{
    match plan {
        Plan::Scan(scanned) => table == *scanned,
        Plan::One(_, input) => plan_scans(input, table),
        Plan::Two(_, left, right) => plan_scans(left, table) || plan_scans(right, table),
    }
}

/// Whether a view scans a table.
pub fn view_scans(book: &TypedBook, table: u32, v: u32) -> bool
    requires { v < length book.now.views }
    ensures { result ≡ scans (catalog_image book.now) table v }
{
    plan_scans(&view_of(book.catalog(), v).plan, table)
}
