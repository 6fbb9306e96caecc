ghost use Rattle.std.specs.Prelude.{◌≡◌, IfOk};
ghost use Rattle.smk_keys.specs.Classes.{classes_of};

use smk_base::{Rel, numbers_below};
use smk_keys::Classes;
use std::alloc::{AllocError, Global};

/// The rows in classes of equal ones.
pub fn row_classes(alloc: Global, rel: &Rel) -> Result<Classes, AllocError>
    ensures { IfOk result (λ made. made ≡ classes_of rel.now.rows) }
{
    let columns = numbers_below(alloc, rel.width())?;
    Classes::of_rows(alloc, rel, columns.as_slice())
}
