// A view that is a growing chain, over a table that has grown.
ghost use Rattle.std.specs.Prelude.{◌≡◌, ◌<◌, true, length, IfOk};
ghost use Rattle.smk_session.specs.Opened.{opened};
ghost use Rattle.smk_grow.specs.{Renewals.{IsRenewal, book_of, first_book, last_book}, Renewed.chains};

use crate::renewal::Renewal;
use smk_chain::grown;
use smk_session::{Opened, view_of};
use smk_typing::needed;
use std::alloc::{AllocError, Global};

// The view over the longer table, from what it was over the first rows and what it is over those after them alone.
pub(crate) fn grown_view(
    alloc: Global,
    renewal: &Renewal<'_>,
    v: u32,
    old: &Opened,
    new: &Opened,
) -> Result<Opened, AllocError>
    requires renewal { IsRenewal renewal.now }
    requires view { v < length renewal.now.book.now.views }
    requires chains { chains (book_of renewal.now).catalog renewal.now.table v ≡ true }
    requires old { old.now ≡ opened (first_book renewal.now) v }
    requires new { new.now ≡ opened (last_book renewal.now) v }
    ensures { IfOk result (λ run. run ≡ opened (book_of renewal.now) v) }
{
    let need = needed(alloc, renewal.book, v)?;
    let view = view_of(renewal.book.catalog(), v);
    let len = renewal.len;
    grown(alloc, &view.plan, &need, renewal.tables, len, old, new)
}
