// The text of what is added, from what takes the places of the views, before it does.
ghost use Rattle.std.specs.{Prelude.{◌≡◌, ◌<◌, ◌++◌, length, All, IfOk}, List.flat_map};
ghost use Rattle.smk_model.specs.AppendTexts as texts;
ghost use Rattle.smk_model.specs.{Session.view_at, ViewTexts.text_of_view};
ghost use Rattle.smk_session.specs.Making.{IsOpened, book_in};

use crate::said::added_line;
use smk_base::Text;
use smk_jobs::Work;
use smk_outside::Gate;
use smk_report::view_text_in_pieces;
use smk_session::{Opening, Workers, view_now, view_of};
use std::alloc::AllocError;
use std::thread::Threads;

// A text followed by that of a view, as the view is now.
fn with_view_now<R: Threads + Sync, G: Gate + Sync>(
    work: &Work<'_, R, Workers<'_, G>>,
    front: Vec<u8>,
    views: &Opening<'_>,
    v: u32,
) -> Result<Vec<u8>, AllocError>
    requires views { IsOpened views.now }
    requires view { v < length views.now.book.now.views }
    ensures { IfOk result (λ text. text.items ≡ front.items ++ text_of_view (book_in views.now) (view_at (book_in views.now).catalog v)) }
{
    let info = view_of(views.book.catalog(), v);
    let rel = &view_now(views, v).rel;
    let (rt, alloc, workers) = (work.rt, work.alloc, work.crew.workers);
    let more = view_text_in_pieces(rt, alloc, workers, &info.name, &info.names, rel)?;
    let mut text = front;
    text.extend_from_slice(more.as_slice())?;
    Ok(text)
}

// A text followed by those of some views.
fn with_views_now<R: Threads + Sync, G: Gate + Sync>(
    work: &Work<'_, R, Workers<'_, G>>,
    front: Vec<u8>,
    views: &Opening<'_>,
    scanning: &[u32],
) -> Result<Vec<u8>, AllocError>
    requires views { IsOpened views.now }
    requires scanning { All (λ v. v < length views.now.book.now.views) scanning.now }
    ensures { IfOk result (λ text. text.items ≡ front.items ++ flat_map (λ v. text_of_view (book_in views.now) (view_at (book_in views.now).catalog v)) scanning.now) }
{
    let mut text = front;
    for v in scanning {
        text = with_view_now(work, text, views, *v)?;
    }
    Ok(text)
}

// How many rows are added to the table of this name, and the views that scan it.
pub(crate) fn added_now<R: Threads + Sync, G: Gate + Sync>(
    work: &Work<'_, R, Workers<'_, G>>,
    views: &Opening<'_>,
    table: &Text,
    rows: u32,
    scanning: &[u32],
) -> Result<Vec<u8>, AllocError>
    requires views { IsOpened views.now }
    requires scanning { All (λ v. v < length views.now.book.now.views) scanning.now }
    ensures { IfOk result (λ text. text.items ≡ texts.added_text (book_in views.now) table.now rows scanning.now) }
{
    let front = added_line(work.alloc, table, rows)?;
    with_views_now(work, front, views, scanning)
}
