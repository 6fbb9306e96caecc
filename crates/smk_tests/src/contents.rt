//! Views of a book with their rows and the lineage that they keep, by whatever body.

use crate::opened::{Opened, maps_shown, need_of, ran, rows_shown};
use smk_body::OpBody;
use std::test::Fail;
use std::thread::Threads;

/// The rows of a view, and the lists that are kept of it where what is declared is needed.
pub(crate) struct Content {
    pub view: u32,
    pub rows: &'static str,
    pub maps: &'static str,
}

/// That views have their rows by a body, and their lists where it captures.
pub(crate) fn have_contents<R: Threads + Sync + AllocGlobal, B: OpBody + Sync>(
    rt: &R,
    system: HostRuntime,
    body: &B,
    opened: &Opened,
    contents: &[Content],
) -> Result<(), Fail> {
    for content in contents {
        let view = content.view;
        if opened.book.catalog().views.as_slice().len() <= view as usize {
            return Err(Fail::new("no view"));
        }
        let need = need_of(rt.alloc(), body, opened, view)?;
        let Ok(run) = ran(rt, system, body, opened, view, &need) else {
            return Err(Fail::new("no rows of a view"));
        };
        let rows = rows_shown(rt.alloc(), &run.rel)?;
        let maps = maps_shown(rt.alloc(), run.kept.as_slice())?;
        let lists = if body.captures() { content.maps } else { "" };
        if rows.as_str() != content.rows || maps.as_str() != lists {
            return Err(Fail::new("a view with another content"));
        }
    }
    Ok(())
}
