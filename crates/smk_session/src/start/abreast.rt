// How much of a session's work is done at once.
ghost use Rattle.std.specs.Prelude.{◌≤◌};
ghost use Rattle.smk_base.specs.declared.workers.TheConstants.{WORKER_LIMIT};

use smk_table::Table;

// Over fewer rows in all tables together, the views of a book take less time than threads for them may have to wait for a processor.
const LEAST_ROWS: u64 = 65536;

// Whether the tables together have too few rows for a thread a view.
pub(crate) fn are_few(tables: &[Table]) -> bool {
    let mut rows = 0u64;
    for table in tables {
        rows = rows.saturating_add(u64::from(table.len()));
    }
    rows < LEAST_ROWS
}

// How many views are opened at once: all of a book, where there are several workers and rows enough, and else one.
pub(crate) fn views_at_once(workers: u32, views: u32, tables: &[Table]) -> u32
    ensures { 1 ≤ result }
{
    if workers == 1 || views < 2 || are_few(tables) {
        1
    } else {
        views
    }
}

// How many workers each of so many views has that are opened at once.
pub(crate) fn share_of(workers: u32, views: u32) -> u32
    requires some { 1 ≤ views }
    requires few_workers { workers ≤ WORKER_LIMIT }
    ensures some { 1 ≤ result }
    ensures few { result ≤ WORKER_LIMIT }
{
    (workers / views).max(1)
}
