ghost use Rattle.std.specs.Prelude.{◌≡◌, ◌<◌, ◌≤◌, true};
ghost use Rattle.smk_base.specs.declared.workers.TheConstants.{WORKER_LIMIT};
ghost use Rattle.smk_jobs.specs.declared.crew.TheConstants.{LEAST_ROWS};

use std::alloc::Global;
use std::marker::Sync;
use std::thread::Threads;

/// Into how many parts the work of a step is cut, and who is told where each begins. One that says nothing has one part and tells nobody.
pub trait Crew {
    /// How many parts.
    fn parts(&self) -> u32
        ensures some { 0 < result }
        ensures few { result ≤ WORKER_LIMIT }
    {
        1
    }

    /// Part `p` begins, in whatever thread.
    fn arrive(&self, _p: u32) {}
}

/// What every call is given whose work may go to threads: what starts them, what they take memory of, and who does the work.
#[derive(Drop)]
pub struct Work<'a, R: Threads + Sync, C: Crew + Sync> {
    pub rt: &'a R,
    pub alloc: Global,
    pub crew: &'a C,
}

/// Fewer rows than this are not worth a thread.
pub const LEAST_ROWS: usize = 4096;

impl<'a, R: Threads + Sync, C: Crew + Sync> Work<'a, R, C> {
    /// Whether so many rows are made in this thread alone.
    pub fn is_alone(&self, rows: usize) -> bool
        ensures { rows < LEAST_ROWS → result ≡ true }
    {
        self.crew.parts() < 2 || rows < LEAST_ROWS
    }
}
