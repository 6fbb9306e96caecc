ghost use Rattle.std.specs.Prelude.{◌≤◌};
ghost use Rattle.smk_base.specs.declared.workers.TheConstants.{WORKER_LIMIT};

use smk_jobs::Crew;
use smk_outside::Gate;

/// Who does the work of a session: as many parts of it as workers, from 1 to 64, each of which passes the gate.
#[derive(Drop)]
pub struct Workers<'g, G: Gate + Sync> {
    pub gate: &'g G,
    pub workers: u32,
    ghost some: { 1 ≤ workers },
    ghost few: { workers ≤ WORKER_LIMIT },
}

impl<'g, G: Gate + Sync> Crew for Workers<'g, G> {
    fn parts(&self) -> u32 {
        self.workers
    }

    fn arrive(&self, p: u32) {
        self.gate.arrive(p);
    }
}
