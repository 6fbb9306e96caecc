ghost use Rattle.std.specs.Prelude.{◌≤◌};
ghost use Rattle.smk_base.specs.declared.workers.TheConstants.{WORKER_LIMIT};

use smk_session::Mode;

/// How a run works, by its options. What it writes doesn't depend on it.
#[derive(Clone, Copy)]
pub struct Settings {
    pub mode: Mode,
    pub workers: u32,
    ghost some: { 1 ≤ workers },
    ghost few: { workers ≤ WORKER_LIMIT },
}
