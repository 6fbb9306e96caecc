/// How many workers a run may have.
pub const WORKER_LIMIT: u32 = 64;
