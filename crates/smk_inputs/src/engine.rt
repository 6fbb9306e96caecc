use smk_outside::Gate;
use std::alloc::Global;
use std::thread::Threads;

/// What every call that reads tables, evaluates or answers is given: what starts threads, what they take memory from, and the gate that each piece of the work passes.
#[derive(Drop)]
pub struct Engine<'a, R: Threads + Sync, G: Gate + Sync> {
    pub rt: &'a R,
    pub alloc: Global,
    pub gate: &'a G,
}
