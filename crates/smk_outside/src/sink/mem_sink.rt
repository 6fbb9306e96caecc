ghost use Rattle.std.specs.{Prelude.{◌≡◌, ◌≤◌, min, [], Some, length, take, unwrap_or, nat_eq, is_ok, IfOk, OnOk, OnErr}, List.find, Option.option_map};
ghost use Rattle.smk_outside.specs.{Outside.{Rose, Appends, AppendsPart}, MemSink.{after_put, takes_all}};

use crate::sink::{Failed, Sink};
use std::alloc::{AllocError, Global};
use std::marker::Model;

/// A sink in memory with a room that is reserved at first, of which chosen calls fail. It tells what was written.
#[derive(Drop)]
pub struct MemSink {
    written: Vec<u8>,
    fails: Vec<(u32, u64)>,
    room: usize,
    calls: u64,
    faults: u64,
}

impl Model for MemSink {
    ghost use Rattle.std.specs.Prelude.{◌≤◌, vec_len, vec_capacity};
    ghost use Rattle.smk_outside.specs.MemSink.{StoredBytes};

    ghost Value = { StoredBytes };

    ghost view = { λ s. record { written = s.written.items; fails = s.fails.items; room = s.room; calls = s.calls; faults = s.faults } };

    ghost invariant = { λ s. (vec_len s.written ≤ s.room) × (s.room ≤ vec_capacity s.written) };
}

impl MemSink {
    /// An empty sink for at most `room` bytes. Calls of `put` are numbered from 0, and one with a number of `fails`
    /// fails after as many bytes as stand beside the number, or after all of the piece where it has fewer.
    /// A put past the room fails after what fits. On an error `fails` is dropped.
    pub fn new(alloc: Global, fails: Vec<(u32, u64)>, room: u64) -> Result<MemSink, AllocError>
        ensures written { IfOk result (λ sink. sink.written ≡ []) }
        ensures fails { IfOk result (λ sink. sink.fails ≡ fails.items) }
        ensures room { IfOk result (λ sink. sink.room ≡ room) }
        ensures calls { IfOk result (λ sink. sink.calls ≡ 0) }
        ensures faults { IfOk result (λ sink. sink.faults ≡ 0) }
    {
        let room = room as usize;
        let written = Vec::with_capacity(alloc, room)?;
        Ok(MemSink {
            written,
            fails,
            room,
            calls: 0,
            faults: 0,
        })
    }

    /// The bytes that were written so far.
    pub fn bytes(&self) -> &[u8]
        ensures { result.now ≡ self.now.written }
    {
        self.written.as_slice()
    }
}

impl Sink for MemSink {
    ghost written = { λ s. Some s.written };

    ghost faults = { λ s. s.faults };

    /// Exactly the calls that are to fail, and those past the room, fail.
    fn put(&mut self, bytes: &[u8]) -> Result<(), Failed>
        ensures ok { OnOk result (Appends (Some self.old.written) (Some self.new.written) bytes.now) }
        ensures part { OnErr result (AppendsPart (Some self.old.written) (Some self.new.written) bytes.now) }
        ensures later { self.old.faults ≤ self.new.faults }
        ensures cause { OnErr result (Rose self.old.faults self.new.faults) }
        ensures whole { is_ok result ≡ takes_all self.old bytes.now }
        ensures state { self.new ≡ after_put self.old bytes.now }
    {
        let planned = planned_failure(&self.fails, self.calls);
        let room_left = self.room - self.written.len();
        match self
            .written
            .extend_from_slice(front_of(bytes, planned, room_left))
        {
            Ok(()) => {}
            Err(_) => unreachable!(),
        }
        self.calls = self.calls.saturating_add(1);
        if planned.is_none() && bytes.len() <= room_left {
            return Ok(());
        }
        self.faults = self.faults.saturating_add(1);
        Err(Failed)
    }
}

// The bytes before a failure, as far as they fit.
fn front_of(bytes: &[u8], failure: Option<u64>, room_left: usize) -> &[u8]
    ensures { result.now ≡ take (min (unwrap_or failure (length bytes.now)) room_left) bytes.now }
{
    let asked = match failure {
        Some(count) => count as usize,
        None => bytes.len(),
    };
    &bytes[..asked.min(room_left).min(bytes.len())]
}

/// After how many bytes the call with this number is to fail, if it is to fail.
pub(crate) fn planned_failure(fails: &[(u32, u64)], call: u64) -> Option<u64>
    ensures { result ≡ option_map (λ fail. fail.1) (find (λ fail. nat_eq fail.0 call) fails.now) }
{
    for (number, count) in fails {
        if u64::from(*number) == call {
            return Some(*count);
        }
    }
    None
}
