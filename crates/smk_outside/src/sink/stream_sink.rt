ghost use Rattle.std.specs.Prelude.{◌≡◌, ◌≤◌, None, OnOk, OnErr};
ghost use Rattle.std.specs.Io.KnownBytes as known;
ghost use Rattle.smk_outside.specs.{Outside.{Rose, next_count}, StreamSink.AppendsKnownPart};

use crate::sink::{Failed, Sink};
use std::io::{Stderr, Stdout, Write};
use std::marker::Model;

/// A stream of the system as a sink. As a sink it tells nothing of what was written; its own contract says what
/// a stream that tells its bytes has got.
#[derive(Drop)]
pub struct StreamSink<W> {
    stream: W,
    faults: u64,
}

/// The standard output as a sink, made of `rt.stdout()`.
pub type OutSink = StreamSink<Stdout>;

/// The standard error as a sink, made of `rt.stderr()`.
pub type ErrSink = StreamSink<Stderr>;

impl<W> Model for StreamSink<W> {
    ghost use Rattle.smk_outside.specs.StreamSink.{CountedStream};

    ghost Value = { CountedStream W };

    ghost view = { λ s. record { stream = s.stream; faults = s.faults } };
}

impl<W: Write> StreamSink<W> {
    /// A sink over the stream that has not failed yet.
    pub fn new(stream: W) -> StreamSink<W>
        ensures stream { result.stream ≡ stream }
        ensures faults { result.faults ≡ 0 }
    {
        StreamSink { stream, faults: 0 }
    }
}

impl<W: Write> Sink for StreamSink<W> {
    ghost written = { λ s. None };

    ghost faults = { λ s. s.faults };

    /// The count rises exactly where the call fails. At its last value it stays.
    /// A write that takes nothing is a failure, and so is one that is interrupted.
    fn put(&mut self, bytes: &[u8]) -> Result<(), Failed>
        ensures later { self.old.faults ≤ self.new.faults }
        ensures cause { OnErr result (Rose self.old.faults self.new.faults) }
        ensures calm { OnOk result (self.new.faults ≡ self.old.faults) }
        ensures counted { OnErr result (self.new.faults ≡ next_count self.old.faults) }
        ensures whole { OnOk result (known.Appends (W.contents self.old.stream) (W.contents self.new.stream) bytes.now) }
        ensures front { OnErr result (AppendsKnownPart (W.contents self.old.stream) (W.contents self.new.stream) bytes.now) }
    {
        let result = write_all_of(&mut self.stream, bytes);
        if result.is_err() {
            self.faults = self.faults.saturating_add(1);
        }
        result
    }
}

/// Writes all the bytes, piece by piece as the stream takes them.
pub(crate) fn write_all_of<W: Write>(stream: &mut W, bytes: &[u8]) -> Result<(), Failed>
    ensures whole { OnOk result (known.Appends (W.contents stream.old) (W.contents stream.new) bytes.now) }
    ensures part { OnErr result (AppendsKnownPart (W.contents stream.old) (W.contents stream.new) bytes.now) }
{
    let mut rest = bytes;
    while !rest.is_empty() {
        match stream.write(rest) {
            Ok(0) => return Err(Failed),
            Ok(count) => rest = &rest[count..],
            Err(_) => return Err(Failed),
        }
    }
    Ok(())
}
