ghost use Rattle.std.specs.{Prelude.{◌≡◌, ◌≢◌, ◌≤◌, ◌<◌, ◌+◌, ◌-◌, [], ◌∷◌, ◌++◌, All, OnOk, OnErr, OnSome, IfOk, IsErrOf, Ok, Err, length, take, drop, vec_len}, Io.BufRead.strip_last};
ghost use Rattle.std.specs.Io.KnownBytes as known;
ghost use Rattle.smk_outside.specs.{Hearing.Gives, Saying.{Says, SaysFront}, StreamSink.AppendsKnownPart, StreamTalk.{told_by, HearsBytes, IsShort, IsHeard, TakesFront, SomeTaken}, Outside.Rose};

use crate::sink::Failed;
use crate::sink::stream_sink::write_all_of;
use crate::talk::Talk;
use crate::talk::heard::{Heard, TalkFault};
use std::alloc::Global;
use std::io::{BufRead, ErrorKind, Write};
use std::marker::Model;

/// A reader from which lines come and a writer to which bytes are said, as the standard input behind a `BufReader` and the standard output.
/// It tells the lines that are left and what was said, where the reader and the writer tell their bytes.
#[derive(Drop)]
pub struct StreamTalk<R, W> {
    reader: R,
    writer: W,
    faults: u64,
}

impl<R, W> Model for StreamTalk<R, W> {
    ghost use Rattle.smk_outside.specs.StreamTalk.{CountedStreams};

    ghost Value = { CountedStreams R W };

    ghost view = { λ s. record { reader = s.reader; writer = s.writer; faults = s.faults } };
}

impl<R: BufRead, W: Write> StreamTalk<R, W> {
    /// An object of these two, which has not failed yet.
    pub fn new(reader: R, writer: W) -> StreamTalk<R, W>
        ensures reader { result.reader ≡ reader }
        ensures writer { result.writer ≡ writer }
        ensures faults { result.faults ≡ 0 }
    {
        StreamTalk {
            reader,
            writer,
            faults: 0,
        }
    }
}

impl<R: BufRead, W: Write> Talk for StreamTalk<R, W> {
    ghost told = { told_by R.remaining W.contents };

    ghost faults = { λ s. s.faults };

    /// A CR at the end of the last line, which has no LF, is no part of it either.
    fn hear(&mut self, alloc: Global, limit: u64) -> Result<Heard, TalkFault>
        ensures gives { Gives limit (told_by R.remaining W.contents self.old) (told_by R.remaining W.contents self.new) result }
        ensures later { self.old.faults ≤ self.new.faults }
        ensures cause { IsErrOf result TalkFault.Failed → Rose self.old.faults self.new.faults }
        ensures bytes { HearsBytes limit (R.remaining self.old.reader) (R.remaining self.new.reader) result }
        ensures writer { self.new.writer ≡ self.old.writer }
    {
        let result = hear_line(&mut self.reader, alloc, limit);
        if let Err(TalkFault::Failed) = result {
            self.faults = self.faults.saturating_add(1);
        }
        result
    }

    /// A write that takes nothing is a failure, and so is one that is interrupted.
    fn say(&mut self, bytes: &[u8]) -> Result<(), Failed>
        ensures ok { OnOk result (Says (told_by R.remaining W.contents self.old) (told_by R.remaining W.contents self.new) (bytes.now ∷ [])) }
        ensures front { OnErr result (SaysFront (told_by R.remaining W.contents self.old) (told_by R.remaining W.contents self.new) (bytes.now ∷ [])) }
        ensures later { self.old.faults ≤ self.new.faults }
        ensures cause { OnErr result (Rose self.old.faults self.new.faults) }
        ensures whole { OnOk result (known.Appends (W.contents self.old.writer) (W.contents self.new.writer) bytes.now) }
        ensures part { OnErr result (AppendsKnownPart (W.contents self.old.writer) (W.contents self.new.writer) bytes.now) }
        ensures reader { self.new.reader ≡ self.old.reader }
    {
        match write_through(&mut self.writer, bytes) {
            Ok(()) => Ok(()),
            Err(failed) => {
                self.faults = self.faults.saturating_add(1);
                Err(failed)
            }
        }
    }
}

// The next line, of which no more bytes are kept than a line within the limit has.
fn hear_line<R: BufRead>(reader: &mut R, alloc: Global, limit: u64) -> Result<Heard, TalkFault>
    ensures short { IfOk result (IsShort limit) }
    ensures bytes { HearsBytes limit (R.remaining reader.old) (R.remaining reader.new) result }
{
    let mut line = Vec::new(alloc);
    // A line of `limit` bytes has at most a CR and an LF behind them.
    match take_front(reader, &mut line, limit.saturating_add(2) as usize) {
        Ok(true) => Ok(heard(line, limit)),
        Ok(false) => match reader.skip_until(b'\n') {
            Ok(_) => Ok(Heard::Long),
            Err(_) => Err(TalkFault::Failed),
        },
        Err(TalkFault::NoMemory) => match reader.skip_until(b'\n') {
            Ok(_) => Err(TalkFault::NoMemory),
            Err(_) => Err(TalkFault::Failed),
        },
        Err(TalkFault::Failed) => Err(TalkFault::Failed),
    }
}

// What was heard, if these bytes are the line with its end.
fn heard(line: Vec<u8>, limit: u64) -> Heard
    ensures { IsHeard limit line.items result }
{
    let mut line = line;
    if line.is_empty() {
        return Heard::End;
    }
    drop_last(&mut line, b'\n');
    drop_last(&mut line, b'\r');
    if line.len() as u64 > limit {
        return Heard::Long;
    }
    Heard::Line(line)
}

// Lets go of the last byte, if it is this one.
fn drop_last(line: &mut Vec<u8>, byte: u8)
    ensures { line.new.items ≡ strip_last byte line.old.items }
{
    let n = line.len();
    if n > 0 && line[n - 1] == byte {
        line.truncate(n - 1);
    }
}

// Takes bytes from a reader, up to the first LF with it, or to the end. It stops before at so many bytes, and then it is `false`.
fn take_front<R: BufRead>(
    reader: &mut R,
    line: &mut Vec<u8>,
    most: usize,
) -> Result<bool, TalkFault>
    requires { line.old.items ≡ [] }
    ensures { TakesFront most (R.remaining reader.old) (R.remaining reader.new) line.new.items result }
{
    for _ in 0..u64::MAX {
        if line.len() >= most {
            return Ok(false);
        }
        match take_some(reader, line, most) {
            Ok(true) => return Ok(true),
            Ok(false) => {}
            Err(fault) => return Err(fault),
        }
    }
    Err(TalkFault::Failed)
}

// Appends the bytes that the reader has at hand, up to the first LF with it, and to so many bytes in all. It tells whether it met an LF or the end.
fn take_some<R: BufRead>(reader: &mut R, line: &mut Vec<u8>, most: usize) -> Result<bool, TalkFault>
    requires { vec_len line.old < most }
    ensures room { vec_len line.new ≤ most }
    ensures some { SomeTaken (R.remaining reader.old) (R.remaining reader.new) line.old.items line.new.items result }
{
    let available = match reader.fill_buf() {
        Ok(available) => available,
        Err(e) => {
            return if e.kind() == ErrorKind::Interrupted {
                Ok(false)
            } else {
                Err(TalkFault::Failed)
            };
        }
    };
    let end = len_through(available).min(most - line.len());
    match line.extend_from_slice(&available[..end]) {
        Ok(()) => {}
        Err(_) => return Err(TalkFault::NoMemory),
    }
    let is_done = end == 0 || available[end - 1] == b'\n';
    reader.consume(end);
    Ok(is_done)
}

// The length up to and including the first LF, or the whole length.
fn len_through(bytes: &[u8]) -> usize
    ensures bound { result ≤ length bytes.now }
    ensures some { 0 < length bytes.now → 0 < result }
    ensures before { All (λ x. x ≢ 10) (take (result - 1) bytes.now) }
{
    match bytes.iter().position(|b| *b == b'\n') {
        Some(at) => at + 1,
        None => bytes.len(),
    }
}

// Writes all the bytes, and leaves none of them waiting.
fn write_through<W: Write>(writer: &mut W, bytes: &[u8]) -> Result<(), Failed>
    ensures whole { OnOk result (known.Appends (W.contents writer.old) (W.contents writer.new) bytes.now) }
    ensures part { OnErr result (AppendsKnownPart (W.contents writer.old) (W.contents writer.new) bytes.now) }
{
    match write_all_of(writer, bytes) {
        Ok(()) => {}
        Err(failed) => return Err(failed),
    }
    match writer.flush() {
        Ok(()) => Ok(()),
        Err(_) => Err(Failed),
    }
}
