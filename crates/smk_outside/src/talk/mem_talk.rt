ghost use Rattle.std.specs.Prelude.{◌≡◌, ◌≤◌, ◌<◌, [], ◌∷◌, ◌++◌, vec_len, vec_capacity, OnOk, OnErr, IsErrOf, IsErr, IsTrue, IfOk, length};
ghost use Rattle.smk_outside.specs.{Hearing.Gives, MemTalk.{told_of, fails_to_hear, fails_to_say}, Saying.{Says, SaysFront}, Outside.Rose};

use crate::files::mem_files::has_number;
use crate::sink::Failed;
use crate::sink::mem_sink::planned_failure;
use crate::talk::Talk;
use crate::talk::event::Event;
use crate::talk::heard::{Heard, TalkFault};
use smk_base::Text;
use std::alloc::{AllocError, Global};
use std::collections::VecDeque;
use std::marker::Model;

/// An object in memory, of which chosen calls fail. It tells all that happens. It fails too, and counts it, where it has no memory to note what happens.
#[derive(Drop)]
pub struct MemTalk {
    alloc: Global,
    left: VecDeque<Text>,
    events: Vec<Event>,
    hear_fails: Vec<u32>,
    say_fails: Vec<(u32, u64)>,
    hears: u64,
    says: u64,
    faults: u64,
}

impl Model for MemTalk {
    ghost use Rattle.smk_outside.specs.MemTalk.{StoredTalk};

    ghost Value = { StoredTalk };

    ghost view = { λ s. record {
      left = s.left.items;
      events = s.events.items;
      hear_fails = s.hear_fails.items;
      say_fails = s.say_fails.items;
      hears = s.hears;
      says = s.says;
      faults = s.faults;
    } };
}

impl MemTalk {
    /// An object from which these lines come. Calls of `hear` and of `say` are numbered from 0 each, and those with a number of `hear_fails` and `say_fails` fail;
    /// a `say` fails after as many bytes as stand beside its number. It takes no memory.
    pub fn new(
        alloc: Global,
        left: VecDeque<Text>,
        hear_fails: Vec<u32>,
        say_fails: Vec<(u32, u64)>,
    ) -> MemTalk
        ensures left { result.left ≡ left.items }
        ensures events { result.events ≡ [] }
        ensures hear_fails { result.hear_fails ≡ hear_fails.items }
        ensures say_fails { result.say_fails ≡ say_fails.items }
        ensures hears { result.hears ≡ 0 }
        ensures says { result.says ≡ 0 }
        ensures faults { result.faults ≡ 0 }
    {
        MemTalk {
            alloc,
            left,
            events: Vec::new(alloc),
            hear_fails,
            say_fails,
            hears: 0,
            says: 0,
            faults: 0,
        }
    }

    /// What has happened.
    pub fn events(&self) -> &[Event]
        ensures { result.now ≡ self.now.events }
    {
        self.events.as_slice()
    }

    /// How many calls have failed.
    pub fn faults(&self) -> u64
        ensures { result ≡ self.now.faults }
    {
        self.faults
    }

    // A call has failed.
    fn count_fault(&mut self)
        ensures cause { Rose self.old.faults self.new.faults }
        ensures later { self.old.faults ≤ self.new.faults }
        ensures left { self.new.left ≡ self.old.left }
        ensures events { self.new.events ≡ self.old.events }
    {
        self.faults = self.faults.saturating_add(1);
    }

    // Notes that these bytes were said, which may want memory.
    fn note_said(&mut self, bytes: &[u8]) -> Result<(), AllocError>
        ensures ok { OnOk result (Says (told_of self.old) (told_of self.new) (bytes.now ∷ [])) }
        ensures kept { OnErr result (self.new ≡ self.old) }
        ensures faults { self.new.faults ≡ self.old.faults }
    {
        let copy = Vec::from_slice(self.alloc, bytes)?;
        self.events.push(Event::Said(Text::from_vec(copy)))?;
        Ok(())
    }

    // Notes that the first bytes, at most this many, were said, or that none were, where there is no memory.
    fn note_front(&mut self, bytes: &[u8], count: u64)
        ensures front { SaysFront (told_of self.old) (told_of self.new) (bytes.now ∷ []) }
        ensures faults { self.new.faults ≡ self.old.faults }
    {
        let end = bytes.len().min(count as usize);
        match self.note_said(&bytes[..end]) {
            Ok(()) => {}
            Err(_) => {}
        }
    }
}

impl Talk for MemTalk {
    ghost told = { told_of };

    ghost faults = { λ s. s.faults };

    /// The calls that are to fail do.
    fn hear(&mut self, alloc: Global, limit: u64) -> Result<Heard, TalkFault>
        ensures gives { Gives limit (told_of self.old) (told_of self.new) result }
        ensures later { self.old.faults ≤ self.new.faults }
        ensures cause { IsErrOf result TalkFault.Failed → Rose self.old.faults self.new.faults }
        ensures planned { IsTrue (fails_to_hear self.old) → IsErrOf result TalkFault.Failed }
    {
        let call = self.hears;
        self.hears = call.saturating_add(1);
        if has_number(&self.hear_fails, call) {
            self.count_fault();
            return Err(TalkFault::Failed);
        }
        // Room for the event first, so that a line is taken only where it is noted.
        if self.events.reserve(1).is_err() {
            self.count_fault();
            return Err(TalkFault::Failed);
        }
        let Some(line) = self.left.pop_front() else {
            note(&mut self.events, Event::End);
            return Ok(Heard::End);
        };
        let result = if line.as_slice().len() as u64 > limit {
            Ok(Heard::Long)
        } else {
            match Vec::from_slice(alloc, line.as_slice()) {
                Ok(copy) => Ok(Heard::Line(copy)),
                Err(_) => Err(TalkFault::NoMemory),
            }
        };
        note(&mut self.events, Event::Heard(line));
        result
    }

    /// The calls that are to fail do.
    fn say(&mut self, bytes: &[u8]) -> Result<(), Failed>
        ensures ok { OnOk result (Says (told_of self.old) (told_of self.new) (bytes.now ∷ [])) }
        ensures front { OnErr result (SaysFront (told_of self.old) (told_of self.new) (bytes.now ∷ [])) }
        ensures later { self.old.faults ≤ self.new.faults }
        ensures cause { OnErr result (Rose self.old.faults self.new.faults) }
        ensures planned { IsTrue (fails_to_say self.old) → IsErr result }
    {
        let call = self.says;
        self.says = call.saturating_add(1);
        match planned_failure(&self.say_fails, call) {
            Some(count) => {
                self.note_front(bytes, count);
                self.count_fault();
                Err(Failed)
            }
            None => match self.note_said(bytes) {
                Ok(()) => Ok(()),
                Err(_) => {
                    self.count_fault();
                    Err(Failed)
                }
            },
        }
    }
}

// Adds an event, for which there is room.
fn note(events: &mut Vec<Event>, event: Event)
    requires { vec_len events.old < vec_capacity events.old }
    ensures { events.new.items ≡ events.old.items ++ event ∷ [] }
{
    match events.push(event) {
        Ok(()) => {}
        Err(_) => unreachable!(),
    }
}
