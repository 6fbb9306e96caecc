ghost use Rattle.std.specs.Prelude.{◌≤◌, ℕ, [], ◌∷◌, IsErrOf, OnOk, OnErr};
ghost use Rattle.smk_outside.specs.{Hearing.Gives, Saying.{Says, SaysFront}, Outside.Rose, Told.Told};

pub(crate) mod ending;
pub(crate) mod event;
pub(crate) mod heard;
pub(crate) mod mem_talk;
pub(crate) mod stream_talk;

use crate::sink::Failed;
use crate::talk::heard::{Heard, TalkFault};
use std::alloc::Global;

/// An object with two ends: lines come from it, and bytes are said to it.
pub trait Talk {
    /// What has happened so far, and the lines still to come, where the object tells them.
    ghost told: { Self → Told };

    /// How many calls have failed.
    ghost faults: { Self → ℕ };

    /// The next line, without its LF and a CR before it, if it has at most `limit` bytes.
    /// It fails only by a fault that it counts.
    fn hear(&mut self, alloc: Global, limit: u64) -> Result<Heard, TalkFault>
        ensures gives { Gives limit (told self.old) (told self.new) result }
        ensures later { faults self.old ≤ faults self.new }
        ensures cause { IsErrOf result TalkFault.Failed → Rose (faults self.old) (faults self.new) };

    /// Says all the bytes, and leaves none of them waiting. It fails only by a fault that it counts;
    /// some of the bytes, from the first on, are then said.
    fn say(&mut self, bytes: &[u8]) -> Result<(), Failed>
        ensures ok { OnOk result (Says (told self.old) (told self.new) (bytes.now ∷ [])) }
        ensures front { OnErr result (SaysFront (told self.old) (told self.new) (bytes.now ∷ [])) }
        ensures later { faults self.old ≤ faults self.new }
        ensures cause { OnErr result (Rose (faults self.old) (faults self.new)) };
}
