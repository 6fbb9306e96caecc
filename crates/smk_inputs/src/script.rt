// A script, from its file to what its lines say.
ghost use Rattle.std.specs.{Prelude.{◌≡◌, ◌≤◌, IfOk}, Option.option_copied};
ghost use Rattle.smk_model.specs.Readings.{IsReading};
ghost use Rattle.smk_outside.specs.Outside.{Rose};
ghost use Rattle.smk_inputs.specs.{LineLimits.KeepsReading, Image.reading_image, Collecting.{OpensBytes, IsSayable}};

use crate::files::content;
use crate::stop::Stop;
use smk_base::{AnyLine, LineFault, Text};
use smk_outside::Files;
use smk_parse::parse_any;
use std::alloc::{AllocError, Global};

/// What a line of a script says.
#[derive(Drop)]
pub enum Reading {
    /// The line has no token.
    Nothing,
    /// A line of the grammar.
    Asks(AnyLine),
    /// The line isn't in the grammar; this is the place in bytes of its first wrong token.
    Unread(u64),
}

/// What a line says.
#[tactic(auto, using(crate::proofs::FileReads::lines_say))]
pub fn reading_of(alloc: Global, text: &[u8]) -> Result<Reading, AllocError>
    ensures says { IfOk result (λ reading. IsReading text.now (reading_image reading)) }
    ensures kept { IfOk result (λ reading. KeepsReading (reading_image reading)) }
{
    match parse_any(alloc, text) {
        Ok(None) => Ok(Reading::Nothing),
        Ok(Some(line)) => Ok(Reading::Asks(line)),
        Err(LineFault::NotALine { at }) => Ok(Reading::Unread(at)),
        Err(LineFault::NoMemory) => Err(AllocError),
    }
}

/// The bytes of a run's script; none if the run has no script.
pub fn open_script<F: Files>(
    alloc: Global,
    files: &mut F,
    name: Option<&Text>,
) -> Result<Vec<u8>, Stop>
    ensures read { OpensBytes (F.held files.old) (Rose (F.faults files.old) (F.faults files.new)) (option_copied name.entry) (λ bytes. bytes.items) result }
    ensures said { IsSayable result }
    ensures held { F.held files.new ≡ F.held files.old }
    ensures later { F.faults files.old ≤ F.faults files.new }
{
    match name {
        None => Ok(Vec::new(alloc)),
        Some(name) => content(alloc, files, name),
    }
}
