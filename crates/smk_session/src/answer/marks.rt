// The rows that a line marks, and the members of their lists.
ghost use Rattle.std.specs.Prelude.{◌≡◌, length, IfOk};
ghost use Rattle.smk_base.specs.Places.{IsPlaces};
ghost use Rattle.smk_model.specs.Replies as replies;
ghost use Rattle.smk_session.specs.Answers.{Gives, members_asked, within_asked};

use crate::answer::no_answer::Turned;
use smk_base::{Marks, Refusal, Rids};
use smk_rid::RidMap;
use std::alloc::Global;

// The first number as written that is not below the number of rows.
fn first_outside(marks: &Marks, rows: u32) -> Option<u32>
    ensures { result ≡ replies.first_outside (replies.written marks.now) rows }
{
    match marks {
        Marks::All => None,
        Marks::Listed(listed) => match listed.as_slice().iter().find(|mark| **mark >= rows) {
            Some(mark) => Some(*mark),
            None => None,
        },
    }
}

// Refuses a number that is no row.
pub(crate) fn check_marks(marks: &Marks, rows: u32) -> Result<(), Turned>
    ensures { Gives result (within_asked marks.now rows) }
{
    match first_outside(marks, rows) {
        Some(row) => Err(Turned::Refused(Refusal::NoRow { row, rows })),
        None => Ok(()),
    }
}

// The members of the lists at the marked places, ascending and without repeats.
pub(crate) fn marked_members(alloc: Global, map: &RidMap, marks: &Marks) -> Result<Rids, Turned>
    ensures gives { Gives result (members_asked map.now marks.now) }
    ensures set { IfOk result (λ rids. IsPlaces map.now.bound rids) }
{
    check_marks(marks, map.len())?;
    match marks {
        Marks::All => Ok(map.join_all(alloc)?),
        Marks::Listed(listed) => Ok(map.join_up(alloc, listed.as_slice())?),
    }
}
