// The rows of a part among so many.
ghost use Rattle.std.specs.Prelude.{◌≡◌, ◌≤◌, ◌<◌, ◌+◌, ◌^◌, length};
ghost use Rattle.smk_model.specs.OwnTexts as texts;
ghost use Rattle.smk_own.specs.Image.{part_image, span_of};

use crate::own_line::Part;

/// Where a part begins among so many members, and how many it has.
pub(crate) fn span(part: Option<Part>, count: u32) -> (u32, u32)
    ensures is { result ≡ span_of (part_image part) count }
    ensures within { result.0 + result.1 ≤ count }
{
    match part {
        None => (0, count),
        Some(part) => {
            let from = part.from.min(count);
            let to = part.below.min(count);
            (from, to.saturating_sub(from))
        }
    }
}

/// The members in a part.
pub(crate) fn part_of(part: Option<Part>, members: &[u32]) -> &[u32]
    requires { length members.now < 2 ^ 32 }
    ensures { result.now ≡ texts.part_of (part_image part) members.now }
{
    let (from, count) = span(part, members.len() as u32);
    &members[from as usize..(from + count) as usize]
}
