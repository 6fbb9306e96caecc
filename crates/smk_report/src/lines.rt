ghost use Rattle.std.specs.{Prelude.{◌≡◌, ◌≤◌, ◌+◌, ◌*◌, ◌++◌, ◌∷◌, [], length, map, drop, decimal, codes, IfOk, OnOk}, List.flat_map};
ghost use Rattle.smk_model.specs.Texts as texts;

use itoa::{Buffer, write_digits};
use std::alloc::{AllocError, Global};

// How many bytes the room has for so many numbers, each of at most ten digits after a space.
const ROOM_BYTES: usize = 2046;

// How many numbers are written into a room before these are put at the end of a text.
const ROOM_NUMBERS: usize = 186;

/// Writes parts at the end of a text, one after the other. After an error the text is of no use.
#[tactic(auto, using(crate::proofs::Parts::joined_more))]
pub fn add_parts(text: &mut Vec<u8>, parts: &[&[u8]]) -> Result<(), AllocError>
    ensures { OnOk result (text.new.items ≡ text.old.items ++ flat_map (λ part. part) (map (λ part. part.now) parts.now)) }
{
    for part in parts {
        text.extend_from_slice(part)?;
    }
    Ok(())
}

/// Writes a line at the end of a text: its parts, one after the other, and a line feed. After an error the text is of no use.
pub fn add_line(text: &mut Vec<u8>, parts: &[&[u8]]) -> Result<(), AllocError>
    ensures { OnOk result (text.new.items ≡ text.old.items ++ texts.line (map (λ part. part.now) parts.now)) }
{
    add_parts(text, parts)?;
    text.push(b'\n')?;
    Ok(())
}

/// A line alone.
pub fn line_of(alloc: Global, parts: &[&[u8]]) -> Result<Vec<u8>, AllocError>
    ensures { IfOk result (λ text. text.items ≡ texts.line (map (λ part. part.now) parts.now)) }
{
    let mut text = Vec::new(alloc);
    add_line(&mut text, parts)?;
    Ok(text)
}

/// A line alone that names two things.
pub fn pair_text(
    alloc: Global,
    first: &[u8],
    from: &[u8],
    between: &[u8],
    to: &[u8],
) -> Result<Vec<u8>, AllocError>
    ensures { IfOk result (λ text. text.items ≡ texts.line (first.now ∷ from.now ∷ between.now ∷ to.now ∷ [])) }
{
    line_of(alloc, &[first, from, between, to])
}

/// Writes a line at the end of a text: parts, a number in decimal, and further parts. After an error the text is of no use.
pub fn add_line_around(
    text: &mut Vec<u8>,
    before: &[&[u8]],
    number: u64,
    after: &[&[u8]],
) -> Result<(), AllocError>
    ensures { OnOk result (text.new.items ≡ text.old.items ++ texts.line (map (λ part. part.now) before.now ++ decimal number ∷ map (λ part. part.now) after.now)) }
{
    let mut digits = Buffer::new();
    add_parts(text, before)?;
    text.extend_from_slice(digits.format(number).as_bytes())?;
    add_line(text, after)
}

/// A line alone, of parts, a number in decimal, and further parts.
pub fn line_around(
    alloc: Global,
    before: &[&[u8]],
    number: u64,
    after: &[&[u8]],
) -> Result<Vec<u8>, AllocError>
    ensures { IfOk result (λ text. text.items ≡ texts.line (map (λ part. part.now) before.now ++ decimal number ∷ map (λ part. part.now) after.now)) }
{
    let mut text = Vec::new(alloc);
    add_line_around(&mut text, before, number, after)?;
    Ok(text)
}

// Writes a space and a number into a room, so that they end at a place. It tells where they begin.
fn put_number(room: &mut [u8], number: u32, end: usize) -> usize
    requires fits { 11 ≤ end }
    requires within { end ≤ length room.old }
    ensures few { end ≤ result + 11 }
    ensures within { result ≤ length room.new }
    ensures len { length room.new ≡ length room.old }
    ensures bytes { drop result room.new ≡ codes " " ++ decimal number ++ drop end room.old }
{
    let start = write_digits(number as u64, room, end);
    room[start - 1] = b' ';
    start - 1
}

// Writes numbers into a room, each after a space, so that they end where the room does. It tells where they begin.
fn put_numbers(room: &mut [u8], numbers: &[u32]) -> usize
    requires { 11 * length numbers.now ≤ length room.old }
    ensures within { result ≤ length room.new }
    ensures len { length room.new ≡ length room.old }
    ensures bytes { drop result room.new ≡ flat_map (λ n. codes " " ++ decimal n) numbers.now }
{
    let mut from = room.len();
    let mut left = numbers.len();
    while left > 0 {
        left -= 1;
        from = put_number(room, numbers[left], from);
    }
    from
}

// Writes a line of numbers at the end of a text: a word, and each number after a space. After an error the text is of no use.
fn add_numbers(text: &mut Vec<u8>, word: &[u8], numbers: &[u32]) -> Result<(), AllocError>
    ensures { OnOk result (text.new.items ≡ text.old.items ++ texts.numbers_line word.now numbers.now) }
{
    let mut room = [0u8; ROOM_BYTES];
    let mut done = 0;
    text.extend_from_slice(word)?;
    while done < numbers.len() {
        let next = numbers.len().min(done + ROOM_NUMBERS);
        let from = put_numbers(&mut room, &numbers[done..next]);
        text.extend_from_slice(&room[from..])?;
        done = next;
    }
    text.push(b'\n')?;
    Ok(())
}

/// Writes at the end of a text a line of parts and of how many numbers there are, and then the line of the numbers. After an error the text is of no use.
pub fn add_counted(
    text: &mut Vec<u8>,
    parts: &[&[u8]],
    word: &[u8],
    numbers: &[u32],
) -> Result<(), AllocError>
    ensures { OnOk result (text.new.items ≡ text.old.items ++ texts.line (map (λ part. part.now) parts.now ++ decimal (length numbers.now) ∷ []) ++ texts.numbers_line word.now numbers.now) }
{
    add_line_around(text, parts, numbers.len() as u64, &[])?;
    add_numbers(text, word, numbers)
}
