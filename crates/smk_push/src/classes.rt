//! The classes of some of the rows whose classes are known.
ghost use Rattle.std.specs.{Prelude.{◌≡◌, ◌<◌, ◌≤◌, true, length, map, nat_eq, All, IfOk, slice_index, slice_index_or}, Bool.OnTrue};
ghost use Rattle.smk_base.specs.declared.rel.TheConstants.{ROW_LIMIT};
ghost use Rattle.smk_keys.specs.Classes.{classing_of};

use smk_keys::Classes;
use std::alloc::{AllocError, Global};

/// The classes of numbers, found by a table with a place for each number. What the table holds doesn't matter, since it is believed only where it names a class of the number: so one table serves for many lists of numbers, and is never cleared.
pub(crate) fn number_classes(
    alloc: Global,
    numbers: &[u32],
    table: &mut [u32],
) -> Result<Classes, AllocError>
    requires few { length numbers.now ≤ ROW_LIMIT }
    requires below { All (λ number. number < length table.old) numbers.now }
    ensures classes { IfOk result (λ made. made ≡ classing_of nat_eq numbers.now) }
    ensures long { length table.new ≡ length table.old }
{
    let mut of = Vec::with_capacity(alloc, numbers.len())?;
    let mut firsts = Vec::new(alloc);
    for i in 0..numbers.len() {
        let number = numbers[i];
        let known = table[number as usize];
        if is_class(numbers, firsts.as_slice(), known, number) {
            of.push_reserved(known);
        } else {
            let class = firsts.len() as u32;
            firsts.push(i as u32)?;
            table[number as usize] = class;
            of.push_reserved(class);
        }
    }
    Ok(Classes::of_parts(of, firsts))
}

// Whether a class, the first of whose numbers are at these places, is that of a number.
fn is_class(numbers: &[u32], firsts: &[u32], class: u32, number: u32) -> bool
    requires { All (λ first. first < length numbers.now) firsts.now }
    ensures inside { OnTrue result (class < length firsts.now) }
    ensures same { OnTrue result (slice_index numbers.now (slice_index firsts.now class) ≡ number) }
    ensures found { class < length firsts.now → slice_index numbers.now (slice_index firsts.now class) ≡ number → result ≡ true }
{
    let place = class as usize;
    place < firsts.len() && numbers[firsts[place] as usize] == number
}
