ghost use Rattle.std.specs.{Prelude.{◌≡◌, ◌<◌, ◌≤◌, [], ◌∷◌, length, map, slice_index_or, IfOk}, List.All};
ghost use Rattle.smk_base.specs.Places.{upto};
ghost use Rattle.smk_rid.specs.Packing.{one_of};

use crate::hold::array::NONE;
use crate::hold::code::{Code, number_at};
use smk_base::numbers_below;
use std::alloc::{AllocError, Global};
use std::marker::Model;

/// Lists of at most one rid, a code each, with the numbers below their bound. Contracts see the lists.
#[derive(Drop)]
pub struct Narrow<C: Code> {
    codes: Vec<C>,
    numbers: Vec<u32>,
}

impl<C: Code> Model for Narrow<C> {
    ghost use Rattle.std.specs.{Prelude.{◌≡◌, ◌<◌, List, ℕ, length, map}, List.All};
    ghost use Rattle.smk_base.specs.Places.{upto};
    ghost use Rattle.smk_rid.specs.Packing.{one_of};

    ghost Value = { List (List ℕ) };

    ghost view = { λ a. map one_of (map C.number_of a.codes.items) };

    ghost invariant = { λ a. (a.numbers.items ≡ upto (length a.numbers.items)) × All (All (λ rid. rid < length a.numbers.items)) (map one_of (map C.number_of a.codes.items)) };
}

impl<C: Code> Narrow<C> {
    /// The lists that these numbers stand for.
    pub fn of(alloc: Global, rids: &[u32], bound: u32) -> Result<Narrow<C>, AllocError>
        requires limit { bound ≤ C.limit }
        requires below { All (All (λ rid. rid < bound)) (map one_of rids.now) }
        ensures { IfOk result (λ made. made ≡ map one_of rids.now) }
    {
        let codes = codes_of(alloc, rids)?;
        let numbers = numbers_below(alloc, bound)?;
        Ok(Narrow { codes, numbers })
    }

    /// A copy.
    pub fn copy(&self, alloc: Global) -> Result<Narrow<C>, AllocError>
        ensures { IfOk result (λ copy. copy ≡ self.now) }
    {
        let codes = Vec::from_slice(alloc, self.codes.as_slice())?;
        let numbers = Vec::from_slice(alloc, self.numbers.as_slice())?;
        Ok(Narrow { codes, numbers })
    }

    /// What stands for the lists.
    pub fn codes(&self) -> &[C]
        ensures { map one_of (map C.number_of result.now) ≡ self.now }
    {
        self.codes.as_slice()
    }

    /// The rids of a list.
    pub fn at(&self, i: usize) -> &[u32]
        requires { i < length self.now }
        ensures { result.now ≡ slice_index_or self.now i [] }
    {
        let rid = number_at(self.codes.as_slice(), i);
        if rid == NONE {
            &[]
        } else {
            alone(self.numbers.as_slice(), rid)
        }
    }
}

// The codes of these numbers.
fn codes_of<C: Code>(alloc: Global, rids: &[u32]) -> Result<Vec<C>, AllocError>
    requires { All (All (λ rid. rid < C.limit)) (map one_of rids.now) }
    ensures { IfOk result (λ codes. map C.number_of codes.items ≡ rids.now) }
{
    let mut codes = Vec::with_capacity(alloc, rids.len())?;
    for rid in rids {
        codes.push_reserved(C::of(*rid));
    }
    Ok(codes)
}

// The part of the numbers that one of them is alone.
fn alone(numbers: &[u32], rid: u32) -> &[u32]
    requires all { numbers.now ≡ upto (length numbers.now) }
    requires within { rid < length numbers.now }
    ensures { result.now ≡ rid ∷ [] }
{
    let i = rid as usize;
    &numbers[i..i + 1]
}
