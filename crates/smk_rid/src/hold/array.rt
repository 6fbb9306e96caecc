ghost use Rattle.std.specs.{Prelude.{◌≡◌, ◌<◌, ◌≤◌, ◌↔◌, ◌+◌, ◌∷◌, ◌++◌, ℕ, [], length, map, nat_lt, take, slice_index_or, IfOk, IsTrue, OnOk, vec_capacity, vec_len}, List.{All, AllPairs, filter, flat_map, list_any}};
ghost use Rattle.std.proofs.Math.ListN.{replicate};
ghost use Rattle.smk_base.specs.Places.{has, pairs_of, upto};
ghost use Rattle.smk_rid.specs.{Forms.lists_in, Maps.IsSingle, Packing.one_of};

use crate::hold::code::{
    are_own, count_before, keep_at, number_at, put_at, put_numbers, put_rising,
};
use crate::hold::narrow::Narrow;
use crate::map::PAIR_LIMIT;
use std::alloc::{AllocError, Global};
use std::marker::Model;

// Stands for no rid: rids are below a bound of type u32, so none is this number.
pub const NONE: u32 = 4_294_967_295;

/// Lists of at most one rid, of one, two or four bytes each, or so many empty ones, which take no memory. Contracts see the lists.
#[derive(Drop)]
pub struct RidArray {
    form: Form,
}

// How the lists are held: as their number, where all are empty, or by a code each.
#[derive(Drop)]
enum Form {
    Empty(usize),
    Bytes(Narrow<u8>),
    Halves(Narrow<u16>),
    Words(Vec<u32>),
}

impl Model for RidArray {
    ghost use Rattle.std.specs.Prelude.{List, ℕ};

    ghost Value = { List (List ℕ) };

    ghost use Rattle.smk_rid.specs.Forms.{lists_in};

    ghost view = { λ a. lists_in a.form };
}

impl RidArray {
    /// The lists that these numbers stand for.
    pub fn of(rids: Vec<u32>) -> RidArray
        ensures { result ≡ map one_of rids.items }
    {
        RidArray {
            form: Form::Words(rids),
        }
    }

    /// So many empty lists.
    pub fn of_none(len: usize) -> RidArray
        ensures { result ≡ replicate len [] }
    {
        RidArray {
            form: Form::Empty(len),
        }
    }

    /// These lists, in fewer bytes each if rids below this bound allow it and the numbers below the bound take less than that saves.
    pub fn narrowed(self, alloc: Global, bound: u32) -> Result<RidArray, AllocError>
        requires { All (All (λ rid. rid < bound)) self }
        ensures { IfOk result (λ made. made ≡ self) }
    {
        let form = match self.form {
            Form::Words(rids) => narrowed(alloc, rids, bound)?,
            form => form,
        };
        Ok(RidArray { form })
    }

    /// A copy.
    pub fn copy(&self, alloc: Global) -> Result<RidArray, AllocError>
        ensures { IfOk result (λ copy. copy ≡ self.now) }
    {
        let form = match &self.form {
            Form::Empty(len) => Form::Empty(*len),
            Form::Bytes(lists) => Form::Bytes(lists.copy(alloc)?),
            Form::Halves(lists) => Form::Halves(lists.copy(alloc)?),
            Form::Words(rids) => Form::Words(Vec::from_slice(alloc, rids.as_slice())?),
        };
        Ok(RidArray { form })
    }

    /// How many lists there are.
    pub fn len(&self) -> usize
        ensures { result ≡ length self.now }
    {
        match &self.form {
            Form::Empty(len) => *len,
            Form::Bytes(lists) => lists.codes().len(),
            Form::Halves(lists) => lists.codes().len(),
            Form::Words(rids) => rids.len(),
        }
    }

    /// The rids of a list.
    pub fn at(&self, i: usize) -> &[u32]
        requires { i < length self.now }
        ensures { result.now ≡ slice_index_or self.now i [] }
    {
        match &self.form {
            Form::Empty(_) => &[],
            Form::Bytes(lists) => lists.at(i),
            Form::Halves(lists) => lists.at(i),
            Form::Words(rids) => part_at(rids.as_slice(), i),
        }
    }

    /// The number that stands for a list: its rid, or NONE.
    pub fn number(&self, i: usize) -> u32
        requires { i < length self.now }
        ensures { one_of result ≡ slice_index_or self.now i [] }
    {
        match &self.form {
            Form::Empty(_) => NONE,
            Form::Bytes(lists) => number_at(lists.codes(), i),
            Form::Halves(lists) => number_at(lists.codes(), i),
            Form::Words(rids) => number_at(rids.as_slice(), i),
        }
    }

    /// Whether each list has its own place alone.
    pub fn has_own(&self) -> bool
        requires { length self.now < 4294967296 }
        ensures { IsTrue result ↔ (self.now ≡ map (λ i. i ∷ []) (upto (length self.now))) }
    {
        match &self.form {
            Form::Empty(len) => *len == 0,
            Form::Bytes(lists) => are_own(lists.codes()),
            Form::Halves(lists) => are_own(lists.codes()),
            Form::Words(rids) => are_own(rids.as_slice()),
        }
    }

    /// Appends the numbers that stand for the lists.
    pub fn put_numbers(&self, numbers: &mut Vec<u32>) -> Result<(), AllocError>
        ensures numbers { OnOk result (map one_of numbers.new.items ≡ map one_of numbers.old.items ++ self.now) }
        ensures room { vec_capacity numbers.old ≤ vec_capacity numbers.new }
    {
        match &self.form {
            Form::Empty(len) => put_none(*len, numbers),
            Form::Bytes(lists) => put_numbers(lists.codes(), numbers),
            Form::Halves(lists) => put_numbers(lists.codes(), numbers),
            Form::Words(rids) => {
                numbers.extend_from_slice(rids.as_slice())?;
                Ok(())
            }
        }
    }

    /// Appends the rids of the lists at these places. There is room for them.
    pub fn put_at(&self, rids: &mut Vec<u32>, places: &[u32])
        requires within { All (λ p. p < length self.now) places.now }
        requires room { vec_len rids.old + length places.now ≤ vec_capacity rids.old }
        ensures { rids.new.items ≡ rids.old.items ++ flat_map (λ p. slice_index_or self.now p []) places.now }
    {
        match &self.form {
            Form::Empty(_) => (),
            Form::Bytes(lists) => put_at(lists.codes(), rids, places),
            Form::Halves(lists) => put_at(lists.codes(), rids, places),
            Form::Words(numbers) => put_at(numbers.as_slice(), rids, places),
        }
    }

    /// Puts the rids of the lists at these places into an empty Vec, but none that equals the last one there. It tells whether they rise.
    pub fn put_rising(&self, rids: &mut Vec<u32>, places: &[u32]) -> bool
        requires none { rids.old.items ≡ [] }
        requires within { All (λ p. p < length self.now) places.now }
        requires room { length places.now ≤ vec_capacity rids.old }
        ensures same { (r : ℕ) → has rids.new.items r ≡ list_any (λ p. has (slice_index_or self.now p []) r) places.now }
        ensures rising { IsTrue result → AllPairs (λ x y. x < y) rids.new.items }
    {
        match &self.form {
            Form::Empty(_) => true,
            Form::Bytes(lists) => put_rising(lists.codes(), rids, places),
            Form::Halves(lists) => put_rising(lists.codes(), rids, places),
            Form::Words(numbers) => put_rising(numbers.as_slice(), rids, places),
        }
    }

    /// Appends those of these places whose lists aren't empty. There is room for them.
    pub fn keep_at(&self, kept: &mut Vec<u32>, places: &[u32])
        requires within { All (λ p. p < length self.now) places.now }
        requires room { vec_len kept.old + length places.now ≤ vec_capacity kept.old }
        ensures { kept.new.items ≡ kept.old.items ++ filter (λ p. nat_lt 0 (length (slice_index_or self.now p []))) places.now }
    {
        match &self.form {
            Form::Empty(_) => (),
            Form::Bytes(lists) => keep_at(lists.codes(), kept, places),
            Form::Halves(lists) => keep_at(lists.codes(), kept, places),
            Form::Words(numbers) => keep_at(numbers.as_slice(), kept, places),
        }
    }

    /// How many rids the lists before i have, where no list is empty: one each.
    pub fn start_of_full(&self, i: u32) -> u32
        requires in_range { i ≤ length self.now }
        requires single { IsSingle self.now }
        requires full { pairs_of self.now ≡ length self.now }
        ensures { result ≡ pairs_of (take i self.now) }
    {
        i
    }

    /// How many rids the lists before i have, by a count.
    pub fn start(&self, i: u32) -> u32
        requires in_range { i ≤ length self.now }
        requires few { pairs_of self.now ≤ PAIR_LIMIT }
        ensures { result ≡ pairs_of (take i self.now) }
    {
        match &self.form {
            Form::Empty(_) => 0,
            Form::Bytes(lists) => count_before(lists.codes(), i as usize),
            Form::Halves(lists) => count_before(lists.codes(), i as usize),
            Form::Words(rids) => count_before(rids.as_slice(), i as usize),
        }
    }
}

// The lists that these numbers stand for. A narrow form has the numbers below the bound beside its codes, four bytes each, so it takes less than wide ones only if there are enough lists.
fn narrowed(alloc: Global, rids: Vec<u32>, bound: u32) -> Result<Form, AllocError>
    requires { All (All (λ rid. rid < bound)) (map one_of rids.items) }
    ensures { IfOk result (λ form. lists_in form ≡ map one_of rids.items) }
{
    if bound > 65_535 || bound as usize > rids.len() / 2 {
        Ok(Form::Words(rids))
    } else if bound > 255 {
        Ok(Form::Halves(Narrow::of(alloc, rids.as_slice(), bound)?))
    } else {
        Ok(Form::Bytes(Narrow::of(alloc, rids.as_slice(), bound)?))
    }
}

// The part of the numbers that stands for a list.
fn part_at(rids: &[u32], i: usize) -> &[u32]
    requires { i < length rids.now }
    ensures { result.now ≡ slice_index_or (map one_of rids.now) i [] }
{
    let end = if rids[i] == NONE { i } else { i + 1 };
    &rids[i..end]
}

// Appends NONE so many times.
fn put_none(len: usize, numbers: &mut Vec<u32>) -> Result<(), AllocError>
    ensures numbers { OnOk result (map one_of numbers.new.items ≡ map one_of numbers.old.items ++ replicate len []) }
    ensures room { vec_capacity numbers.old ≤ vec_capacity numbers.new }
{
    numbers.reserve(len)?;
    numbers.resize(numbers.len() + len, NONE)?;
    Ok(())
}
