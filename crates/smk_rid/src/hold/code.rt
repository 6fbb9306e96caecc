ghost use Rattle.std.specs.{Prelude.{◌≡◌, ◌<◌, ◌≤◌, ◌↔◌, ◌+◌, ◌∷◌, ◌++◌, ℕ, [], if◌then◌else◌, ◌==◌, length, map, nat_lt, slice_index_or, take, vec_capacity, vec_len, IsTrue, OnOk}, List.{All, AllPairs, filter, flat_map, list_any}};
ghost use Rattle.smk_base.specs.Places.{has, pairs_of, upto};
ghost use Rattle.smk_rid.specs.Packing.{one_of};

use crate::hold::array::NONE;
use crate::map::PAIR_LIMIT;
use std::alloc::AllocError;

/// What stands for a rid or for none, in as few bytes as the rids need: the greatest number stands for none.
pub trait Code: Copy + Drop {
    /// The rid, or NONE.
    ghost number_of: { Self → ℕ };

    /// What the rids are below.
    ghost limit: { ℕ };

    /// The rid, or NONE.
    fn number(self) -> u32
        ensures { result ≡ number_of self };

    /// What stands for a rid below the limit, or for NONE.
    fn of(number: u32) -> Self
        requires { All (λ rid. rid < limit) (one_of number) }
        ensures { number_of result ≡ number };
}

impl Code for u8 {
    ghost use Rattle.smk_rid.specs.declared.hold.array.TheConstants.{NONE};

    ghost number_of = { λ code. if code == 255 then NONE else code };

    ghost limit = { 255 };

    fn number(self) -> u32 {
        if self == 255 { NONE } else { u32::from(self) }
    }

    fn of(number: u32) -> u8 {
        if number == NONE { 255 } else { number as u8 }
    }
}

impl Code for u16 {
    ghost use Rattle.smk_rid.specs.declared.hold.array.TheConstants.{NONE};

    ghost number_of = { λ code. if code == 65535 then NONE else code };

    ghost limit = { 65535 };

    fn number(self) -> u32 {
        if self == 65_535 {
            NONE
        } else {
            u32::from(self)
        }
    }

    fn of(number: u32) -> u16 {
        if number == NONE {
            65_535
        } else {
            number as u16
        }
    }
}

impl Code for u32 {
    ghost use Rattle.smk_rid.specs.declared.hold.array.TheConstants.{NONE};

    ghost number_of = { λ code. code };

    ghost limit = { NONE };

    fn number(self) -> u32 {
        self
    }

    fn of(number: u32) -> u32 {
        number
    }
}

/// Appends the numbers of codes.
pub fn put_numbers<C: Code>(codes: &[C], numbers: &mut Vec<u32>) -> Result<(), AllocError>
    ensures numbers { OnOk result (numbers.new.items ≡ numbers.old.items ++ map C.number_of codes.now) }
    ensures room { vec_capacity numbers.old ≤ vec_capacity numbers.new }
{
    numbers.reserve(codes.len())?;
    for code in codes {
        numbers.push_reserved(code.number());
    }
    Ok(())
}

/// The number of a code.
pub fn number_at<C: Code>(codes: &[C], i: usize) -> u32
    requires { i < length codes.now }
    ensures { one_of result ≡ slice_index_or (map one_of (map C.number_of codes.now)) i [] }
{
    codes[i].number()
}

/// How many of the codes before i stand for a rid.
pub fn count_before<C: Code>(codes: &[C], i: usize) -> u32
    requires in_range { i ≤ length codes.now }
    requires few { pairs_of (map one_of (map C.number_of codes.now)) ≤ PAIR_LIMIT }
    ensures { result ≡ pairs_of (take i (map one_of (map C.number_of codes.now))) }
{
    let mut count = 0;
    for k in 0..i {
        if codes[k].number() != NONE {
            count += 1;
        }
    }
    count
}

/// Appends the rids of the codes at these places. There is room for them.
pub fn put_at<C: Code>(codes: &[C], rids: &mut Vec<u32>, places: &[u32])
    requires within { All (λ p. p < length codes.now) places.now }
    requires room { vec_len rids.old + length places.now ≤ vec_capacity rids.old }
    ensures { rids.new.items ≡ rids.old.items ++ flat_map (λ p. slice_index_or (map one_of (map C.number_of codes.now)) p []) places.now }
{
    for p in places {
        let rid = codes[*p as usize].number();
        if rid != NONE {
            rids.push_reserved(rid);
        }
    }
}

/// Puts the rids of the codes at these places into an empty Vec, but none that equals the last one there. It tells whether they rise.
pub fn put_rising<C: Code>(codes: &[C], rids: &mut Vec<u32>, places: &[u32]) -> bool
    requires none { rids.old.items ≡ [] }
    requires within { All (λ p. p < length codes.now) places.now }
    requires room { length places.now ≤ vec_capacity rids.old }
    ensures same { (r : ℕ) → has rids.new.items r ≡ list_any (λ p. has (slice_index_or (map one_of (map C.number_of codes.now)) p []) r) places.now }
    ensures rising { IsTrue result → AllPairs (λ x y. x < y) rids.new.items }
{
    // One more than the rid that stands last, or 0.
    let mut above = 0;
    let mut rises = true;
    for p in places {
        let rid = number_at(codes, *p as usize);
        if rid != NONE && rid + 1 != above {
            rises &= above <= rid;
            above = rid + 1;
            rids.push_reserved(rid);
        }
    }
    rises
}

/// Whether each code stands for its own place. Each is looked at, since a loop that may end early takes them one at a time.
pub fn are_own<C: Code>(codes: &[C]) -> bool
    requires { length codes.now < 4294967296 }
    ensures { let lists = map one_of (map C.number_of codes.now) in IsTrue result ↔ (lists ≡ map (λ i. i ∷ []) (upto (length lists))) }
{
    let mut own = true;
    for i in 0..codes.len() {
        own &= number_at(codes, i) == i as u32;
    }
    own
}

/// Appends those of these places whose codes stand for a rid. There is room for them.
pub fn keep_at<C: Code>(codes: &[C], kept: &mut Vec<u32>, places: &[u32])
    requires within { All (λ p. p < length codes.now) places.now }
    requires room { vec_len kept.old + length places.now ≤ vec_capacity kept.old }
    ensures { kept.new.items ≡ kept.old.items ++ filter (λ p. nat_lt 0 (length (slice_index_or (map one_of (map C.number_of codes.now)) p []))) places.now }
{
    for p in places {
        if codes[*p as usize].number() != NONE {
            kept.push_reserved(*p);
        }
    }
}
