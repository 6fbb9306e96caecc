ghost use Rattle.std.specs.{Prelude.{◌≡◌, ◌<◌, ◌≤◌, ◌+◌, ◌*◌, [], length, take, Some, IfOk, IfSome, OnOk, OnErr, IsOk, slice_index_or}, Cmp.Lexicographic.{bytes_decides, nat_list_eq_equiv}, Cmp.{on_equiv, partial_equiv_from_equiv}};
ghost use Rattle.std.proofs.Common.{ap};
ghost use Rattle.std.specs.Hash as fed;
ghost use Rattle.smk_base.specs.{Dicts.{AreTexts, IsDict, code_in, code_or_last, text_eq, texts_of, with_text}, declared.rel.TheConstants.ROW_LIMIT};

use crate::list::Text;
use crate::seeded::Seeded;
use indexmap::{Equivalent, IndexSet};
use smallvec::SmallVec;
use std::alloc::{AllocError, Global};
use std::hash::{Hash, Hasher};
use std::marker::Model;

// How many seats a dictionary has for texts that are found without their hash, once it has seats.
const SEATS: usize = 1024;

// How many texts are found by their hash before seats are worth their memory.
const FOUND_WITHOUT_SEATS: u32 = 64;

// How many bytes a text has at most that lies beside the others, and not by itself.
const SHORT: usize = 16;

// A text as it is kept: a short one takes no memory of its own.
type Kept = SmallVec<u8, SHORT>;

// A text that is looked for.
#[derive(Clone, Copy)]
struct Sought<'a> {
    text: &'a [u8],
}

impl PartialEq for Sought<'_> {
    ghost eq = { λ a b. text_eq a.text.now b.text.now };

    ghost laws = { partial_equiv_from_equiv (on_equiv (λ v. v.text.now) nat_list_eq_equiv) };

    fn eq(&self, other: &Self) -> bool {
        self.text == other.text
    }
}

impl Eq for Sought<'_> {
    ghost laws = { on_equiv (λ v. v.text.now) nat_list_eq_equiv };
}

impl Hash for Sought<'_> {
    ghost hash_input = { λ v. fed.slice fed.u8 v.text.now };

    ghost respects_eq = { λ v w same. ap (fed.slice fed.u8) ((bytes_decides v.text.now w.text.now).0 same) };

    fn hash<H: Hasher>(&self, state: &mut H) {
        self.text.hash(state);
    }
}

impl Equivalent<Kept> for Sought<'_> {
    ghost equivalent = { λ q k. text_eq q.text.now k.items };

    ghost respects_hash = { λ q k same. ap (fed.slice fed.u8) ((bytes_decides q.text.now k.items).0 same) };

    ghost respects_eq = { λ q x y. nat_list_eq_equiv.congr q.text.now x.items y.items };

    fn equivalent(&self, key: &Kept) -> bool {
        self.text == key.as_slice()
    }
}

/// Different texts that are found by their hashes, each with its place as its code. Contracts see the list of them, and how many more fit without memory.
#[derive(Drop)]
pub(crate) struct Hashed {
    texts: IndexSet<Kept, Seeded>,
    // A code at the seat of its text, or any other number: who reads one compares the text.
    seats: Vec<u32>,
    // How many texts were found by their hash before there were seats.
    found: u32,
}

impl Model for Hashed {
    ghost use Rattle.indexmap.specs.IndexSet.{spare};
    ghost use Rattle.smk_base.specs.Dicts.{DictImage, IsDict, kept_texts};

    ghost Value = { DictImage };

    ghost view = { λ a. record { texts = kept_texts a.texts.keys; room = spare a.texts } };

    ghost invariant = { λ a. IsDict (record { texts = kept_texts a.texts.keys; room = spare a.texts }) };
}

impl Hashed {
    /// No text, of which more are found by the hashes of a seed. It takes no memory.
    pub fn new(alloc: Global, seed: u64) -> Hashed
        ensures { result.texts ≡ [] }
    {
        Hashed {
            texts: IndexSet::with_hasher(alloc, Seeded::new(seed)),
            seats: Vec::new(alloc),
            found: 0,
        }
    }

    /// These texts.
    pub fn of_texts(alloc: Global, seed: u64, texts: &[Vec<u8>]) -> Result<Hashed, AllocError>
        requires different { AreTexts (texts_of texts.now) }
        requires few { length texts.now ≤ ROW_LIMIT }
        ensures { IfOk result (λ made. made.texts ≡ texts_of texts.now) }
    {
        let mut made = Hashed::new(alloc, seed);
        for text in texts {
            made.add_bytes(text.as_slice())?;
        }
        Ok(made)
    }

    /// How many texts there are.
    pub fn len(&self) -> u32
        ensures count { result ≡ length self.now.texts }
        ensures distinct { AreTexts self.now.texts }
        ensures few { length self.now.texts ≤ ROW_LIMIT }
    {
        self.texts.len() as u32
    }

    /// The text with this code.
    pub fn text(&self, i: u32) -> &[u8]
        requires { i < length self.now.texts }
        ensures { result.now ≡ slice_index_or self.now.texts i [] }
    {
        self.texts[i as usize].as_slice()
    }

    /// The code of a text, None exactly where it isn't there.
    pub fn code_of_bytes(&self, text: &[u8]) -> Option<u32>
        ensures { result ≡ code_in self.now.texts text.now }
    {
        match self.seated(text) {
            Some(code) => Some(code),
            None => self.searched(text),
        }
    }

    // The code of a text by its hash.
    fn searched(&self, text: &[u8]) -> Option<u32>
        ensures { result ≡ code_in self.now.texts text.now }
    {
        match self.texts.get_index_of(Sought { text }) {
            Some(place) => Some(place as u32),
            None => None,
        }
    }

    /// The code at the seat of a text, if it is the text's.
    #[inline(always)]
    pub fn seated(&self, text: &[u8]) -> Option<u32>
        ensures { IfSome result (λ code. code_in self.now.texts text.now ≡ Some code) }
    {
        let code = *self.seats.get(seat_of(text))?;
        if code < self.len() && are_same(self.text(code), text) {
            Some(code)
        } else {
            None
        }
    }

    /// Makes room for one more text, so that the next add needs no memory.
    pub fn reserve(&mut self) -> Result<(), AllocError>
        ensures same { self.new.texts ≡ self.old.texts }
        ensures room { OnOk result (0 < self.new.room) }
    {
        self.texts.reserve(1)
    }

    /// The code of a text, which goes last where it isn't there. After an error the texts are as before, and there is none where there was room.
    pub fn add(&mut self, text: Text) -> Result<u32, AllocError>
        requires { length self.old.texts < ROW_LIMIT }
        ensures code { IfOk result (λ code. code ≡ code_or_last self.old.texts text) }
        ensures texts { OnOk result (self.new.texts ≡ with_text self.old.texts text) }
        ensures kept { OnErr result (self.new.texts ≡ self.old.texts) }
        ensures succeeds { 0 < self.old.room → IsOk result }
        ensures keeps { IsDict self.new }
    {
        if text.as_slice().len() > SHORT {
            return self.put(Kept::from(text.into_vec()));
        }
        let alloc = *self.texts.allocator();
        let kept = Kept::from_slice(alloc, text.as_slice())?;
        self.put(kept)
    }

    // The code of a text that was made to be kept, which goes last where it isn't there.
    fn put(&mut self, text: Kept) -> Result<u32, AllocError>
        requires { length self.old.texts < ROW_LIMIT }
        ensures code { IfOk result (λ code. code ≡ code_or_last self.old.texts text.items) }
        ensures texts { OnOk result (self.new.texts ≡ with_text self.old.texts text.items) }
        ensures kept { OnErr result (self.new.texts ≡ self.old.texts) }
        ensures succeeds { 0 < self.old.room → IsOk result }
        ensures keeps { IsDict self.new }
    {
        let (code, _) = self.texts.insert_full(text)?;
        Ok(code as u32)
    }

    /// The code of a text, which goes last where it isn't there. It takes memory for a new text, and once to find texts faster. After an error the texts are as before.
    pub fn add_bytes(&mut self, text: &[u8]) -> Result<u32, AllocError>
        requires { length self.old.texts < ROW_LIMIT }
        ensures code { IfOk result (λ code. code ≡ code_or_last self.old.texts text.now) }
        ensures texts { OnOk result (self.new.texts ≡ with_text self.old.texts text.now) }
        ensures kept { OnErr result (self.new.texts ≡ self.old.texts) }
        ensures keeps { IsDict self.new }
    {
        let known = self.len();
        if let Some(code) = self.seated(text) {
            return Ok(code);
        }
        let code = self.add_unseated(text)?;
        if code < known {
            put_seat(&mut self.seats, &mut self.found, text, code);
        }
        Ok(code)
    }

    // Adds a text by its hash: a short one is hashed once, and a long one that is known takes no memory.
    fn add_unseated(&mut self, text: &[u8]) -> Result<u32, AllocError>
        requires { length self.old.texts < ROW_LIMIT }
        ensures code { IfOk result (λ code. code ≡ code_or_last self.old.texts text.now) }
        ensures texts { OnOk result (self.new.texts ≡ with_text self.old.texts text.now) }
        ensures kept { OnErr result (self.new.texts ≡ self.old.texts) }
        ensures keeps { IsDict self.new }
    {
        if text.len() > SHORT {
            if let Some(code) = self.searched(text) {
                return Ok(code);
            }
        }
        let alloc = *self.texts.allocator();
        let kept = Kept::from_slice(alloc, text)?;
        self.put(kept)
    }

    /// A copy with the same texts.
    pub fn copy(&self, alloc: Global) -> Result<Hashed, AllocError>
        ensures texts { IfOk result (λ copy. copy.texts ≡ self.now.texts) }
        ensures keeps { IfOk result IsDict }
    {
        Ok(Hashed {
            texts: self.texts.clone()?,
            seats: Vec::from_slice(alloc, self.seats.as_slice())?,
            found: self.found,
        })
    }

    /// Keeps the first texts.
    pub fn truncate(&mut self, len: u32)
        ensures texts { self.new.texts ≡ take len self.old.texts }
        ensures keeps { IsDict self.new }
    {
        self.texts.truncate(len as usize);
    }
}

/// Whether texts are the same. Short ones are compared byte by byte, for which a call costs more.
#[inline(always)]
pub(crate) fn are_same(a: &[u8], b: &[u8]) -> bool
    ensures { result ≡ text_eq a.now b.now }
{
    if a.len() != b.len() {
        return false;
    }
    if a.len() > 8 {
        return are_same_long(a, b);
    }
    for i in 0..a.len() {
        if a[i] != b[i] {
            return false;
        }
    }
    true
}

// Whether two texts of more than 16 bytes are equal.
#[inline(never)]
fn are_same_long(a: &[u8], b: &[u8]) -> bool
    ensures { result ≡ text_eq a.now b.now }
{
    a == b
}

// The seat of a text, by its last bytes, in which short texts differ most.
#[inline(always)]
fn seat_of(text: &[u8]) -> usize
    ensures { result < SEATS }
{
    match text {
        [.., first, last] => (usize::from(*first) * 37 + usize::from(*last)) % SEATS,
        [last] => usize::from(*last),
        [] => 0,
    }
}

// Puts a code at the seat of its text, once seats are worth their memory and if there is memory for them.
fn put_seat(seats: &mut Vec<u32>, found: &mut u32, text: &[u8], code: u32) {
    if *found < FOUND_WITHOUT_SEATS {
        *found += 1;
        return;
    }
    if seats.is_empty() {
        let _made = seats.resize(SEATS, 0);
    }
    if let Some(place) = seats.get_mut(seat_of(text)) {
        *place = code;
    }
}
