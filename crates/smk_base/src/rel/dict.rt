ghost use Rattle.std.specs.Prelude.{◌≡◌, ◌<◌, ◌≤◌, ◌∷◌, ◌++◌, [], length, position, take, IfOk, IfSome, OnOk, OnErr, IsOk, slice_index_or, vec_len, vec_capacity};
ghost use Rattle.smk_base.specs.{Dicts.{AreTexts, code_in, code_or_last, text_eq, texts_of, with_text}, declared.rel.dict.TheConstants.FEW, declared.rel.TheConstants.ROW_LIMIT};

use crate::list::Text;
use crate::rel::hashed::{Hashed, are_same};
use std::alloc::{AllocError, Global};
use std::marker::Model;

/// How many texts lie in a list. So many take the least memory there, and comparing a text with each of them costs less than its hash.
const FEW: usize = 8;

// Where the texts lie: a few in a list, or more of them in a table of hashes.
#[derive(Drop)]
pub(crate) enum Held {
    Few(Vec<Vec<u8>>),
    Many(Box<Hashed>),
}

/// Different texts, each with the place of its first occurrence as its code. Contracts see the list of them, and how many more fit without memory.
#[derive(Drop)]
pub struct Dict {
    held: Held,
    // The seed of the hashes by which many texts are found.
    seed: u64,
}

impl Model for Dict {
    ghost use Rattle.smk_base.specs.{Dicts.{DictImage, IsDict}, HeldTexts.dict_held};

    ghost Value = { DictImage };

    ghost view = { λ a. dict_held a.held };

    ghost invariant = { λ a. IsDict (dict_held a.held) };
}

impl Dict {
    /// No text, of which many are found by the hashes of a seed. It takes no memory.
    pub fn new(alloc: Global, seed: u64) -> Dict
        ensures { result.texts ≡ [] }
    {
        Dict {
            held: Held::Few(Vec::new(alloc)),
            seed,
        }
    }

    /// The seed.
    pub fn seed(&self) -> u64 {
        self.seed
    }

    /// How many texts there are.
    pub fn len(&self) -> u32
        ensures count { result ≡ length self.now.texts }
        ensures distinct { AreTexts self.now.texts }
        ensures few { length self.now.texts ≤ ROW_LIMIT }
    {
        match &self.held {
            Held::Few(list) => list.len() as u32,
            Held::Many(hashed) => hashed.len(),
        }
    }

    /// The text with this code.
    pub fn text(&self, i: u32) -> &[u8]
        requires { i < length self.now.texts }
        ensures { result.now ≡ slice_index_or self.now.texts i [] }
    {
        match &self.held {
            Held::Few(list) => list[i as usize].as_slice(),
            Held::Many(hashed) => hashed.text(i),
        }
    }

    /// The code of a text, None exactly where it isn't there.
    pub fn code_of(&self, text: &Text) -> Option<u32>
        ensures { result ≡ code_in self.now.texts text.now }
    {
        self.code_of_bytes(text.as_slice())
    }

    /// The code of a text, None exactly where it isn't there.
    pub fn code_of_bytes(&self, text: &[u8]) -> Option<u32>
        ensures { result ≡ code_in self.now.texts text.now }
    {
        match &self.held {
            Held::Few(list) => place_of(list.as_slice(), text),
            Held::Many(hashed) => hashed.code_of_bytes(text),
        }
    }

    /// The code of a text that is found without its hash, if it is.
    #[inline(always)]
    pub(crate) fn code_without_hash(&self, text: &[u8]) -> Option<u32>
        ensures { IfSome result (λ code. code_in self.now.texts text.now ≡ Some code) }
    {
        match &self.held {
            Held::Few(list) => place_of(list.as_slice(), text),
            Held::Many(hashed) => hashed.seated(text),
        }
    }

    /// Makes room for one more text, so that the next add needs no memory.
    pub fn reserve(&mut self) -> Result<(), AllocError>
        ensures same { self.new.texts ≡ self.old.texts }
        ensures room { OnOk result (0 < self.new.room) }
    {
        match &mut self.held {
            Held::Few(list) if list.len() < FEW => list.reserve(1),
            Held::Few(list) => {
                let mut hashed = hashed_from(list.as_slice(), *list.allocator(), self.seed)?;
                hashed.reserve()?;
                self.held = Held::Many(hashed);
                Ok(())
            }
            Held::Many(hashed) => hashed.reserve(),
        }
    }

    /// The code of a text, which goes last where it isn't there. After an error the texts are as before, and there is none where there was room.
    pub fn add(&mut self, text: Text) -> Result<u32, AllocError>
        requires { length self.old.texts < ROW_LIMIT }
        ensures code { IfOk result (λ code. code ≡ code_or_last self.old.texts text) }
        ensures texts { OnOk result (self.new.texts ≡ with_text self.old.texts text) }
        ensures kept { OnErr result (self.new.texts ≡ self.old.texts) }
        ensures succeeds { 0 < self.old.room → IsOk result }
    {
        match &mut self.held {
            Held::Few(list) => match place_of(list.as_slice(), text.as_slice()) {
                Some(code) => Ok(code),
                None if list.len() < FEW => {
                    list.reserve(1)?;
                    list.push_reserved(text.into_vec());
                    Ok(list.len() as u32 - 1)
                }
                None => {
                    let mut hashed = hashed_from(list.as_slice(), *list.allocator(), self.seed)?;
                    let code = hashed.add(text)?;
                    self.held = Held::Many(hashed);
                    Ok(code)
                }
            },
            Held::Many(hashed) => hashed.add(text),
        }
    }

    /// The code of a text, which goes last where it isn't there. It takes memory for a new text, and once to find texts faster. After an error the texts are as before.
    pub fn add_bytes(&mut self, text: &[u8]) -> Result<u32, AllocError>
        requires { length self.old.texts < ROW_LIMIT }
        ensures code { IfOk result (λ code. code ≡ code_or_last self.old.texts text.now) }
        ensures texts { OnOk result (self.new.texts ≡ with_text self.old.texts text.now) }
        ensures kept { OnErr result (self.new.texts ≡ self.old.texts) }
    {
        match &mut self.held {
            Held::Few(list) => match place_of(list.as_slice(), text) {
                Some(code) => Ok(code),
                None => {
                    let alloc = *list.allocator();
                    self.add(Text::from_vec(Vec::from_slice(alloc, text)?))
                }
            },
            Held::Many(hashed) => hashed.add_bytes(text),
        }
    }

    /// A copy with the same texts.
    pub fn copy(&self, alloc: Global) -> Result<Dict, AllocError>
        ensures { IfOk result (λ copy. copy.texts ≡ self.now.texts) }
    {
        match &self.held {
            Held::Few(list) => Ok(Dict {
                held: Held::Few(list.clone()?),
                seed: self.seed,
            }),
            Held::Many(hashed) => Ok(Dict {
                held: Held::Many(Box::new(alloc, hashed.copy(alloc)?)?),
                seed: self.seed,
            }),
        }
    }

    /// Keeps the first texts.
    pub fn truncate(&mut self, len: u32)
        ensures { self.new.texts ≡ take len self.old.texts }
    {
        match &mut self.held {
            Held::Few(list) => list.truncate(len as usize),
            Held::Many(hashed) => hashed.truncate(len),
        }
    }
}

// The place of a text among these.
fn place_among(list: &[Vec<u8>], text: &[u8]) -> Option<usize>
    ensures place { result ≡ position (λ known. text_eq text.now known.items) list.now }
    ensures within { IfSome result (λ place. place < length list.now) }
{
    list.iter()
        .position(|known| are_same(text, known.as_slice()))
}

// The code of a text of a list.
fn place_of(list: &[Vec<u8>], text: &[u8]) -> Option<u32>
    requires { length list.now ≤ ROW_LIMIT }
    ensures { result ≡ code_in (texts_of list.now) text.now }
{
    match place_among(list, text) {
        Some(place) => Some(place as u32),
        None => None,
    }
}

// Copies of the texts of a list, in a table of hashes.
fn hashed_from(list: &[Vec<u8>], alloc: Global, seed: u64) -> Result<Box<Hashed>, AllocError>
    requires different { AreTexts (texts_of list.now) }
    requires few { length list.now ≤ ROW_LIMIT }
    ensures { IfOk result (λ hashed. hashed.value.texts ≡ texts_of list.now) }
{
    Ok(Box::new(alloc, Hashed::of_texts(alloc, seed, list)?)?)
}
