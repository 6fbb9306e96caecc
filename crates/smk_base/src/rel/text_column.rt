ghost use Rattle.std.specs.Prelude.{◌≡◌, ℕ, ◌<◌, ◌≤◌, ◌+◌, [], ◌∷◌, ◌++◌, length, map, take, All, Some, IfOk, IfSome, IsSome, OnOk, OnErr, IsOk};
ghost use Rattle.smk_base.specs.{Dicts.code_or_last, NextTexts.next_text, TextColumns.{text_firsts, text_in, AreAdded, AreRecoded}};

use crate::list::Text;
use crate::rel::ROW_LIMIT;
use crate::rel::dict::Dict;
use std::alloc::{AllocError, Global};
use std::marker::Model;

// How many texts a dictionary may have for each place where its texts are recoded by an array: the array costs less than finding each text by itself.
const TEXTS_PER_PLACE: usize = 8;

/// The code of no text.
const NO_CODE: u32 = 4_294_967_295;

/// How a text goes last without memory: by its code, or as a new text of the dictionary.
#[derive(Drop)]
pub(crate) enum Next {
    Nothing,
    Known(u32),
    New(Vec<u8>),
}

/// Texts by row, each as its code in the dictionary of the column's texts. Contracts see the texts, how many more fit without memory, and how many of them may be new.
#[derive(Drop)]
pub(crate) struct TextColumn {
    codes: Vec<u32>,
    dict: Dict,
}

impl Model for TextColumn {
    ghost use Rattle.std.specs.Prelude.{length, ◌≤◌, ◌-◌, vec_len, vec_capacity};
    ghost use Rattle.smk_base.specs.TextColumns.{TextImage, AreCodes, texts_at};

    ghost Value = { TextImage };

    ghost view = { λ a. record { texts = texts_at a.dict.texts a.codes.items; room = vec_capacity a.codes - vec_len a.codes; dict_room = a.dict.room } };

    ghost invariant = { λ a. AreCodes a.dict.texts a.codes.items };
}

impl TextColumn {
    /// No row, of whose texts many are found by the hashes of a seed. It takes no memory.
    pub fn new(alloc: Global, seed: u64) -> TextColumn
        ensures { result.texts ≡ [] }
    {
        TextColumn {
            codes: Vec::new(alloc),
            dict: Dict::new(alloc, seed),
        }
    }

    /// The number of rows.
    pub fn len(&self) -> u32
        ensures count { result ≡ length self.now.texts }
        ensures few { result ≤ ROW_LIMIT }
    {
        self.codes.len() as u32
    }

    /// The text of row i.
    pub fn text(&self, i: u32) -> &[u8]
        requires { i < length self.now.texts }
        ensures { result.now ≡ text_in self.now.texts i }
    {
        self.dict.text(self.codes[i as usize])
    }

    /// The code of the text of row i.
    pub fn code(&self, i: u32) -> u32
        requires { i < length self.now.texts }
        ensures code { result ≡ code_or_last (text_firsts self.now.texts) (text_in self.now.texts i) }
        ensures within { result < length (text_firsts self.now.texts) }
        ensures text { text_in (text_firsts self.now.texts) result ≡ text_in self.now.texts i }
    {
        self.codes[i as usize]
    }

    /// The column's texts, each at its first occurrence.
    pub fn dict(&self) -> &Dict
        ensures { result.now.texts ≡ text_firsts self.now.texts }
    {
        &self.dict
    }

    /// The code of each row's text.
    pub fn codes(&self) -> &[u32]
        ensures codes { result.now ≡ map (code_or_last (text_firsts self.now.texts)) self.now.texts }
        ensures within { All (λ code. code < length (text_firsts self.now.texts)) result.now }
        ensures texts { map (text_in (text_firsts self.now.texts)) result.now ≡ self.now.texts }
    {
        self.codes.as_slice()
    }

    /// Makes the room that a text needs, and gives how it goes last.
    pub fn next(&mut self, text: &[u8]) -> Result<Next, AllocError>
        ensures same { self.new.texts ≡ self.old.texts }
        ensures room { OnOk result (0 < self.new.room) }
        ensures next { IfOk result (λ next. next_text (text_firsts self.new.texts) self.new.dict_room next ≡ Some text.now) }
    {
        self.codes.reserve(1)?;
        match self.dict.code_of_bytes(text) {
            Some(code) => Ok(Next::Known(code)),
            None => {
                self.dict.reserve()?;
                let alloc = *self.codes.allocator();
                Ok(Next::New(Vec::from_slice(alloc, text)?))
            }
        }
    }

    /// Puts the next text last.
    pub fn push_next(&mut self, next: Next)
        requires few { length self.old.texts < ROW_LIMIT }
        requires room { 0 < self.old.room }
        requires next { IsSome (next_text (text_firsts self.old.texts) self.old.dict_room next) }
        ensures { IfSome (next_text (text_firsts self.old.texts) self.old.dict_room next) (λ text. self.new.texts ≡ self.old.texts ++ text ∷ []) }
    {
        match next {
            Next::Known(code) => match self.push_code(code) {
                Ok(()) => {}
                Err(_) => unreachable!(),
            },
            Next::New(text) => match self.push(Text::from_vec(text)) {
                Ok(_) => {}
                Err(_) => unreachable!(),
            },
            Next::Nothing => unreachable!(),
        }
    }

    /// Puts a text last, and gives its code.
    pub fn push(&mut self, text: Text) -> Result<u32, AllocError>
        requires { length self.old.texts < ROW_LIMIT }
        ensures code { IfOk result (λ code. code ≡ code_or_last (text_firsts self.old.texts) text) }
        ensures pushed { OnOk result (self.new.texts ≡ self.old.texts ++ text ∷ []) }
        ensures kept { OnErr result (self.new.texts ≡ self.old.texts) }
        ensures succeeds { 0 < self.old.room → 0 < self.old.dict_room → IsOk result }
    {
        self.codes.reserve(1)?;
        let code = self.dict.add(text)?;
        self.codes.push_reserved(code);
        Ok(code)
    }

    /// Puts a text last.
    pub fn push_bytes(&mut self, text: &[u8]) -> Result<(), AllocError>
        requires { length self.old.texts < ROW_LIMIT }
        ensures pushed { OnOk result (self.new.texts ≡ self.old.texts ++ text.now ∷ []) }
        ensures kept { OnErr result (self.new.texts ≡ self.old.texts) }
    {
        match self.dict.code_without_hash(text) {
            Some(code) => self.push_code(code),
            None => self.push_hashed(text),
        }
    }

    // Puts a text last that is found by its hash, or is new.
    #[inline(never)]
    fn push_hashed(&mut self, text: &[u8]) -> Result<(), AllocError>
        requires { length self.old.texts < ROW_LIMIT }
        ensures pushed { OnOk result (self.new.texts ≡ self.old.texts ++ text.now ∷ []) }
        ensures kept { OnErr result (self.new.texts ≡ self.old.texts) }
    {
        self.codes.reserve(1)?;
        let code = self.dict.add_bytes(text)?;
        self.codes.push_reserved(code);
        Ok(())
    }

    // Puts the text with this code last.
    fn push_code(&mut self, code: u32) -> Result<(), AllocError>
        requires room { length self.old.texts < ROW_LIMIT }
        requires code { code < length (text_firsts self.old.texts) }
        ensures pushed { OnOk result (self.new.texts ≡ self.old.texts ++ text_in (text_firsts self.old.texts) code ∷ []) }
        ensures kept { OnErr result (self.new.texts ≡ self.old.texts) }
        ensures succeeds { 0 < self.old.room → IsOk result }
    {
        self.codes.push(code)?;
        Ok(())
    }

    // Puts the text that has this code in another dictionary last, and notes its code here.
    fn push_from(
        &mut self,
        alloc: Global,
        dict: &Dict,
        code: u32,
        recoded: &mut [u32],
    ) -> Result<(), AllocError>
        requires room { length self.old.texts < ROW_LIMIT }
        requires code { code < length dict.now.texts }
        requires recoded { AreRecoded dict.now.texts (text_firsts self.old.texts) recoded.old }
        ensures pushed { OnOk result (self.new.texts ≡ self.old.texts ++ text_in dict.now.texts code ∷ []) }
        ensures kept { OnErr result (self.new.texts ≡ self.old.texts) }
        ensures recoded { OnOk result (AreRecoded dict.now.texts (text_firsts self.new.texts) recoded.new) }
    {
        let known = recoded[code as usize];
        if known < NO_CODE {
            self.push_code(known)
        } else {
            let text = Text::from_vec(Vec::from_slice(alloc, dict.text(code))?);
            recoded[code as usize] = self.push(text)?;
            Ok(())
        }
    }

    /// The texts of these rows, in this order.
    pub fn gather(&self, alloc: Global, places: &[u32]) -> Result<TextColumn, AllocError>
        requires within { All (λ place. place < length self.now.texts) places.now }
        requires few { length places.now ≤ ROW_LIMIT }
        ensures { IfOk result (λ made. made.texts ≡ map (text_in self.now.texts) places.now) }
    {
        let mut made = TextColumn {
            codes: Vec::with_capacity(alloc, places.len())?,
            dict: Dict::new(alloc, self.dict.seed()),
        };
        if places.len() < self.dict.len() as usize / TEXTS_PER_PLACE {
            made.push_few_rows(self, places)?;
        } else {
            made.push_rows(alloc, self, places)?;
        }
        Ok(made)
    }

    // Puts the texts of these rows of another column last, each found by itself.
    fn push_few_rows(&mut self, other: &TextColumn, places: &[u32]) -> Result<(), AllocError>
        requires within { All (λ place. place < length other.now.texts) places.now }
        requires few { length self.old.texts + length places.now ≤ ROW_LIMIT }
        ensures { OnOk result (self.new.texts ≡ self.old.texts ++ map (text_in other.now.texts) places.now) }
    {
        for place in places {
            self.push_bytes(other.text(*place))?;
        }
        Ok(())
    }

    // Puts the texts of these rows of another column last, where each text of its dictionary is found once.
    fn push_rows(
        &mut self,
        alloc: Global,
        other: &TextColumn,
        places: &[u32],
    ) -> Result<(), AllocError>
        requires within { All (λ place. place < length other.now.texts) places.now }
        requires few { length self.old.texts + length places.now ≤ ROW_LIMIT }
        ensures { OnOk result (self.new.texts ≡ self.old.texts ++ map (text_in other.now.texts) places.now) }
    {
        let mut recoded = vec![in alloc; NO_CODE; other.dict.len() as usize]?;
        for place in places {
            let code = other.codes[*place as usize];
            self.push_from(alloc, &other.dict, code, recoded.as_mut_slice())?;
        }
        Ok(())
    }

    /// Puts the texts of another column last. After an error the texts are as before.
    pub fn append(&mut self, alloc: Global, other: &TextColumn) -> Result<(), AllocError>
        requires { length self.old.texts + length other.now.texts ≤ ROW_LIMIT }
        ensures appended { OnOk result (self.new.texts ≡ self.old.texts ++ other.now.texts) }
        ensures kept { OnErr result (self.new.texts ≡ self.old.texts) }
    {
        self.codes.reserve(other.codes.len())?;
        let recoded = recoded_whole(alloc, &mut self.dict, &other.dict)?;
        for code in &other.codes {
            self.codes.push_reserved(recoded[*code as usize]);
        }
        Ok(())
    }

    /// Keeps the first rows.
    pub fn truncate(&mut self, len: u32)
        ensures { self.new.texts ≡ take len self.old.texts }
    {
        if len < self.len() {
            let used = self.used(len);
            self.codes.truncate(len as usize);
            self.dict.truncate(used);
        }
    }

    // How many texts of the dictionary the first rows have.
    fn used(&self, len: u32) -> u32
        requires within { len ≤ length self.now.texts }
        requires few { length self.now.texts ≤ ROW_LIMIT }
        ensures firsts { text_firsts (take len self.now.texts) ≡ take result (text_firsts self.now.texts) }
        ensures within { (k : ℕ) → k < len → code_or_last (text_firsts self.now.texts) (text_in self.now.texts k) < result }
    {
        let mut used = 0;
        for i in 0..len {
            used = used.max(self.code(i) + 1);
        }
        used
    }

    /// A copy with the same texts.
    pub fn copy(&self, alloc: Global) -> Result<TextColumn, AllocError>
        ensures { IfOk result (λ copy. copy.texts ≡ self.now.texts) }
    {
        Ok(TextColumn {
            codes: Vec::from_slice(alloc, self.codes.as_slice())?,
            dict: self.dict.copy(alloc)?,
        })
    }
}

// The codes of the texts of another dictionary in this one, where those go last that aren't there. After an error its texts are as before.
fn recoded_whole(alloc: Global, dict: &mut Dict, other: &Dict) -> Result<Vec<u32>, AllocError>
    requires { length dict.old.texts + length other.now.texts ≤ ROW_LIMIT }
    ensures added { IfOk result (λ made. AreAdded dict.old.texts other.now.texts dict.new.texts made.items) }
    ensures kept { OnErr result (dict.new.texts ≡ dict.old.texts) }
{
    let len = dict.len();
    let recoded = recoded_some(alloc, dict, other);
    if recoded.is_err() {
        dict.truncate(len);
    }
    recoded
}

// Recodes as `recoded_whole`, but after an error some texts may have gone last.
fn recoded_some(alloc: Global, dict: &mut Dict, other: &Dict) -> Result<Vec<u32>, AllocError>
    requires { length dict.old.texts + length other.now.texts ≤ ROW_LIMIT }
    ensures added { IfOk result (λ made. AreAdded dict.old.texts other.now.texts dict.new.texts made.items) }
    ensures kept { OnErr result (take (length dict.old.texts) dict.new.texts ≡ dict.old.texts) }
{
    let mut recoded = Vec::with_capacity(alloc, other.len() as usize)?;
    for code in 0..other.len() {
        recoded.push_reserved(dict.add_bytes(other.text(code))?);
    }
    Ok(recoded)
}
