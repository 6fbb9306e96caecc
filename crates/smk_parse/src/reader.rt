ghost use Rattle.std.specs.Prelude.{◌≡◌, ◌≤◌, ◌∷◌, length, drop, FitsSigned, IsTrue};
ghost use Rattle.smk_parse.specs.{Vocabulary.{tokens, tokens_from, head_of, tail_of, is_more, int_value, Configuration, no_counts, w64}, Texts.{left_at, Stands, Advances}};
ghost use Rattle.smk_base.specs.declared.book.token.TokenKind.TheVariants.{Number};

use crate::front::{Front, front_at, int_of};
use smk_base::TokenKind;
use std::marker::Model;

/// A text with its next token in hand, and what is counted of its tokens. Contracts see the tokens that are left.
#[derive(Drop)]
pub struct Reader<'t> {
    text: &'t [u8],
    place: usize,
    kind: TokenKind,
    len: usize,
    nodes: u32,
    compares: u32,
}

impl<'t> Model for Reader<'t> {
    ghost use Rattle.std.specs.Prelude.{drop};
    ghost use Rattle.smk_parse.specs.{Vocabulary.Configuration, Texts.{left_at, Stands}};

    ghost Value = { Configuration };

    ghost view = { λ a. record { rest = left_at a.kind a.place a.len (drop a.place a.text.now); counts = record { nodes = a.nodes; compares = a.compares } } };

    ghost invariant = { λ a. Stands a.kind a.place a.len a.text.now };
}

impl<'t> Reader<'t> {
    /// The text from the first token after a place on, with these counts.
    fn behind(text: &'t [u8], from: usize, nodes: u32, compares: u32) -> Reader<'t>
        requires { from ≤ length text.now }
        ensures { result ≡ record { rest = tokens_from 0 from (drop from text.now); counts = record { nodes = nodes; compares = compares } } }
    {
        let mut place = from;
        loop {
            match front_at(&text[place..]) {
                Front::Between(len) => place += len,
                Front::Begins(kind, len) => {
                    return Reader {
                        text,
                        place,
                        kind,
                        len,
                        nodes,
                        compares,
                    };
                }
            }
        }
    }

    /// The text from its first token on.
    pub fn new(text: &'t [u8]) -> Reader<'t>
        ensures { result ≡ record { rest = tokens text.now; counts = no_counts } }
    {
        Reader::behind(text, 0, 0, 0)
    }

    /// The kind of the token in hand.
    pub fn kind(&self) -> TokenKind
        ensures is { result ≡ (head_of self.now.rest).kind }
        ensures here { self.now.rest ≡ head_of self.now.rest ∷ tail_of self.now.rest }
    {
        self.kind
    }

    /// The place of the token in hand.
    pub fn at(&self) -> u64
        ensures { result ≡ (head_of self.now.rest).at }
    {
        self.place as u64
    }

    /// The bytes of the token in hand.
    pub fn bytes(&self) -> &'t [u8]
        ensures is { result.now ≡ (head_of self.now.rest).text }
        ensures fits { (head_of self.now.rest).kind ≡ Number → FitsSigned w64 (int_value result.now) }
    {
        &self.text[self.place..self.place + self.len]
    }

    /// The value of the number in hand.
    pub fn int(&self) -> i64
        requires { (head_of self.now.rest).kind ≡ Number }
        ensures { result ≡ int_value (head_of self.now.rest).text }
    {
        int_of(self.bytes())
    }

    /// On to the next token.
    pub fn advance(&mut self)
        requires { IsTrue (is_more (head_of self.old.rest).kind) }
        ensures { Advances self.old.counts self.old self.new }
    {
        self.advance_to(self.nodes, self.compares);
    }

    /// On to the next token, with these counts.
    pub fn advance_to(&mut self, nodes: u32, compares: u32)
        requires { IsTrue (is_more (head_of self.old.rest).kind) }
        ensures { Advances (record { nodes = nodes; compares = compares }) self.old self.new }
    {
        *self = Reader::behind(self.text, self.place + self.len, nodes, compares);
    }

    /// The token in hand is taken, and says this.
    pub fn took<T>(&mut self, value: T) -> T
        requires { IsTrue (is_more (head_of self.old.rest).kind) }
        ensures taken { Advances self.old.counts self.old self.new }
        ensures is { result ≡ value }
    {
        self.advance();
        value
    }

    /// The number of nodes so far.
    pub fn nodes(&self) -> u32
        ensures { result ≡ self.now.counts.nodes }
    {
        self.nodes
    }

    /// The number of comparisons so far.
    pub fn compares(&self) -> u32
        ensures { result ≡ self.now.counts.compares }
    {
        self.compares
    }
}
