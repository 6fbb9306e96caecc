use std::hash::{BuildHasher, FoldHasher, Hasher};

/// Makes hashers that begin and end with numbers that a seed gives, so that who doesn't know the seed can't tell which keys lie together. No contract speaks of a hash, and nothing is proved of how hashes spread.
#[derive(Clone, Copy)]
pub struct Seeded {
    first: KeyHasher,
}

/// A hasher of keys, with a part for each byte of a text and one for each number. Of a part up to 8 bytes long none reach the factor by which it is multiplied. Those of an int of 16 bytes do, but no int of a column is so large that the factor would be 0, whatever the seed is.
#[derive(Clone, Copy)]
pub struct KeyHasher {
    state: FoldHasher,
    last: u64,
}

impl Seeded {
    /// The hashers of a seed.
    pub fn new(seed: u64) -> Seeded {
        let mut state = FoldHasher::default();
        state.write_u64(seed);
        let mut last = state;
        last.write_u64(seed);
        Seeded {
            first: KeyHasher {
                state,
                last: last.finish(),
            },
        }
    }
}

impl BuildHasher for Seeded {
    type Hasher = KeyHasher;

    ghost build_hasher = { λ s. s.first };

    fn build_hasher(&self) -> KeyHasher {
        self.first
    }
}

impl Hasher for KeyHasher {
    ghost use Rattle.std.specs.Hash as fed;
    ghost use Rattle.std.specs.Hash.FoldHasher as folding;
    ghost use Rattle.std.specs.Prelude.{fold};

    ghost write = { λ s bytes. record s { state = folding.write s.state bytes } };

    ghost finish = { λ s. folding.finish (fold folding.write s.state (fed.u64 s.last)) };

    fn finish(&self) -> u64 {
        let mut state = self.state;
        state.write_u64(self.last);
        state.finish()
    }

    fn write(&mut self, bytes: &[u8]) {
        self.state.write(bytes);
    }
}
