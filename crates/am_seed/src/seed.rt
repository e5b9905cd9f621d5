//! `Seed`: what the hashes of a program start from.
ghost use Rattle.std.specs.Prelude.{◌≡◌, IfOk};
ghost use Rattle.am_seed.specs.Hashing as seeded;

use crate::hasher::SeededHasher;
use std::fmt::{Debug, Formatter, Result, Write};
use std::hash::{BuildHasher, DefaultHasher, Hasher};
use std::io;
use std::random::RandomSource;

/// What hashes start from: two numbers that only the program knows.
#[derive(Clone, Copy)]
pub struct Seed {
    pub(crate) start: u64,
    pub(crate) factor: u64,
}

impl Seed {
    /// Returns the seed of this number. Whoever knows the number can make hashes collide.
    pub fn new(number: u64) -> Seed
        ensures { result ≡ seeded.seed_of number }
    {
        Seed {
            start: word(number, 0),
            factor: word(number, 1),
        }
    }

    /// Returns the seed that everybody knows. It will do where nobody gains from slow calls: in
    /// tests, and where who writes the labels waits for the answer alone.
    pub fn fixed() -> Seed
        ensures { result ≡ seeded.seed_of 0 }
    {
        Seed::new(0)
    }

    /// Draws the number of a seed from the system.
    ///
    /// # Errors
    ///
    /// The system's, where it has no random bytes.
    pub fn draw(source: &impl RandomSource) -> io::Result<Seed>
        ensures { IfOk result (λ seed. seeded.IsOfNumber seed) }
    {
        let mut bytes = [0; 8];
        source.fill_bytes(&mut bytes)?;
        Ok(Seed::new(u64::from_le_bytes(bytes)))
    }
}

/// One of the words of a number's seed, by SipHash: none of them shows another.
fn word(number: u64, index: u8) -> u64
    ensures { result ≡ seeded.word number index }
{
    let mut hasher = DefaultHasher::new();
    hasher.write_u64(number);
    hasher.write_u8(index);
    hasher.finish()
}

impl BuildHasher for Seed {
    type Hasher = SeededHasher;

    ghost build_hasher = { seeded.opening };

    fn build_hasher(&self) -> SeededHasher {
        SeededHasher {
            state: self.start,
            factor: self.factor,
        }
    }
}

// The numbers aren't shown.
impl Debug for Seed {
    fn fmt<W: Write>(&self, f: &mut Formatter<W>) -> Result {
        f.write_str("Seed")
    }
}
