//! `SeededHasher`: std's `FoldHasher`, in which both factors of each product have a secret.
//!
//! `FoldHasher` multiplies two words, each mixed with a number, and joins the halves of the product.
//! Whoever knows one of these numbers can choose words whose products are alike, whatever the
//! other number is. Here neither is known. The length turns the state, so texts of different
//! lengths don't share their products where they overlap.
ghost use Rattle.std.specs.Prelude.{◌≡◌, ◌+◌, ◌≤◌, length};
ghost use Rattle.std.specs.Hash.FoldHasher as folding;
ghost use Rattle.am_seed.specs.Hashing as seeded;

use std::hash::Hasher;

/// A hasher of a seed.
#[derive(Clone, Copy)]
pub struct SeededHasher {
    pub(crate) state: u64,
    pub(crate) factor: u64,
}

impl Hasher for SeededHasher {
    ghost write = { seeded.write };

    ghost finish = { seeded.finish };

    fn finish(&self) -> u64 {
        self.state
    }

    fn write(&mut self, bytes: &[u8]) {
        let len = bytes.len();
        let mut state = self.state.rotate_left((len % 64) as u32);
        if len <= 8 {
            self.state = folded_multiply(read_short(bytes) ^ state, self.factor);
            return;
        }
        let mut at = 0;
        while len - at > 16 {
            state = folded_multiply(
                read_u64(bytes, at) ^ state,
                read_u64(bytes, at + 8) ^ self.factor,
            );
            at += 16;
        }
        self.state = folded_multiply(
            read_u64(bytes, len.saturating_sub(16)) ^ state,
            read_u64(bytes, len - 8) ^ self.factor,
        );
    }
}

/// The halves of the product of two numbers, joined by xor.
fn folded_multiply(a: u64, b: u64) -> u64
    ensures { result ≡ folding.folded_multiply a b }
{
    let product = a as u128 * b as u128;
    (product & 0xFFFF_FFFF_FFFF_FFFF) as u64 ^ (product >> 64) as u64
}

/// The four bytes from an index on, the lowest first.
fn read_u32(bytes: &[u8], at: usize) -> u64
    requires { at + 4 ≤ length bytes.now }
    ensures { result ≡ folding.read_u32 bytes.now at }
{
    u32::from_le_bytes([bytes[at], bytes[at + 1], bytes[at + 2], bytes[at + 3]]) as u64
}

/// The eight bytes from an index on, the lowest first.
fn read_u64(bytes: &[u8], at: usize) -> u64
    requires { at + 8 ≤ length bytes.now }
    ensures { result ≡ folding.read_u64 bytes.now at }
{
    read_u32(bytes, at) | read_u32(bytes, at + 4) << 32
}

/// Up to eight bytes as one number, by reads that can overlap.
fn read_short(bytes: &[u8]) -> u64
    ensures { result ≡ folding.read_short bytes.now }
{
    let len = bytes.len();
    if len >= 4 {
        read_u32(bytes, 0) | read_u32(bytes, len - 4) << 32
    } else if len > 0 {
        bytes[0] as u64 | (bytes[len / 2] as u64) << 8 | (bytes[len - 1] as u64) << 16
    } else {
        0
    }
}
