//! Hashes that start from a seed.
//!
//! Whoever chooses labels and knows the seed can make their hashes collide: then a look-up walks all
//! that collide. A program draws its seed at its start, so nobody who writes labels knows it. No
//! answer depends on a seed: maps compare keys.
#![tactic(auto)]

mod hasher;
mod seed;

pub use hasher::SeededHasher;
pub use seed::Seed;
