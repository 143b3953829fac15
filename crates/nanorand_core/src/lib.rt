//! Everything that is common to all generators: the traits, values and ranges, choices, samples and
//! shuffles.
//!
//! The parameter `OUTPUT` of the generic items is the number of bytes in a block of the generator.
//!
//! This crate contains no generator. The crate `nanorand_replay` has buffers and replays for any
//! generator. The crate `nanorand` has the generators, and all items of these two crates under the
//! same paths.
#![tactic(auto)]

pub mod choices;
pub mod laws;
pub mod rand;
pub mod samples;
pub mod shuffles;
pub mod swap;
pub mod values;

pub use rand::{Blocks, Rng, SeedableRng};
pub use values::{RandomGen, RandomRange, RangeError};
