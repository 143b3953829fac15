//! Buffers and replays for any generator: the requests of a buffered generator join without a
//! break, and a list of calls can be replayed.
//!
//! The traits, values and shuffles are those of `nanorand_core`. The crate `nanorand` has the
//! generators, and all items of this crate under the same paths.
#![tactic(auto)]

pub mod buffer;
pub mod laws;
pub mod replay;

pub use buffer::BufferedRng;
