//! The C interface: exports of the generators, ranges, shuffles and samples of `nanorand`, and of
//! the draw by lot of `lots_core`.
//!
//! The state of a generator is the caller's memory, borrowed for the call. No export allocates
//! memory, and none has a precondition beyond its types. The names carry the version of this
//! interface, so that two versions can be linked into one program.
#![tactic(auto)]

pub mod chacha;
pub mod chacha12;
pub mod chacha20;
pub mod chacha8;
pub mod keystream;
pub mod lots;
pub mod pcg64;
pub mod stream;
pub mod version;
pub mod wyrand;
