//! The functions that `bench/` times: calls of `nanorand`, and the same tasks with the kit's
//! `rand`.
//!
//! Those that fill or shuffle a slice leave their result in it. Each of the others returns a number
//! that depends on all its results, so that the compiler cannot drop any of the work.
#![tactic(auto)]

pub mod buffers;
pub mod choices;
pub mod contexts;
pub mod fills;
pub mod jumps;
pub mod kit;
pub mod kit_contexts;
pub mod ranges;
pub mod words;
