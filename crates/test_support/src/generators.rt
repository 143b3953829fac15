//! Generators whose bytes are known. Each satisfies the contract of `Rng`, and the library knows
//! none of them.

pub mod forking;
pub mod script;
pub mod steps;
pub mod waste;
