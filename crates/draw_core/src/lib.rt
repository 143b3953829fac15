//! The implementation of the program `draw`: it parses the command-line arguments, draws, and
//! writes the resulting text. The program, in the crate `draw`, only calls `run` and `report`.
//!
//! `specs/Arguments.antt` defines what arguments ask for. `specs/Text.antt` defines the text that
//! is written and the exit status.
//!
//! Do not use it to generate keys or passwords: WyRand and Pcg64 are not cryptographically secure.
#![tactic(auto)]

mod bounds;
mod command;
mod error;
mod generators;
mod kinds;
mod numbers;
mod requests;
pub mod run;
mod text;

pub use error::DrawError;
