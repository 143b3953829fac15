//! The record of a public draw: a text that tells others everything they need to repeat the draw
//! with the list, and the check of such a text.
//!
//! `record` makes the text, and `check` accepts exactly the records that `record` makes from seeds
//! that are not empty. The program `lots` calls `read_command` and the functions of `program`.
//!
//! `specs/Quoted.antt` defines how bytes are written, with escapes for hidden characters,
//! `specs/Record.antt` what the text of a record is, and `specs/Command.antt` and
//! `specs/Program.antt` what the program does with its arguments.
#![tactic(auto)]

pub mod announcement;
pub mod check;
mod check_error;
mod claims;
pub mod command;
pub mod program;
mod quoted;
pub mod record;

pub use check_error::CheckError;
