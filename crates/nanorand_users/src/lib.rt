//! Programs for typical users of `nanorand`, proved through its public contracts alone.
//!
//! No proof here uses a lemma of `nanorand`, only the clauses of its public functions, its laws and
//! the definitions in its `specs/`. `callers` has short programs, one for each use; `TASKS.md` of
//! `nanorand` shows them.
#![tactic(auto)]

pub mod callers;
pub mod cases;
pub mod choice;
pub mod deals;
pub mod retry;
pub mod simulation;
pub mod streams;
