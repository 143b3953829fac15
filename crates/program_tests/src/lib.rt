//! Tests of the programs: of `draw_core`, `lots_core` and `lots_record` as the programs call them,
//! of the programs and callers of `nanorand_users`, and of the callers of `nanorand_rand_users`.
//! They are a crate of their own, so that no mutant waits for their proof.
#![tactic(auto)]

#[cfg(test)]
mod comparing;
#[cfg(test)]
mod tests;
