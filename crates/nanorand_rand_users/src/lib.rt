//! Callers of `nanorand_rand`, proved through its public contracts: the kit's `rand` with the
//! generators of `nanorand`, and `nanorand` with the kit's `ChaCha20Rng` and `Pcg64`. `TASKS.md` of
//! `nanorand` shows them.
#![tactic(auto)]

pub mod kit_draws;
pub mod our_draws;
