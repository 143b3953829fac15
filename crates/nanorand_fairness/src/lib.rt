//! Laws of whole draws, counted over lists of words: shuffles, deals, samples, weights and ratios.
//! A word is a random integer of N bits.
//!
//! They rest on the laws of `nanorand_core` alone. Each contract states a law. The functions do
//! nothing; a proof calls one to use its law.
#![tactic(auto)]

pub mod laws;
