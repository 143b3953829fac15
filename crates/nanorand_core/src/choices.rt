//! Random choices that take one drawn number: a number below a bound or between two bounds, a given
//! number of bits, an item of a slice, a boolean with a given probability, or an index chosen by
//! weight.
//!
//! A word is a random integer of N bits, read by one request of N / 8 bytes. Each function draws
//! words of 64 bits, except `below`, `between` and `bits`, whose words have the width of their
//! type. The first word that is not rejected decides, by the rule of `values::pick_word`. At most
//! 128 words are drawn; `bits` draws exactly one.
pub mod uniform;
pub mod weighted;

pub use uniform::{below, between, bits, choose, choose_mut, ratio};
pub use weighted::{WeightError, choose_weighted};
