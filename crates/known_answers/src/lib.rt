//! Known answers: examples of the definitions of the library, of `nanorand_calls` and of
//! `draw_core`, in `proofs/`.
//!
//! They check the definitions against published vectors and against values computed by hand. They
//! prove nothing about code. No crate uses them.
#![tactic(auto)]
