//! Tests of `nanorand`: what no clause states and only a run of the library shows, and published
//! values. They are a crate of their own, so that only tests are proved a second time. What can
//! also be seen in Rust, in the same bodies, is tested in `rust/nanorand-proved/tests/`.
#![tactic(auto)]

#[cfg(test)]
mod comparing;
#[cfg(test)]
mod draw_helpers;
#[cfg(test)]
mod tests;
