//! Adapters between `nanorand` and the kit's `rand`, in both directions.
//!
//! `Core` wraps a generator of `nanorand` as one of `rand_core`, so that the distributions, the
//! weighted indices and the sampling of `rand` draw from it. `FromCore32` and `FromCore64` wrap a
//! generator of `rand_core` as one of `nanorand`, for its ranges, shuffles, samples and replays.
#![tactic(auto)]

pub mod laws;
pub mod ours;
pub mod seeds;
pub mod theirs;

pub use ours::Core;
pub use seeds::ChaChaSeed;
pub use theirs::{FromCore32, FromCore64};
