//! What the tests use: generators and readers whose bytes are known, and an allocator that fails at
//! chosen requests.
#![tactic(auto)]

pub mod allocator;
pub mod generators;
pub mod readers;

pub use allocator::Refusing;
pub use generators::forking::Forking;
pub use generators::script::Script;
pub use generators::steps::Steps;
pub use generators::waste::Waste;
pub use readers::{ERROR_KINDS, Pieces};
