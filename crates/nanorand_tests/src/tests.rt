//! The tests, one module for each subject.

mod derives;
mod entropy;
mod forks;
mod reads;
mod refusals;
mod replays;
mod reservoirs;
mod samples;
mod streams;
mod texts;
