//! A public draw that anyone can repeat: a seed and a list of entrants determine a selection and
//! its order.
//!
//! The program `lots` draws by `run` and `report`. `draw` and `draw_places` are the draw itself,
//! without text, for other callers. `laws` states that no place is preferred to another.
//!
//! `specs/Draws.antt` defines what a seed draws, `specs/Lists.antt` what the entrants of a list
//! are, and `specs/Arguments.antt` and `specs/Text.antt` what the program does with its arguments.
#![tactic(auto)]

pub mod arguments;
mod draws;
mod entrants;
mod error;
pub mod laws;
pub mod run;
mod selection;
pub mod text;

pub use draws::{draw, draw_places};
pub use entrants::{count_entrants, entrants_of, line_end};
pub use error::LotsError;
pub use selection::draw_lines;
