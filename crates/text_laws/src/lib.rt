//! What a run is printed as is read as its record, and judged to be safe: public functions whose
//! contracts carry these laws. They do nothing, or nothing but a run.
#![tactic(auto)]

mod judged;
mod reading_back;
mod typing;

pub use judged::{judged_run, replays_are_judged_safe};
pub use reading_back::{remarks_change_nothing, runs_are_read_back};
pub use typing::facts_are_typed;
