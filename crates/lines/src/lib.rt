// The lines of a listing, from a run's words: of a row, and of a call. And how many calls repeat an earlier one.
#![tactic(auto)]

pub mod calls;
pub mod repeats;
pub mod rows;
