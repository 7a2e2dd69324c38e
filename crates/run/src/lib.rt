// A run: the bytes that an author sends, played over the three lent slices.
#![tactic(auto)]

pub mod build; // the cells of what is sent
pub mod call; // one call: its row and its result
pub mod entry; // the run
