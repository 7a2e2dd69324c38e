// The search for a known judgment, over any rows: the index made anew over them, by which the producer's `find_row` then searches, and the
// plain search from the last row down, which compares by quote.
#![tactic(auto)]

pub mod alike; // two cells, by what their quotes show
pub mod index; // the index over any rows
pub mod plain; // the search from the last row down
