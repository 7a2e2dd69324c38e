// What a run answers of itself: the number and the place of its refusal, and how many calls, rows and cells it has. `run` gives it, and
// the listing in `text` is of it: so neither needs the other.
#![tactic(auto)]

#[derive(Clone, Copy)]
pub struct Ran {
    pub number: u32,
    pub place: u32,
    pub calls: u32,
    pub rows: u32,
    pub cells: u32,
}
