// The producer of producer.rs over lent slices of 32-bit words: rows, cells, and the nineteen reference functions.
#![tactic(auto)]

pub mod codes; // the judgments and the rules, and their numbers
pub mod others; // the numbers that no rule has
pub mod answers; // what the functions answer, and refusals
pub mod counts; // the counts, for a run, a call, a function that is entered
pub mod rows; // rows, citations, the search for a known judgment
pub mod store; // cells that are made, and what is remembered
pub mod numbers; // comparison, max
pub mod intervals; // interval, itransform
pub mod endpoints; // endpoint
pub mod transforms; // transform, under
pub mod contexts; // dshiftctx, lookup
pub mod typing; // ctx, infer, universe, check, expose
pub mod equality; // normalize, equal, reduce
pub mod heads; // head_normalize, head_step

// The counts, which travel by value through methods that give them back. They stand at the crate's root, so that paths to them are short
// (docs/DECISIONS.md, "Short names").
#[derive(Clone, Copy)]
pub struct State {
    pub rows: u32,
    pub cells: u32,
    // The conversions begun and not ended.
    pub conversions: u32,
    // The most reference functions entered and not yet left.
    pub deepest: u32,
    // The nesting limit.
    pub limit: u32,
    // The rows and the cells that there is room for.
    pub rowroom: u32,
    pub cellroom: u32,
}
