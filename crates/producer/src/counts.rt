// The counts of `State`, for a run, a call, and each function that is entered.
// Every method of `State` that may be refused takes both lent slices, so that all contracts speak of one machine.
ghost use Rattle.std.specs.Prelude.{◌≡◌};
ghost use Rattle.producer.specs.Machine.{new_state, fresh, deeper_of, conversions_of, machine};
ghost use Rattle.producer.specs.Answers.{end_state};
ghost use Rattle.producer.specs.Calls.{callees};

use crate::State;
use crate::answers::Refused;
use ast::refusals::Refusal;

impl State {
    // No rows, cells or memory, with a nesting limit and room for so many rows and cells.
    pub fn new(limit: u32, rowroom: u32, cellroom: u32) -> State
        ensures { result ≡ new_state limit rowroom cellroom }
    {
        State {
            rows: 0,
            cells: 0,
            conversions: 0,
            deepest: 0,
            limit,
            rowroom,
            cellroom,
        }
    }

    // A call is about to be walked: deepest starts from 0.
    pub fn begin(mut self) -> State
        ensures { result ≡ fresh self }
    {
        self.deepest = 0;
        self
    }

    // One level in, with `left` levels below it.
    #[tactic(auto, unfolding(crate::specs::Machine::deeper_of, ast::specs::Words::greater_of))]
    pub fn deeper(mut self, left: u32) -> State
        ensures { result ≡ deeper_of self left }
    {
        let depth = self.limit.saturating_sub(left);
        self.deepest = self.deepest.max(depth);
        self
    }

    // A call is about to be made, and an argument is to be made for it: refuses (19) before that where nothing is left.
    #[tactic(auto, unfolding(crate::proofs::Steps::steps))]
    pub fn ready(self, left: u32, rows: &[u32], cells: &[u32]) -> Result<State, Refused>
        ensures { end_state result rows.now cells.now ≡ (callees left).ready (machine rows.now cells.now self) }
    {
        if left == 0 {
            return Err(self.refused(Refusal::Nesting));
        }
        Ok(self.deeper(left - 1))
    }

    // With `n` conversions begun.
    #[tactic(auto, unfolding(crate::specs::Machine::conversions_of))]
    pub fn converting(mut self, n: u32) -> State
        ensures { result ≡ conversions_of n self }
    {
        self.conversions = n;
        self
    }
}
