// Cells that are made, and inferences that are remembered.
ghost use Rattle.std.specs.Prelude.{◌≡◌};
ghost use Rattle.producer.specs.Machine.{machine, intern, remember};
ghost use Rattle.producer.specs.Answers.{end, end_state};
ghost use Rattle.producer.specs.Callees.{prepared};
ghost use Rattle.producer.specs.Calls.{callees};

use crate::State;
use crate::answers::{Answer, Refused};
use ast::cells::{Node, find_node, inference, link_cell, lowest, put_again, put_cell};
use ast::refusals::Refusal;

impl State {
    // The cell of the node: the one that has its kind and parts, or a new one; refuses (20) where none is left.
    #[tactic(auto, unfolding(crate::specs::Machine::intern, crate::specs::Machine::known_or, crate::specs::Machine::new_cell, crate::specs::Machine::add_cell, crate::proofs::Steps::steps))]
    pub fn intern(mut self, rows: &[u32], cells: &mut [u32], node: Node) -> Answer<u32>
        ensures { end result rows.now cells.new ≡ intern node.kind node.a node.b node.c (machine rows.now cells.old self) }
    {
        let n = self.cells;
        match find_node(cells, n, node) {
            Some(i) => Ok((self, i)),
            None => {
                if n < self.cellroom {
                    let quote = lowest(cells, n, node);
                    link_cell(cells, n, node);
                    put_cell(cells, n, node, quote, 0, 0, 0);
                    self.cells = n + 1;
                    return Ok((self, n));
                }
                Err(self.refused(Refusal::Cells))
            }
        }
    }

    // Remembers an inference: a key has one cell, which is written over where it is stored again; refuses (20) where none is left.
    #[tactic(auto, unfolding(crate::specs::Machine::remember, crate::specs::Machine::remembered_or, crate::specs::Machine::new_memory, crate::specs::Machine::add_cell, crate::specs::Machine::replace, crate::proofs::Steps::steps))]
    pub fn remember(
        mut self,
        rows: &[u32],
        cells: &mut [u32],
        d: u32,
        g: u32,
        t: u32,
        ty: u32,
        row: u32,
    ) -> Result<State, Refused>
        ensures { end_state result rows.now cells.new ≡ remember d g t ty row (machine rows.now cells.old self) }
    {
        let n = self.cells;
        let key = inference(d, g, t);
        match find_node(cells, n, key) {
            Some(i) => {
                put_again(cells, i, ty, row);
                Ok(self)
            }
            None => {
                if n < self.cellroom {
                    link_cell(cells, n, key);
                    put_cell(cells, n, key, ty, row, 0, 0);
                    self.cells = n + 1;
                    return Ok(self);
                }
                Err(self.refused(Refusal::Cells))
            }
        }
    }

    // A cell that is an argument of a call about to be made: 19 precedes 20.
    #[tactic(auto, unfolding(crate::specs::Callees::prepared, crate::proofs::Steps::steps))]
    pub fn prepare(self, left: u32, rows: &[u32], cells: &mut [u32], node: Node) -> Answer<u32>
        ensures { end result rows.now cells.new ≡ prepared (callees left) (intern node.kind node.a node.b node.c) (machine rows.now cells.old self) }
    {
        let s = self.ready(left, rows, cells)?;
        s.intern(rows, cells, node)
    }
}
