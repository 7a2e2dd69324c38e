// Comparisons and maxima.
ghost use Rattle.std.specs.Prelude.{◌≡◌};
ghost use Rattle.producer.specs.Answers.{end};
ghost use Rattle.producer.specs.Judgments.{rule_number};
ghost use Rattle.producer.specs.Machine.{machine};
ghost use Rattle.producer.specs.Calls.{callees};

use crate::State;
use crate::answers::Answer;
use crate::codes::{Judgment, Rule};
use crate::rows::cite;
use ast::refusals::Refusal;

impl State {
    // The row of `m < n`, or of `m <= n`; refuses (17) where it is not so.
    pub fn comparison(
        self,
        left: u32,
        rows: &mut [u32],
        cells: &[u32],
        m: u32,
        n: u32,
        strict: bool,
    ) -> Answer<u32>
        ensures { end result rows.new cells.now ≡ (callees left).comparison m n strict (machine rows.old cells.now self) }
    {
        if left == 0 {
            return Err(self.refused(Refusal::Nesting));
        }
        let down = left - 1;
        let s0 = self.deeper(down);
        if strict {
            if n <= m {
                return Err(s0.refused(Refusal::Dimension));
            }
            if m == 0 {
                return s0.emit(rows, cells, Rule::LtZ, cite([]), Judgment::Lt(m, n));
            }
            let (s1, x) = s0.comparison(down, rows, cells, m - 1, n - 1, true)?;
            return s1.emit(rows, cells, Rule::LtS, cite([x]), Judgment::Lt(m, n));
        }
        if n < m {
            return Err(s0.refused(Refusal::Dimension));
        }
        if m == 0 {
            return s0.emit(rows, cells, Rule::LeZ, cite([]), Judgment::Le(m, n));
        }
        let (s1, x) = s0.comparison(down, rows, cells, m - 1, n - 1, false)?;
        s1.emit(rows, cells, Rule::LeS, cite([x]), Judgment::Le(m, n))
    }

    // The row of the greater of two levels.
    pub fn max(self, left: u32, rows: &mut [u32], cells: &[u32], m: u32, n: u32) -> Answer<u32>
        ensures { end result rows.new cells.now ≡ (callees left).max m n (machine rows.old cells.now self) }
    {
        if left == 0 {
            return Err(self.refused(Refusal::Nesting));
        }
        let down = left - 1;
        let s0 = self.deeper(down);
        if m == 0 {
            return s0.emit(rows, cells, Rule::MaxZ, cite([]), Judgment::Max(m, n, n));
        }
        if n == 0 {
            return s0.emit(rows, cells, Rule::MaxSz, cite([]), Judgment::Max(m, n, m));
        }
        let (s1, x) = s0.max(down, rows, cells, m - 1, n - 1)?;
        s1.emit(
            rows,
            cells,
            Rule::MaxSs,
            cite([x]),
            Judgment::Max(m, n, m.max(n)),
        )
    }
}
