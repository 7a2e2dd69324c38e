// Contexts: the dimension shift, and a variable's type.
ghost use Rattle.std.specs.Prelude.{◌≡◌};
ghost use Rattle.producer.specs.Answers.{end};
ghost use Rattle.producer.specs.Judgments.{rule_number};
ghost use Rattle.producer.specs.Machine.{machine};
ghost use Rattle.producer.specs.Calls.{callees};

use crate::State;
use crate::answers::Answer;
use crate::codes::{Judgment, Rule};
use crate::rows::cite;
use crate::transforms::Op;
use ast::cells::{Node, quote, read};
use ast::kinds::Kind;
use ast::refusals::Refusal;

impl State {
    // The context under one more dimension.
    pub fn dshiftctx(
        self,
        left: u32,
        rows: &mut [u32],
        cells: &mut [u32],
        g: u32,
    ) -> Answer<(u32, u32)>
        ensures { end result rows.new cells.new ≡ (callees left).dshiftctx g (machine rows.old cells.old self) }
    {
        if left == 0 {
            return Err(self.refused(Refusal::Nesting));
        }
        let down = left - 1;
        let s0 = self.deeper(down);
        let cell = read(cells, g);
        if let Kind::Nil = Kind::of(cell.kind) {
            let to = quote(cells, g);
            let (s, row) = s0.emit(
                rows,
                cells,
                Rule::DShiftCtxNil,
                cite([]),
                Judgment::DShiftCtx(cell.quote, 0, to),
            )?;
            return Ok((s, (g, row)));
        }
        let (s1, (rest, x)) = s0.dshiftctx(down, rows, cells, cell.b)?;
        let (s2, (last, y)) = s1.transform(down, rows, cells, cell.a, Op::DShift(0))?;
        let (s3, out) = s2.intern(rows, cells, Node::new(Kind::Cons, last, rest, 0))?;
        let to = quote(cells, out);
        let (s, row) = s3.emit(
            rows,
            cells,
            Rule::DShiftCtxCons,
            cite([x, y]),
            Judgment::DShiftCtx(cell.quote, 0, to),
        )?;
        Ok((s, (out, row)))
    }

    // The type of the variable `n`; refuses (8) past the context's end.
    pub fn lookup(
        self,
        left: u32,
        rows: &mut [u32],
        cells: &mut [u32],
        g: u32,
        n: u32,
    ) -> Answer<(u32, u32)>
        ensures { end result rows.new cells.new ≡ (callees left).lookup g n (machine rows.old cells.old self) }
    {
        if left == 0 {
            return Err(self.refused(Refusal::Nesting));
        }
        let down = left - 1;
        let s0 = self.deeper(down);
        let cell = read(cells, g);
        if let Kind::Nil = Kind::of(cell.kind) {
            return Err(s0.refused(Refusal::Unbound));
        }
        if n == 0 {
            let (s1, (ty, x)) = s0.transform(down, rows, cells, cell.a, Op::Shift(0))?;
            let to = quote(cells, ty);
            let (s, row) = s1.emit(
                rows,
                cells,
                Rule::LookupZ,
                cite([x]),
                Judgment::Lookup(cell.quote, n, to),
            )?;
            return Ok((s, (ty, row)));
        }
        let (s2, (outer, x)) = s0.lookup(down, rows, cells, cell.b, n - 1)?;
        let (s3, (ty, y)) = s2.transform(down, rows, cells, outer, Op::Shift(0))?;
        let to = quote(cells, ty);
        let (s, row) = s3.emit(
            rows,
            cells,
            Rule::LookupS,
            cite([x, y]),
            Judgment::Lookup(cell.quote, n, to),
        )?;
        Ok((s, (ty, row)))
    }
}
