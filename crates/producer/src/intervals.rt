// Intervals: the judgment, and shifts and substitutions of dimensions.
ghost use Rattle.std.specs.Prelude.{◌≡◌};
ghost use Rattle.ast.specs.Kinds.{kind_number};
ghost use Rattle.producer.specs.Answers.{end};
ghost use Rattle.producer.specs.Judgments.{rule_number};
ghost use Rattle.producer.specs.Machine.{machine, intern};
ghost use Rattle.producer.specs.Intervals.{interval_parts, by_iop, iemit, ifinished, ifinish, idim_shift, idim_subst, idim, ineg, ipair};
ghost use Rattle.producer.specs.Calls.{callees};

use crate::State;
use crate::answers::Answer;
use crate::codes::{Judgment, Rule};
use crate::rows::{Refs, cite};
use ast::cells::{Cell, Node, quote, read};
use ast::kinds::Kind;
use ast::refusals::Refusal;

// What is done to an interval's dimensions: shift from k, put r for k.
#[derive(Clone, Copy)]
pub enum IOp {
    IShift(u32),
    ISubst(u32, u32),
}

// A rule for each operation.
#[tactic(auto, unfolding(crate::specs::Intervals::by_iop))]
pub fn by_iop(op: IOp, a: Rule, b: Rule) -> Rule
    ensures { rule_number result ≡ by_iop op (rule_number a) (rule_number b) }
{
    match op {
        IOp::IShift(_) => a,
        IOp::ISubst(_, _) => b,
    }
}

impl State {
    // The row of an interval over `d` dimensions.
    #[cycle(interval)]
    pub fn interval(self, left: u32, rows: &mut [u32], cells: &[u32], d: u32, r: u32) -> Answer<u32>
        ensures { end result rows.new cells.now ≡ (callees left).interval d r (machine rows.old cells.now self) }
    {
        if left == 0 {
            return Err(self.refused(Refusal::Nesting));
        }
        let down = left - 1;
        let s0 = self.deeper(down);
        let cell = read(cells, r);
        let stated = Judgment::Interval(d, cell.quote);
        match Kind::of(cell.kind) {
            Kind::I0 => s0.emit(rows, cells, Rule::Interval0, cite([]), stated),
            Kind::I1 => s0.emit(rows, cells, Rule::Interval1, cite([]), stated),
            Kind::Dim => {
                let (s1, x) = s0.comparison(down, rows, cells, cell.a, d, true)?;
                s1.emit(rows, cells, Rule::IntervalDim, cite([x]), stated)
            }
            Kind::Neg => {
                let (s1, x) = s0.interval(down, rows, cells, d, cell.a)?;
                s1.emit(rows, cells, Rule::IntervalNeg, cite([x]), stated)
            }
            Kind::Meet => s0.interval_parts(down, rows, cells, d, cell, Rule::IntervalMeet),
            _ => s0.interval_parts(down, rows, cells, d, cell, Rule::IntervalJoin),
        }
    }

    // A meet or a join.
    #[cycle(interval)]
    pub fn interval_parts(
        self,
        left: u32,
        rows: &mut [u32],
        cells: &[u32],
        d: u32,
        cell: Cell,
        rule: Rule,
    ) -> Answer<u32>
        ensures { end result rows.new cells.now ≡ interval_parts (callees left) d cell.quote cell.a cell.b (rule_number rule) (machine rows.old cells.now self) }
    {
        let (s1, x) = self.interval(left, rows, cells, d, cell.a)?;
        let (s2, y) = s1.interval(left, rows, cells, d, cell.b)?;
        s2.emit(
            rows,
            cells,
            rule,
            cite([x, y]),
            Judgment::Interval(d, cell.quote),
        )
    }

    // The row of a shift or a substitution, from the quote `p` to the quote `q`.
    #[tactic(auto, unfolding(crate::specs::Intervals::iemit, crate::proofs::Steps::steps, crate::proofs::Steps::stated))]
    pub fn iemit(
        self,
        rows: &mut [u32],
        cells: &[u32],
        op: IOp,
        rule: Rule,
        refs: Refs,
        p: u32,
        q: u32,
    ) -> Answer<u32>
        ensures { end result rows.new cells.now ≡ iemit op (rule_number rule) refs p q (machine rows.old cells.now self) }
    {
        match op {
            IOp::IShift(k) => self.emit(rows, cells, rule, refs, Judgment::IShift(p, k, q)),
            IOp::ISubst(k, r) => {
                let s = quote(cells, r);
                self.emit(rows, cells, rule, refs, Judgment::ISubst(p, k, s, q))
            }
        }
    }

    // The row, once the result is there.
    #[tactic(auto, unfolding(crate::specs::Intervals::ifinished, crate::proofs::Steps::steps))]
    pub fn ifinish(
        self,
        rows: &mut [u32],
        cells: &[u32],
        i: u32,
        op: IOp,
        out: u32,
        rule: Rule,
        refs: Refs,
    ) -> Answer<(u32, u32)>
        ensures { end result rows.new cells.now ≡ ifinished i op out (rule_number rule) refs (machine rows.old cells.now self) }
    {
        let p = quote(cells, i);
        let q = quote(cells, out);
        let (s, row) = self.iemit(rows, cells, op, rule, refs, p, q)?;
        Ok((s, (out, row)))
    }

    // The result is made, then the row.
    #[tactic(auto, unfolding(crate::specs::Intervals::ifinish, crate::proofs::Steps::steps))]
    pub fn imake(
        self,
        rows: &mut [u32],
        cells: &mut [u32],
        i: u32,
        op: IOp,
        node: Node,
        rule: Rule,
        refs: Refs,
    ) -> Answer<(u32, u32)>
        ensures { end result rows.new cells.new ≡ ifinish i op (intern node.kind node.a node.b node.c) (rule_number rule) refs (machine rows.old cells.old self) }
    {
        let (s, out) = self.intern(rows, cells, node)?;
        s.ifinish(rows, cells, i, op, out, rule, refs)
    }

    // The dimension `n`, shifted from `k` on.
    #[tactic(auto, unfolding(crate::specs::Intervals::idim_shift, crate::proofs::Steps::steps, crate::proofs::Steps::stated, ast::specs::Words::up))]
    pub fn idim_shift(
        self,
        left: u32,
        rows: &mut [u32],
        cells: &mut [u32],
        i: u32,
        n: u32,
        k: u32,
    ) -> Answer<(u32, u32)>
        ensures { end result rows.new cells.new ≡ idim_shift (callees left) i n k (machine rows.old cells.old self) }
    {
        let op = IOp::IShift(k);
        if n < k {
            let (s, x) = self.comparison(left, rows, cells, n, k, true)?;
            return s.ifinish(rows, cells, i, op, i, Rule::IShiftDimLt, cite([x]));
        }
        let (s, x) = self.comparison(left, rows, cells, k, n, false)?;
        let node = Node::new(Kind::Dim, n.wrapping_add(1), 0, 0);
        s.imake(rows, cells, i, op, node, Rule::IShiftDimGe, cite([x]))
    }

    // The dimension `n`, where `r` is put for `k`.
    #[tactic(auto, unfolding(crate::specs::Intervals::idim_subst, crate::proofs::Steps::steps, crate::proofs::Steps::stated))]
    pub fn idim_subst(
        self,
        left: u32,
        rows: &mut [u32],
        cells: &mut [u32],
        i: u32,
        n: u32,
        k: u32,
        r: u32,
    ) -> Answer<(u32, u32)>
        ensures { end result rows.new cells.new ≡ idim_subst (callees left) i n k r (machine rows.old cells.old self) }
    {
        let op = IOp::ISubst(k, r);
        if n == k {
            return self.ifinish(rows, cells, i, op, r, Rule::ISubstDimHit, cite([]));
        }
        if n < k {
            let (s, x) = self.comparison(left, rows, cells, n, k, true)?;
            return s.ifinish(rows, cells, i, op, i, Rule::ISubstDimLt, cite([x]));
        }
        let (s, x) = self.comparison(left, rows, cells, k, n, true)?;
        let node = Node::new(Kind::Dim, n - 1, 0, 0);
        s.imake(rows, cells, i, op, node, Rule::ISubstDimGt, cite([x]))
    }

    // The dimension `n`.
    #[tactic(auto, unfolding(crate::specs::Intervals::idim, crate::proofs::Steps::steps))]
    pub fn idim(
        self,
        left: u32,
        rows: &mut [u32],
        cells: &mut [u32],
        i: u32,
        n: u32,
        op: IOp,
    ) -> Answer<(u32, u32)>
        ensures { end result rows.new cells.new ≡ idim (callees left) i n op (machine rows.old cells.old self) }
    {
        match op {
            IOp::IShift(k) => self.idim_shift(left, rows, cells, i, n, k),
            IOp::ISubst(k, r) => self.idim_subst(left, rows, cells, i, n, k, r),
        }
    }

    // The interval with its dimensions shifted or substituted: the result, and the row.
    #[cycle(itransform)]
    pub fn itransform(
        self,
        left: u32,
        rows: &mut [u32],
        cells: &mut [u32],
        i: u32,
        op: IOp,
    ) -> Answer<(u32, u32)>
        ensures { end result rows.new cells.new ≡ (callees left).itransform i op (machine rows.old cells.old self) }
    {
        if left == 0 {
            return Err(self.refused(Refusal::Nesting));
        }
        let down = left - 1;
        let s0 = self.deeper(down);
        let cell = read(cells, i);
        match Kind::of(cell.kind) {
            Kind::I0 => {
                let rule = by_iop(op, Rule::IShift0, Rule::ISubst0);
                s0.ifinish(rows, cells, i, op, i, rule, cite([]))
            }
            Kind::I1 => {
                let rule = by_iop(op, Rule::IShift1, Rule::ISubst1);
                s0.ifinish(rows, cells, i, op, i, rule, cite([]))
            }
            Kind::Dim => s0.idim(down, rows, cells, i, cell.a, op),
            Kind::Neg => s0.ineg(down, rows, cells, i, op, cell.a),
            Kind::Meet => {
                let rule = by_iop(op, Rule::IShiftMeet, Rule::ISubstMeet);
                s0.ipair(down, rows, cells, i, op, Kind::Meet, cell.a, cell.b, rule)
            }
            _ => {
                let rule = by_iop(op, Rule::IShiftJoin, Rule::ISubstJoin);
                s0.ipair(down, rows, cells, i, op, Kind::Join, cell.a, cell.b, rule)
            }
        }
    }

    // A negation.
    #[cycle(itransform)]
    pub fn ineg(
        self,
        left: u32,
        rows: &mut [u32],
        cells: &mut [u32],
        i: u32,
        op: IOp,
        a: u32,
    ) -> Answer<(u32, u32)>
        ensures { end result rows.new cells.new ≡ ineg (callees left) i op a (machine rows.old cells.old self) }
    {
        let (s1, (a1, x)) = self.itransform(left, rows, cells, a, op)?;
        let rule = by_iop(op, Rule::IShiftNeg, Rule::ISubstNeg);
        let node = Node::new(Kind::Neg, a1, 0, 0);
        s1.imake(rows, cells, i, op, node, rule, cite([x]))
    }

    // A meet or a join.
    #[cycle(itransform)]
    pub fn ipair(
        self,
        left: u32,
        rows: &mut [u32],
        cells: &mut [u32],
        i: u32,
        op: IOp,
        kind: Kind,
        a: u32,
        b: u32,
        rule: Rule,
    ) -> Answer<(u32, u32)>
        ensures { end result rows.new cells.new ≡ ipair (callees left) i op (kind_number kind) a b (rule_number rule) (machine rows.old cells.old self) }
    {
        let (s1, (a1, x)) = self.itransform(left, rows, cells, a, op)?;
        let (s2, (b1, y)) = s1.itransform(left, rows, cells, b, op)?;
        let node = Node::new(kind, a1, b1, 0);
        s2.imake(rows, cells, i, op, node, rule, cite([x, y]))
    }
}
