// Equality: root reductions, normal forms, equal terms. With typing.rt these form one cycle of calls.
ghost use Rattle.std.specs.Prelude.{◌≡◌, false};
ghost use Rattle.producer.specs.Answers.{end, end_step, end_maybe};
ghost use Rattle.producer.specs.Judgments.{rule_number};
ghost use Rattle.producer.specs.Machine.{machine};
ghost use Rattle.producer.specs.Equality.{beta, beta_row, at_end, pbeta, along, at_val, reduce_papp, round, rounds};
ghost use Rattle.producer.specs.Calls.{callees};

use crate::State;
use crate::answers::{Answer, Reduced};
use crate::codes::Rule;
use crate::endpoints::End;
use crate::rows::cite;
use crate::transforms::Op;
use ast::cells::{Node, Shape, read, same_quote, shape_of};
use ast::kinds::Kind;
use ast::refusals::Refusal;

impl State {
    // The term reduced at its root, with its type and the row of the equation.
    #[cycle(typing)]
    pub fn reduce(
        self,
        left: u32,
        rows: &mut [u32],
        cells: &mut [u32],
        d: u32,
        g: u32,
        t: u32,
    ) -> Answer<Option<Reduced>>
        ensures { end_step result rows.new cells.new ≡ (callees left).reduce d g t (machine rows.old cells.old self) }
    {
        if left == 0 {
            return Err(self.refused(Refusal::Nesting));
        }
        let down = left - 1;
        let s0 = self.deeper(down);
        let cell = read(cells, t);
        match Kind::of(cell.kind) {
            Kind::App => {
                let Shape::Lam(a, body) = shape_of(cells, cell.a) else {
                    return Ok((s0, None));
                };
                s0.beta(down, rows, cells, d, g, t, a, body, cell.b)
            }
            Kind::Papp => s0.line(down, rows, cells, d, g, t, cell.a, cell.b),
            Kind::Fst => {
                // The first part of a pair, at its type.
                let Shape::Pair(_, a, _) = shape_of(cells, cell.a) else {
                    return Ok((s0, None));
                };
                let (s1, (sigma, x)) = s0.head(down, rows, cells, d, g, cell.a, Kind::Sigma)?;
                let Shape::Sigma(ty, _) = shape_of(cells, sigma) else {
                    return Err(s1.refused(Refusal::NoSigma));
                };
                let (s2, typed) = s1.check(down, rows, cells, d, g, a, ty)?;
                let refs = cite([x, typed]);
                let (s3, row) = s2.emit_eq(rows, cells, Rule::EqFstBeta, refs, d, g, t, a, ty)?;
                Ok((s3, Some((a, ty, row))))
            }
            Kind::Snd => {
                // The second, at its type with the first projection put in.
                let Shape::Pair(_, _, b) = shape_of(cells, cell.a) else {
                    return Ok((s0, None));
                };
                let (s1, (sigma, x)) = s0.head(down, rows, cells, d, g, cell.a, Kind::Sigma)?;
                let Shape::Sigma(_, tb) = shape_of(cells, sigma) else {
                    return Err(s1.refused(Refusal::NoSigma));
                };
                let node = Node::new(Kind::Fst, cell.a, 0, 0);
                let (s2, first) = s1.prepare(down, rows, cells, node)?;
                let (s3, (ty, y)) = s2.transform(down, rows, cells, tb, Op::Subst(0, first))?;
                s3.step(down, rows, cells, d, g, t, b, ty, x, y, Rule::EqSndBeta)
            }
            _ => Ok((s0, None)),
        }
    }

    // A lam that is applied to `r`.
    #[cycle(typing)]
    pub fn beta(
        self,
        left: u32,
        rows: &mut [u32],
        cells: &mut [u32],
        d: u32,
        g: u32,
        t: u32,
        a: u32,
        body: u32,
        r: u32,
    ) -> Answer<Option<Reduced>>
        ensures { end_step result rows.new cells.new ≡ beta (callees left) d g t a body r (machine rows.old cells.old self) }
    {
        let (s1, (_, x)) = self.universe(left, rows, cells, d, g, a)?;
        let context = Node::new(Kind::Cons, a, g, 0);
        let (s2, h) = s1.prepare(left, rows, cells, context)?;
        let (s3, (b, y)) = s2.infer(left, rows, cells, d, h, body)?;
        let (s4, k) = s3.prepare(left, rows, cells, context)?;
        let (s5, (_, z)) = s4.universe(left, rows, cells, d, k, b)?;
        let (s6, arg) = s5.check(left, rows, cells, d, g, r, a)?;
        s6.beta_row(left, rows, cells, d, g, t, body, r, b, x, y, z, arg)
    }

    // The two substitutions of a beta step, and its row.
    #[tactic(auto, unfolding(crate::specs::Equality::beta_row, crate::proofs::Steps::steps, crate::proofs::Steps::stated))]
    pub fn beta_row(
        self,
        left: u32,
        rows: &mut [u32],
        cells: &mut [u32],
        d: u32,
        g: u32,
        t: u32,
        body: u32,
        r: u32,
        b: u32,
        x: u32,
        y: u32,
        z: u32,
        arg: u32,
    ) -> Answer<Option<Reduced>>
        ensures { end_step result rows.new cells.new ≡ beta_row (callees left) d g t body r b x y z arg (machine rows.old cells.old self) }
    {
        let (s1, (out, x4)) = self.transform(left, rows, cells, body, Op::Subst(0, r))?;
        let (s2, (ty, x5)) = s1.transform(left, rows, cells, b, Op::Subst(0, r))?;
        let (s3, row) = s2.emit_eq(
            rows,
            cells,
            Rule::EqBeta,
            cite([x, y, z, arg, x4, x5]),
            d,
            g,
            t,
            out,
            ty,
        )?;
        Ok((s3, Some((out, ty, row))))
    }

    // A papp: the path `p` along the interval `r`.
    #[cycle(typing)]
    pub fn line(
        self,
        left: u32,
        rows: &mut [u32],
        cells: &mut [u32],
        d: u32,
        g: u32,
        t: u32,
        p: u32,
        r: u32,
    ) -> Answer<Option<Reduced>>
        ensures { end_step result rows.new cells.new ≡ reduce_papp (callees left) d g t p r (machine rows.old cells.old self) }
    {
        let (s1, end) = self.long_end(left, rows, cells, p, r)?;
        let Some((e, w)) = end else {
            return s1.along(left, rows, cells, d, g, t, p, r);
        };
        s1.val(left, rows, cells, d, g, t, p, r, e, w)
    }

    // The path `p` along an interval that works out to the end `e`, by the row `w`: the side of its type there.
    #[cycle(typing)]
    pub fn val(
        self,
        left: u32,
        rows: &mut [u32],
        cells: &mut [u32],
        d: u32,
        g: u32,
        t: u32,
        p: u32,
        r: u32,
        e: End,
        w: u32,
    ) -> Answer<Option<Reduced>>
        ensures { end_step result rows.new cells.new ≡ at_val (callees left) d g t p r e w (machine rows.old cells.old self) }
    {
        let (s1, (path, x)) = self.head(left, rows, cells, d, g, p, Kind::Path)?;
        let Shape::Path(family, b, c) = shape_of(cells, path) else {
            return Err(s1.refused(Refusal::NoPath));
        };
        let (s2, y) = s1.interval(left, rows, cells, d, r)?;
        let (s3, (ty, z)) = s2.transform(left, rows, cells, family, Op::DSubst(0, r))?;
        let out = e.side(b, c);
        let (s4, typed) = s3.check(left, rows, cells, d, g, out, ty)?;
        let refs = cite([w, x, y, z, typed]);
        let (s5, row) = s4.emit_eq(rows, cells, e.rule(), refs, d, g, t, out, ty)?;
        Ok((s5, Some((out, ty, row))))
    }

    // The path `p` along an interval that is no endpoint, or is written as one; or a plam along any.
    #[cycle(typing)]
    pub fn along(
        self,
        left: u32,
        rows: &mut [u32],
        cells: &mut [u32],
        d: u32,
        g: u32,
        t: u32,
        p: u32,
        r: u32,
    ) -> Answer<Option<Reduced>>
        ensures { end_step result rows.new cells.new ≡ along (callees left) d g t p r (machine rows.old cells.old self) }
    {
        let (s1, (path, x)) = self.head(left, rows, cells, d, g, p, Kind::Path)?;
        let Shape::Path(family, b, c) = shape_of(cells, path) else {
            return Err(s1.refused(Refusal::NoPath));
        };
        let (s2, (ty, y)) = s1.transform(left, rows, cells, family, Op::DSubst(0, r))?;
        if let Shape::Plam(_, body) = shape_of(cells, p) {
            return s2.pbeta(left, rows, cells, d, g, t, r, body, ty, x, y);
        }
        // Otherwise it is a side of its type, at a literal end alone.
        match Kind::of(read(cells, r).kind) {
            Kind::I0 => s2.step(left, rows, cells, d, g, t, b, ty, x, y, Rule::EqP0),
            Kind::I1 => s2.step(left, rows, cells, d, g, t, c, ty, x, y, Rule::EqP1),
            _ => Ok((s2, None)),
        }
    }

    // A plam that is applied to `r`.
    #[cycle(typing)]
    pub fn pbeta(
        self,
        left: u32,
        rows: &mut [u32],
        cells: &mut [u32],
        d: u32,
        g: u32,
        t: u32,
        r: u32,
        body: u32,
        ty: u32,
        x: u32,
        y: u32,
    ) -> Answer<Option<Reduced>>
        ensures { end_step result rows.new cells.new ≡ pbeta (callees left) d g t r body ty x y (machine rows.old cells.old self) }
    {
        let (s1, dim) = self.interval(left, rows, cells, d, r)?;
        let (s2, (out, sub)) = s1.transform(left, rows, cells, body, Op::DSubst(0, r))?;
        let (s3, typed) = s2.check(left, rows, cells, d, g, out, ty)?;
        let (s4, row) = s3.emit_eq(
            rows,
            cells,
            Rule::EqPbeta,
            cite([x, dim, y, sub, typed]),
            d,
            g,
            t,
            out,
            ty,
        )?;
        Ok((s4, Some((out, ty, row))))
    }

    // `t` goes to `out`, of a type that its parts have given by the rows `x` and `y`: a side of a path's type, the second part of a pair.
    #[cycle(typing)]
    pub fn step(
        self,
        left: u32,
        rows: &mut [u32],
        cells: &mut [u32],
        d: u32,
        g: u32,
        t: u32,
        out: u32,
        ty: u32,
        x: u32,
        y: u32,
        rule: Rule,
    ) -> Answer<Option<Reduced>>
        ensures { end_step result rows.new cells.new ≡ at_end (callees left) d g t out ty x y (rule_number rule) (machine rows.old cells.old self) }
    {
        let (s1, typed) = self.check(left, rows, cells, d, g, out, ty)?;
        let (s2, row) = s1.emit_eq(rows, cells, rule, cite([x, y, typed]), d, g, t, out, ty)?;
        Ok((s2, Some((out, ty, row))))
    }

    // The term with its root reduced while that goes, and the row of the equation.
    #[cycle(typing)]
    pub fn normalize(
        self,
        left: u32,
        rows: &mut [u32],
        cells: &mut [u32],
        d: u32,
        g: u32,
        t: u32,
        ty: u32,
    ) -> Answer<(u32, u32)>
        ensures { end result rows.new cells.new ≡ (callees left).normalize d g t ty (machine rows.old cells.old self) }
    {
        if left == 0 {
            return Err(self.refused(Refusal::Nesting));
        }
        let down = left - 1;
        let s0 = self.deeper(down);
        let (s1, typed) = s0.check(down, rows, cells, d, g, t, ty)?;
        let (s2, evidence) = s1.emit_eq(rows, cells, Rule::EqRefl, cite([typed]), d, g, t, t, ty)?;
        s2.turns(down, rows, cells, d, g, t, ty, evidence)
    }

    // At most 32 root reductions of `t`, which is equal to itself by the row `evidence`; refuses (15) one more.
    #[cycle(typing)]
    pub fn turns(
        self,
        left: u32,
        rows: &mut [u32],
        cells: &mut [u32],
        d: u32,
        g: u32,
        t: u32,
        ty: u32,
        evidence: u32,
    ) -> Answer<(u32, u32)>
        ensures { end result rows.new cells.new ≡ rounds 32 (callees left) false d g t ty t evidence (machine rows.old cells.old self) }
    {
        let mut s = self;
        let mut current = t;
        let mut row = evidence;
        for _ in 0..32u32 {
            let (s1, reached) = s.turn(left, rows, cells, d, g, t, ty, current, row)?;
            let Some((term, x)) = reached else {
                return Ok((s1, (current, row)));
            };
            s = s1;
            current = term;
            row = x;
        }
        let (s1, further) = s.reduce(left, rows, cells, d, g, current)?;
        match further {
            Some(_) => Err(s1.refused(Refusal::Reductions)),
            None => Ok((s1, (current, row))),
        }
    }

    // One root reduction, at the type wanted; refuses (14) one at a type with another quote.
    #[cycle(typing)]
    pub fn turn(
        self,
        left: u32,
        rows: &mut [u32],
        cells: &mut [u32],
        d: u32,
        g: u32,
        t: u32,
        ty: u32,
        current: u32,
        evidence: u32,
    ) -> Answer<Option<(u32, u32)>>
        ensures { end_maybe result rows.new cells.new ≡ round (callees left) false d g t ty current evidence (machine rows.old cells.old self) }
    {
        let (s1, reduced) = self.reduce(left, rows, cells, d, g, current)?;
        let Some((term, at, step)) = reduced else {
            return Ok((s1, None));
        };
        if !same_quote(cells, at, ty) {
            return Err(s1.refused(Refusal::StepType));
        }
        let (s2, _) = s1.check(left, rows, cells, d, g, term, ty)?;
        let (s3, row) = s2.emit_eq(
            rows,
            cells,
            Rule::EqTrans,
            cite([evidence, step]),
            d,
            g,
            t,
            term,
            ty,
        )?;
        Ok((s3, Some((term, row))))
    }

    // The row that two terms are equal: by their quotes, or by those of their normal forms; refuses (13) where these differ too.
    #[cycle(typing)]
    pub fn equal(
        self,
        left: u32,
        rows: &mut [u32],
        cells: &mut [u32],
        d: u32,
        g: u32,
        a: u32,
        b: u32,
        ty: u32,
    ) -> Answer<u32>
        ensures { end result rows.new cells.new ≡ (callees left).equal d g a b ty (machine rows.old cells.old self) }
    {
        if left == 0 {
            return Err(self.refused(Refusal::Nesting));
        }
        let down = left - 1;
        let s0 = self.deeper(down);
        let (s1, typed) = s0.check(down, rows, cells, d, g, a, ty)?;
        let (s2, _) = s1.check(down, rows, cells, d, g, b, ty)?;
        if same_quote(cells, a, b) {
            return s2.emit_eq(rows, cells, Rule::EqRefl, cite([typed]), d, g, a, b, ty);
        }
        let (s3, (one, x)) = s2.normalize(down, rows, cells, d, g, a, ty)?;
        let (s4, (other, y)) = s3.normalize(down, rows, cells, d, g, b, ty)?;
        if same_quote(cells, one, other) {
            let reversed = cite([y]);
            let (s5, z) = s4.emit_eq(rows, cells, Rule::EqSym, reversed, d, g, other, b, ty)?;
            return s5.emit_eq(rows, cells, Rule::EqTrans, cite([x, z]), d, g, a, b, ty);
        }
        Err(s4.refused(Refusal::Quotes))
    }
}
