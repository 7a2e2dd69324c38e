// Reducing at the head: the walk of code 7, and its step. Typing and equality know nothing of it.
ghost use Rattle.std.specs.Prelude.{◌≡◌, true};
ghost use Rattle.producer.specs.Answers.{end, end_step, end_maybe};
ghost use Rattle.producer.specs.Judgments.{rule_number};
ghost use Rattle.producer.specs.Machine.{machine};
ghost use Rattle.producer.specs.Equality.{round, rounds};
ghost use Rattle.producer.specs.Heads.{head_goes, congruent, app_at, app_cong, papp_at, papp_cong, at_head};
ghost use Rattle.producer.specs.Calls.{callees};

use crate::State;
use crate::answers::{Answer, Reduced};
use crate::codes::Rule;
use crate::rows::cite;
use crate::transforms::Op;
use ast::cells::{Node, Shape, read, same_quote, shape_of};
use ast::kinds::Kind;
use ast::refusals::Refusal;

impl State {
    // The term with its root and its heads reduced while that goes, and the row of the equation. It is `normalize` written again, which so
    // keeps its instructions.
    pub fn head_normalize(
        self,
        left: u32,
        rows: &mut [u32],
        cells: &mut [u32],
        d: u32,
        g: u32,
        t: u32,
        ty: u32,
    ) -> Answer<(u32, u32)>
        ensures { end result rows.new cells.new ≡ (callees left).head_normalize d g t ty (machine rows.old cells.old self) }
    {
        if left == 0 {
            return Err(self.refused(Refusal::Nesting));
        }
        let down = left - 1;
        let s0 = self.deeper(down);
        let (s1, typed) = s0.check(down, rows, cells, d, g, t, ty)?;
        let (s2, evidence) = s1.emit_eq(rows, cells, Rule::EqRefl, cite([typed]), d, g, t, t, ty)?;
        s2.head_turns(down, rows, cells, d, g, t, ty, evidence)
    }

    // At most 32 steps of `t`, which is equal to itself by the row `evidence`; refuses (15) one more.
    pub fn head_turns(
        self,
        left: u32,
        rows: &mut [u32],
        cells: &mut [u32],
        d: u32,
        g: u32,
        t: u32,
        ty: u32,
        evidence: u32,
    ) -> Answer<(u32, u32)>
        ensures { end result rows.new cells.new ≡ rounds 32 (callees left) true d g t ty t evidence (machine rows.old cells.old self) }
    {
        let mut s = self;
        let mut current = t;
        let mut row = evidence;
        for _ in 0..32u32 {
            let (s1, reached) = s.head_turn(left, rows, cells, d, g, t, ty, current, row)?;
            let Some((term, x)) = reached else {
                return Ok((s1, (current, row)));
            };
            s = s1;
            current = term;
            row = x;
        }
        let (s1, further) = s.head_step(left, rows, cells, d, g, current)?;
        match further {
            Some(_) => Err(s1.refused(Refusal::Reductions)),
            None => Ok((s1, (current, row))),
        }
    }

    // One step, at the type wanted; refuses (14) one at a type with another quote.
    #[tactic(auto, unfolding(crate::specs::Equality::round, crate::proofs::Steps::steps, crate::proofs::Steps::stated))]
    pub fn head_turn(
        self,
        left: u32,
        rows: &mut [u32],
        cells: &mut [u32],
        d: u32,
        g: u32,
        t: u32,
        ty: u32,
        current: u32,
        evidence: u32,
    ) -> Answer<Option<(u32, u32)>>
        ensures { end_maybe result rows.new cells.new ≡ round (callees left) true d g t ty current evidence (machine rows.old cells.old self) }
    {
        let (s1, reduced) = self.head_step(left, rows, cells, d, g, current)?;
        let Some((term, at, step)) = reduced else {
            return Ok((s1, None));
        };
        if !same_quote(cells, at, ty) {
            return Err(s1.refused(Refusal::StepType));
        }
        let (s2, _) = s1.check(left, rows, cells, d, g, term, ty)?;
        let (s3, row) = s2.emit_eq(
            rows,
            cells,
            Rule::EqTrans,
            cite([evidence, step]),
            d,
            g,
            t,
            term,
            ty,
        )?;
        Ok((s3, Some((term, row))))
    }

    // A step at the root, or where there is none at the head.
    #[cycle(heads)]
    pub fn head_step(
        self,
        left: u32,
        rows: &mut [u32],
        cells: &mut [u32],
        d: u32,
        g: u32,
        t: u32,
    ) -> Answer<Option<Reduced>>
        ensures { end_step result rows.new cells.new ≡ (callees left).head_step d g t (machine rows.old cells.old self) }
    {
        if left == 0 {
            return Err(self.refused(Refusal::Nesting));
        }
        let down = left - 1;
        let s0 = self.deeper(down);
        let (s1, found) = s0.reduce(down, rows, cells, d, g, t)?;
        let Some((term, ty, row)) = found else {
            return s1.at_head(down, rows, cells, d, g, t);
        };
        Ok((s1, Some((term, ty, row))))
    }

    // A step at the head, which an app and a papp alone have.
    #[cycle(heads)]
    pub fn at_head(
        self,
        left: u32,
        rows: &mut [u32],
        cells: &mut [u32],
        d: u32,
        g: u32,
        t: u32,
    ) -> Answer<Option<Reduced>>
        ensures { end_step result rows.new cells.new ≡ at_head (callees left) d g t (machine rows.old cells.old self) }
    {
        let cell = read(cells, t);
        match Kind::of(cell.kind) {
            Kind::App => self.app_cong(left, rows, cells, d, g, t, cell.a, cell.b),
            Kind::Papp => self.papp_cong(left, rows, cells, d, g, t, cell.a, cell.b),
            _ => Ok((self, None)),
        }
    }

    // An app whose function goes a step, at its pi type.
    #[cycle(heads)]
    pub fn app_cong(
        self,
        left: u32,
        rows: &mut [u32],
        cells: &mut [u32],
        d: u32,
        g: u32,
        t: u32,
        f: u32,
        a: u32,
    ) -> Answer<Option<Reduced>>
        ensures { end_step result rows.new cells.new ≡ app_cong (callees left) d g t f a (machine rows.old cells.old self) }
    {
        let (s1, (pi, _)) = self.head(left, rows, cells, d, g, f, Kind::Pi)?;
        let Shape::Pi(domain, codomain) = shape_of(cells, pi) else {
            return Err(s1.refused(Refusal::NoFunction));
        };
        let (s2, gone) = s1.head_goes(left, rows, cells, d, g, f, pi)?;
        let Some((out, eq)) = gone else {
            return Ok((s2, None));
        };
        s2.app_at(left, rows, cells, d, g, t, out, a, domain, codomain, eq)
    }

    // The function of the app `t` goes to `f` by the row `eq`, at the pi type with these parts.
    #[tactic(auto, unfolding(crate::specs::Heads::app_at, crate::proofs::Steps::steps, crate::proofs::Steps::stated))]
    pub fn app_at(
        self,
        left: u32,
        rows: &mut [u32],
        cells: &mut [u32],
        d: u32,
        g: u32,
        t: u32,
        f: u32,
        a: u32,
        domain: u32,
        codomain: u32,
        eq: u32,
    ) -> Answer<Option<Reduced>>
        ensures { end_step result rows.new cells.new ≡ app_at (callees left) d g t f a domain codomain eq (machine rows.old cells.old self) }
    {
        let (s1, arg) = self.check(left, rows, cells, d, g, a, domain)?;
        let (s2, (ty, sub)) = s1.transform(left, rows, cells, codomain, Op::Subst(0, a))?;
        let (s3, x) = s2.check(left, rows, cells, d, g, t, ty)?;
        let node = Node::new(Kind::App, f, a, 0);
        let (s4, out) = s3.prepare(left, rows, cells, node)?;
        s4.congruent(
            left,
            rows,
            cells,
            d,
            g,
            t,
            out,
            ty,
            eq,
            arg,
            sub,
            x,
            Rule::EqAppCong,
        )
    }

    // A papp whose path goes a step, at its path type.
    #[cycle(heads)]
    pub fn papp_cong(
        self,
        left: u32,
        rows: &mut [u32],
        cells: &mut [u32],
        d: u32,
        g: u32,
        t: u32,
        p: u32,
        r: u32,
    ) -> Answer<Option<Reduced>>
        ensures { end_step result rows.new cells.new ≡ papp_cong (callees left) d g t p r (machine rows.old cells.old self) }
    {
        let (s1, (path, _)) = self.head(left, rows, cells, d, g, p, Kind::Path)?;
        let Shape::Path(family, _, _) = shape_of(cells, path) else {
            return Err(s1.refused(Refusal::NoPath));
        };
        let (s2, gone) = s1.head_goes(left, rows, cells, d, g, p, path)?;
        let Some((out, eq)) = gone else {
            return Ok((s2, None));
        };
        s2.papp_at(left, rows, cells, d, g, t, out, r, family, eq)
    }

    // The path of the papp `t` goes to `p` by the row `eq`, at the path type with this family.
    #[tactic(auto, unfolding(crate::specs::Heads::papp_at, crate::proofs::Steps::steps, crate::proofs::Steps::stated))]
    pub fn papp_at(
        self,
        left: u32,
        rows: &mut [u32],
        cells: &mut [u32],
        d: u32,
        g: u32,
        t: u32,
        p: u32,
        r: u32,
        family: u32,
        eq: u32,
    ) -> Answer<Option<Reduced>>
        ensures { end_step result rows.new cells.new ≡ papp_at (callees left) d g t p r family eq (machine rows.old cells.old self) }
    {
        let (s1, dim) = self.interval(left, rows, cells, d, r)?;
        let (s2, (ty, sub)) = s1.transform(left, rows, cells, family, Op::DSubst(0, r))?;
        let (s3, x) = s2.check(left, rows, cells, d, g, t, ty)?;
        let node = Node::new(Kind::Papp, p, r, 0);
        let (s4, out) = s3.prepare(left, rows, cells, node)?;
        s4.congruent(
            left,
            rows,
            cells,
            d,
            g,
            t,
            out,
            ty,
            eq,
            dim,
            sub,
            x,
            Rule::EqPappCong,
        )
    }

    // What the head `f`, of the type `ty`, goes to, with the row; refuses (14) a step at a type with another quote.
    #[cycle(heads)]
    pub fn head_goes(
        self,
        left: u32,
        rows: &mut [u32],
        cells: &mut [u32],
        d: u32,
        g: u32,
        f: u32,
        ty: u32,
    ) -> Answer<Option<(u32, u32)>>
        ensures { end_maybe result rows.new cells.new ≡ head_goes (callees left) d g f ty (machine rows.old cells.old self) }
    {
        let (s1, found) = self.head_step(left, rows, cells, d, g, f)?;
        let Some((term, at, row)) = found else {
            return Ok((s1, None));
        };
        if !same_quote(cells, at, ty) {
            return Err(s1.refused(Refusal::StepType));
        }
        Ok((s1, Some((term, row))))
    }

    // `t` goes to `out`, which is `t` but for its head; `t` has the type `ty` by the row `x`.
    #[tactic(auto, unfolding(crate::specs::Heads::congruent, crate::proofs::Steps::steps, crate::proofs::Steps::stated))]
    pub fn congruent(
        self,
        left: u32,
        rows: &mut [u32],
        cells: &mut [u32],
        d: u32,
        g: u32,
        t: u32,
        out: u32,
        ty: u32,
        eq: u32,
        other: u32,
        sub: u32,
        x: u32,
        rule: Rule,
    ) -> Answer<Option<Reduced>>
        ensures { end_step result rows.new cells.new ≡ congruent (callees left) d g t out ty eq other sub x (rule_number rule) (machine rows.old cells.old self) }
    {
        let (s1, y) = self.check(left, rows, cells, d, g, out, ty)?;
        let refs = cite([eq, other, sub, x, y]);
        let (s2, row) = s1.emit_eq(rows, cells, rule, refs, d, g, t, out, ty)?;
        Ok((s2, Some((out, ty, row))))
    }
}
