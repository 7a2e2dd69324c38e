// Typing: contexts, inference, universes, checks, exposed types. With equality.rt these form one cycle of calls;
// a reference function is entered with one less nesting left, and an arm of one keeps what is left.
ghost use Rattle.std.specs.Prelude.{◌≡◌};
ghost use Rattle.ast.specs.Kinds.{kind_number};
ghost use Rattle.producer.specs.Answers.{end, end_found};
ghost use Rattle.producer.specs.Judgments.{rule_number};
ghost use Rattle.producer.specs.Machine.{machine};
ghost use Rattle.producer.specs.Typing.{exposed, headed, converted, find_atom, find_var, find_binder, find_lam, find_app, ends, find_path, find_plam, find_papp, find_pair, find_fst, find_snd, find};
ghost use Rattle.producer.specs.Calls.{callees};

use crate::State;
use crate::answers::{Answer, Inferred, ended};
use crate::codes::{Judgment, Rule};
use crate::rows::cite;
use crate::transforms::Op;
use ast::cells::{Node, Shape, read, recall, same_quote, shape_of};
use ast::kinds::Kind;
use ast::refusals::Refusal;

impl State {
    // The row of a context: a known one answers its row.
    #[cycle(typing)]
    pub fn ctx(self, left: u32, rows: &mut [u32], cells: &mut [u32], d: u32, g: u32) -> Answer<u32>
        ensures { end result rows.new cells.new ≡ (callees left).ctx d g (machine rows.old cells.old self) }
    {
        if left == 0 {
            return Err(self.refused(Refusal::Nesting));
        }
        let down = left - 1;
        let s0 = self.deeper(down);
        let cell = read(cells, g);
        match s0.known(rows, Judgment::Ctx(d, cell.quote)) {
            Some(i) => Ok((s0, i)),
            None => {
                if let Kind::Nil = Kind::of(cell.kind) {
                    return s0.emit(
                        rows,
                        cells,
                        Rule::CtxNil,
                        cite([]),
                        Judgment::Ctx(d, cell.quote),
                    );
                }
                let (s1, x) = s0.ctx(down, rows, cells, d, cell.b)?;
                let (s2, (_, y)) = s1.universe(down, rows, cells, d, cell.b, cell.a)?;
                s2.emit(
                    rows,
                    cells,
                    Rule::CtxCons,
                    cite([x, y]),
                    Judgment::Ctx(d, cell.quote),
                )
            }
        }
    }

    // The type with its head exposed, and the row that the term has it.
    #[cycle(typing)]
    pub fn expose(
        self,
        left: u32,
        rows: &mut [u32],
        cells: &mut [u32],
        d: u32,
        g: u32,
        t: u32,
        ty: u32,
        typed: u32,
    ) -> Answer<(u32, u32)>
        ensures { end result rows.new cells.new ≡ (callees left).expose d g t ty typed (machine rows.old cells.old self) }
    {
        if left == 0 {
            return Err(self.refused(Refusal::Nesting));
        }
        let down = left - 1;
        let s0 = self.deeper(down);
        let (s1, (level, _)) = s0.universe(down, rows, cells, d, g, ty)?;
        let universe = Node::new(Kind::Universe, level, 0, 0);
        let (s2, u) = s1.prepare(down, rows, cells, universe)?;
        let (s3, (normal, x)) = s2.normalize(down, rows, cells, d, g, ty, u)?;
        if same_quote(cells, normal, ty) {
            return Ok((s3, (normal, typed)));
        }
        let (s4, v) = s3.prepare(down, rows, cells, universe)?;
        let (s5, formed) = s4.check(down, rows, cells, d, g, normal, v)?;
        let (s6, row) = s5.emit_has(
            rows,
            cells,
            Rule::TypeConv,
            cite([typed, x, formed]),
            d,
            g,
            t,
            normal,
        )?;
        Ok((s6, (normal, row)))
    }

    // The level of a type, and the row that it has it; refuses (11) a term that is no type.
    #[cycle(typing)]
    pub fn universe(
        self,
        left: u32,
        rows: &mut [u32],
        cells: &mut [u32],
        d: u32,
        g: u32,
        t: u32,
    ) -> Answer<(u32, u32)>
        ensures { end result rows.new cells.new ≡ (callees left).universe d g t (machine rows.old cells.old self) }
    {
        if left == 0 {
            return Err(self.refused(Refusal::Nesting));
        }
        let down = left - 1;
        let s0 = self.deeper(down);
        let (s1, (ty, row)) = s0.infer(down, rows, cells, d, g, t)?;
        if let Shape::Universe(level) = shape_of(cells, ty) {
            return Ok((s1, (level, row)));
        }
        if 32 <= s1.conversions {
            return Err(s1.refused(Refusal::Conversions));
        }
        let s2 = s1.converting(s1.conversions + 1);
        ended(s2.sort(down, rows, cells, d, g, t, ty, row))
    }

    // The level of a type that has its universe only once exposed.
    #[cycle(typing)]
    pub fn sort(
        self,
        left: u32,
        rows: &mut [u32],
        cells: &mut [u32],
        d: u32,
        g: u32,
        t: u32,
        ty: u32,
        row: u32,
    ) -> Answer<(u32, u32)>
        ensures { end result rows.new cells.new ≡ exposed (callees left) d g t ty row (machine rows.old cells.old self) }
    {
        let (s, (normal, typed)) = self.expose(left, rows, cells, d, g, t, ty, row)?;
        let Shape::Universe(level) = shape_of(cells, normal) else {
            return Err(s.refused(Refusal::NoType));
        };
        Ok((s, (level, typed)))
    }

    // The row that the term has the type.
    #[cycle(typing)]
    pub fn check(
        self,
        left: u32,
        rows: &mut [u32],
        cells: &mut [u32],
        d: u32,
        g: u32,
        t: u32,
        expected: u32,
    ) -> Answer<u32>
        ensures { end result rows.new cells.new ≡ (callees left).check d g t expected (machine rows.old cells.old self) }
    {
        if left == 0 {
            return Err(self.refused(Refusal::Nesting));
        }
        let down = left - 1;
        let s0 = self.deeper(down);
        let (s1, (actual, row)) = s0.infer(down, rows, cells, d, g, t)?;
        if same_quote(cells, actual, expected) {
            return Ok((s1, row));
        }
        if 32 <= s1.conversions {
            return Err(s1.refused(Refusal::Conversions));
        }
        let s2 = s1.converting(s1.conversions + 1);
        ended(s2.conv(down, rows, cells, d, g, t, actual, expected, row))
    }

    // A term of the one type has the other too; refuses (12) where their levels differ.
    #[cycle(typing)]
    pub fn conv(
        self,
        left: u32,
        rows: &mut [u32],
        cells: &mut [u32],
        d: u32,
        g: u32,
        t: u32,
        actual: u32,
        expected: u32,
        row: u32,
    ) -> Answer<u32>
        ensures { end result rows.new cells.new ≡ converted (callees left) d g t actual expected row (machine rows.old cells.old self) }
    {
        let (s1, (i, _)) = self.universe(left, rows, cells, d, g, actual)?;
        let (s2, (j, formed)) = s1.universe(left, rows, cells, d, g, expected)?;
        if i != j {
            return Err(s2.refused(Refusal::Levels));
        }
        let (s3, u) = s2.prepare(left, rows, cells, Node::new(Kind::Universe, i, 0, 0))?;
        let (s4, equality) = s3.equal(left, rows, cells, d, g, actual, expected, u)?;
        s4.emit_has(
            rows,
            cells,
            Rule::TypeConv,
            cite([row, equality, formed]),
            d,
            g,
            t,
            expected,
        )
    }

    // The type of a term, its head exposed, as a conversion, where it is not of the kind wanted, and the row that the term has it.
    #[cycle(typing)]
    pub fn head(
        self,
        left: u32,
        rows: &mut [u32],
        cells: &mut [u32],
        d: u32,
        g: u32,
        t: u32,
        kind: Kind,
    ) -> Answer<(u32, u32)>
        ensures { end result rows.new cells.new ≡ headed (callees left) (kind_number kind) d g t (machine rows.old cells.old self) }
    {
        let (s1, (ty, row)) = self.infer(left, rows, cells, d, g, t)?;
        if read(cells, ty).kind == kind.number() {
            return Ok((s1, (ty, row)));
        }
        if 32 <= s1.conversions {
            return Err(s1.refused(Refusal::Conversions));
        }
        let s2 = s1.converting(s1.conversions + 1);
        ended(s2.expose(left, rows, cells, d, g, t, ty, row))
    }

    // The type of a term, and the row that it has it: what is remembered, or found anew.
    #[cycle(typing)]
    pub fn infer(
        self,
        left: u32,
        rows: &mut [u32],
        cells: &mut [u32],
        d: u32,
        g: u32,
        t: u32,
    ) -> Answer<(u32, u32)>
        ensures { end result rows.new cells.new ≡ (callees left).infer d g t (machine rows.old cells.old self) }
    {
        if left == 0 {
            return Err(self.refused(Refusal::Nesting));
        }
        let down = left - 1;
        let s0 = self.deeper(down);
        match recall(cells, s0.cells, d, g, t) {
            Some(known) => Ok((s0, known)),
            None => {
                let (s1, (ty, refs, rule)) = s0.find(down, rows, cells, d, g, t)?;
                let (s2, row) = s1.emit_has(rows, cells, rule, refs, d, g, t, ty)?;
                let s3 = s2.remember(rows, cells, d, g, t, ty, row)?;
                Ok((s3, (ty, row)))
            }
        }
    }

    // The type of a term, the rows to cite and the rule.
    #[cycle(typing)]
    pub fn find(
        self,
        left: u32,
        rows: &mut [u32],
        cells: &mut [u32],
        d: u32,
        g: u32,
        t: u32,
    ) -> Answer<Inferred>
        ensures { end_found result rows.new cells.new ≡ find (callees left) d g t (machine rows.old cells.old self) }
    {
        let cell = read(cells, t);
        match Kind::of(cell.kind) {
            Kind::Universe => {
                let up = cell.a.wrapping_add(1);
                self.atom(left, rows, cells, d, g, Kind::Universe, up, Rule::TypeU)
            }
            Kind::Var => self.var(left, rows, cells, d, g, cell.a),
            Kind::Nat => self.atom(left, rows, cells, d, g, Kind::Universe, 0, Rule::TypeNat),
            Kind::Zero => self.atom(left, rows, cells, d, g, Kind::Nat, 0, Rule::TypeZero),
            Kind::Pi => self.pi(left, rows, cells, d, g, cell.a, cell.b, Rule::TypePi),
            Kind::Lam => self.lam(left, rows, cells, d, g, cell.a, cell.b),
            Kind::App => self.app(left, rows, cells, d, g, cell.a, cell.b),
            Kind::Path => self.path(left, rows, cells, d, g, cell.a, cell.b, cell.c),
            Kind::Plam => self.plam(left, rows, cells, d, g, cell.a, cell.b),
            Kind::Sigma => self.pi(left, rows, cells, d, g, cell.a, cell.b, Rule::TypeSigma),
            Kind::Pair => self.pair(left, rows, cells, d, g, cell.a, cell.b, cell.c),
            Kind::Fst => self.fst(left, rows, cells, d, g, cell.a),
            Kind::Snd => self.snd(left, rows, cells, d, g, cell.a),
            _ => self.papp(left, rows, cells, d, g, cell.a, cell.b),
        }
    }

    // A universe, nat or zero: the type is a cell of the kind with the number.
    #[cycle(typing)]
    pub fn atom(
        self,
        left: u32,
        rows: &mut [u32],
        cells: &mut [u32],
        d: u32,
        g: u32,
        kind: Kind,
        n: u32,
        rule: Rule,
    ) -> Answer<Inferred>
        ensures { end_found result rows.new cells.new ≡ find_atom (callees left) d g (kind_number kind) n (rule_number rule) (machine rows.old cells.old self) }
    {
        let (s1, x) = self.ctx(left, rows, cells, d, g)?;
        let (s2, ty) = s1.intern(rows, cells, Node::new(kind, n, 0, 0))?;
        Ok((s2, (ty, cite([x]), rule)))
    }

    // A variable has the type that the context gives it.
    #[cycle(typing)]
    pub fn var(
        self,
        left: u32,
        rows: &mut [u32],
        cells: &mut [u32],
        d: u32,
        g: u32,
        n: u32,
    ) -> Answer<Inferred>
        ensures { end_found result rows.new cells.new ≡ find_var (callees left) d g n (machine rows.old cells.old self) }
    {
        let (s1, x) = self.ctx(left, rows, cells, d, g)?;
        let (s2, (ty, y)) = s1.lookup(left, rows, cells, g, n)?;
        Ok((s2, (ty, cite([x, y]), Rule::TypeV)))
    }

    // Two types, the second under a variable of the first, as in a pi or a sigma: this lies in the greater of their universes.
    #[cycle(typing)]
    pub fn pi(
        self,
        left: u32,
        rows: &mut [u32],
        cells: &mut [u32],
        d: u32,
        g: u32,
        a: u32,
        b: u32,
        rule: Rule,
    ) -> Answer<Inferred>
        ensures { end_found result rows.new cells.new ≡ find_binder (callees left) d g a b (rule_number rule) (machine rows.old cells.old self) }
    {
        let (s1, (i, x)) = self.universe(left, rows, cells, d, g, a)?;
        let (s2, h) = s1.prepare(left, rows, cells, Node::new(Kind::Cons, a, g, 0))?;
        let (s3, (j, y)) = s2.universe(left, rows, cells, d, h, b)?;
        let (s4, z) = s3.max(left, rows, cells, i, j)?;
        let top = i.max(j);
        let (s5, ty) = s4.intern(rows, cells, Node::new(Kind::Universe, top, 0, 0))?;
        Ok((s5, (ty, cite([x, y, z]), rule)))
    }

    // A lam has the pi from its annotation to the type of its body.
    #[cycle(typing)]
    pub fn lam(
        self,
        left: u32,
        rows: &mut [u32],
        cells: &mut [u32],
        d: u32,
        g: u32,
        a: u32,
        body: u32,
    ) -> Answer<Inferred>
        ensures { end_found result rows.new cells.new ≡ find_lam (callees left) d g a body (machine rows.old cells.old self) }
    {
        let (s1, (_, x)) = self.universe(left, rows, cells, d, g, a)?;
        let context = Node::new(Kind::Cons, a, g, 0);
        let (s2, h) = s1.prepare(left, rows, cells, context)?;
        let (s3, (b, y)) = s2.infer(left, rows, cells, d, h, body)?;
        let (s4, k) = s3.prepare(left, rows, cells, context)?;
        let (s5, (_, z)) = s4.universe(left, rows, cells, d, k, b)?;
        let (s6, ty) = s5.intern(rows, cells, Node::new(Kind::Pi, a, b, 0))?;
        Ok((s6, (ty, cite([x, y, z]), Rule::TypeLam)))
    }

    // An application has the codomain, with the argument put in.
    #[cycle(typing)]
    pub fn app(
        self,
        left: u32,
        rows: &mut [u32],
        cells: &mut [u32],
        d: u32,
        g: u32,
        f: u32,
        a: u32,
    ) -> Answer<Inferred>
        ensures { end_found result rows.new cells.new ≡ find_app (callees left) d g f a (machine rows.old cells.old self) }
    {
        let (s1, (pi, x)) = self.head(left, rows, cells, d, g, f, Kind::Pi)?;
        let Shape::Pi(domain, codomain) = shape_of(cells, pi) else {
            return Err(s1.refused(Refusal::NoFunction));
        };
        let (s2, y) = s1.check(left, rows, cells, d, g, a, domain)?;
        let (s3, (out, z)) = s2.transform(left, rows, cells, codomain, Op::Subst(0, a))?;
        Ok((s3, (out, cite([x, y, z]), Rule::TypeApp)))
    }

    // Both ends of a term: at i0, and at i1.
    #[tactic(auto, unfolding(crate::specs::Typing::ends, crate::proofs::Steps::steps, crate::proofs::Steps::stated))]
    pub fn ends(
        self,
        left: u32,
        rows: &mut [u32],
        cells: &mut [u32],
        t: u32,
    ) -> Answer<(u32, u32, u32, u32)>
        ensures { end result rows.new cells.new ≡ ends (callees left) t (machine rows.old cells.old self) }
    {
        let (s1, i0) = self.prepare(left, rows, cells, Node::new(Kind::I0, 0, 0, 0))?;
        let (s2, (low, x)) = s1.transform(left, rows, cells, t, Op::DSubst(0, i0))?;
        let (s3, i1) = s2.prepare(left, rows, cells, Node::new(Kind::I1, 0, 0, 0))?;
        let (s4, (high, y)) = s3.transform(left, rows, cells, t, Op::DSubst(0, i1))?;
        Ok((s4, (low, high, x, y)))
    }

    // A path type lies in the universe of its family.
    #[cycle(typing)]
    pub fn path(
        self,
        left: u32,
        rows: &mut [u32],
        cells: &mut [u32],
        d: u32,
        g: u32,
        a: u32,
        b: u32,
        c: u32,
    ) -> Answer<Inferred>
        ensures { end_found result rows.new cells.new ≡ find_path (callees left) d g a b c (machine rows.old cells.old self) }
    {
        let (s1, x0) = self.ctx(left, rows, cells, d, g)?;
        let (s2, (inner, x1)) = s1.dshiftctx(left, rows, cells, g)?;
        let up = d.wrapping_add(1);
        let (s3, (level, x2)) = s2.universe(left, rows, cells, up, inner, a)?;
        let (s4, (low, high, x3, x4)) = s3.ends(left, rows, cells, a)?;
        let (s5, x5) = s4.check(left, rows, cells, d, g, b, low)?;
        let (s6, x6) = s5.check(left, rows, cells, d, g, c, high)?;
        let (s7, ty) = s6.intern(rows, cells, Node::new(Kind::Universe, level, 0, 0))?;
        Ok((s7, (ty, cite([x0, x1, x2, x3, x4, x5, x6]), Rule::TypePath)))
    }

    // A plam has the path type between the ends of its body.
    #[cycle(typing)]
    pub fn plam(
        self,
        left: u32,
        rows: &mut [u32],
        cells: &mut [u32],
        d: u32,
        g: u32,
        a: u32,
        body: u32,
    ) -> Answer<Inferred>
        ensures { end_found result rows.new cells.new ≡ find_plam (callees left) d g a body (machine rows.old cells.old self) }
    {
        let (s1, x0) = self.ctx(left, rows, cells, d, g)?;
        let (s2, (inner, x1)) = s1.dshiftctx(left, rows, cells, g)?;
        let up = d.wrapping_add(1);
        let (s3, (_, x2)) = s2.universe(left, rows, cells, up, inner, a)?;
        let (s4, x3) = s3.check(left, rows, cells, up, inner, body, a)?;
        let (s5, (a0, a1, x4, x5)) = s4.ends(left, rows, cells, a)?;
        let (s6, (t0, t1, x6, x7)) = s5.ends(left, rows, cells, body)?;
        let (s7, x8) = s6.check(left, rows, cells, d, g, t0, a0)?;
        let (s8, x9) = s7.check(left, rows, cells, d, g, t1, a1)?;
        let (s9, ty) = s8.intern(rows, cells, Node::new(Kind::Path, a, t0, t1))?;
        Ok((
            s9,
            (
                ty,
                cite([x0, x1, x2, x3, x4, x5, x6, x7, x8, x9]),
                Rule::TypePlam,
            ),
        ))
    }

    // A path that is applied has the family, with the interval put in.
    #[cycle(typing)]
    pub fn papp(
        self,
        left: u32,
        rows: &mut [u32],
        cells: &mut [u32],
        d: u32,
        g: u32,
        p: u32,
        r: u32,
    ) -> Answer<Inferred>
        ensures { end_found result rows.new cells.new ≡ find_papp (callees left) d g p r (machine rows.old cells.old self) }
    {
        let (s1, (path, x)) = self.head(left, rows, cells, d, g, p, Kind::Path)?;
        let Shape::Path(family, _, _) = shape_of(cells, path) else {
            return Err(s1.refused(Refusal::NoPath));
        };
        let (s2, y) = s1.interval(left, rows, cells, d, r)?;
        let (s3, (out, z)) = s2.transform(left, rows, cells, family, Op::DSubst(0, r))?;
        let (s4, (_, u)) = s3.universe(left, rows, cells, d, g, out)?;
        Ok((s4, (out, cite([x, y, z, u]), Rule::TypePapp)))
    }

    // A pair has the sigma type that it is annotated with; refuses (22) an annotation that is not written as one.
    #[cycle(typing)]
    pub fn pair(
        self,
        left: u32,
        rows: &mut [u32],
        cells: &mut [u32],
        d: u32,
        g: u32,
        ty: u32,
        a: u32,
        b: u32,
    ) -> Answer<Inferred>
        ensures { end_found result rows.new cells.new ≡ find_pair (callees left) d g ty a b (machine rows.old cells.old self) }
    {
        let Shape::Sigma(ta, tb) = shape_of(cells, ty) else {
            return Err(self.refused(Refusal::Annotation));
        };
        let (s1, (_, x0)) = self.universe(left, rows, cells, d, g, ta)?;
        let (s2, h) = s1.prepare(left, rows, cells, Node::new(Kind::Cons, ta, g, 0))?;
        let (s3, (level, x1)) = s2.universe(left, rows, cells, d, h, tb)?;
        let (s4, x2) = s3.check(left, rows, cells, d, g, a, ta)?;
        let (s5, (out, x3)) = s4.transform(left, rows, cells, tb, Op::Subst(0, a))?;
        let (s6, u) = s5.prepare(left, rows, cells, Node::new(Kind::Universe, level, 0, 0))?;
        let (s7, x4) = s6.check(left, rows, cells, d, g, out, u)?;
        let (s8, x5) = s7.check(left, rows, cells, d, g, b, out)?;
        Ok((s8, (ty, cite([x0, x1, x2, x3, x4, x5]), Rule::TypePair)))
    }

    // The first projection has the sigma's first type.
    #[cycle(typing)]
    pub fn fst(
        self,
        left: u32,
        rows: &mut [u32],
        cells: &mut [u32],
        d: u32,
        g: u32,
        p: u32,
    ) -> Answer<Inferred>
        ensures { end_found result rows.new cells.new ≡ find_fst (callees left) d g p (machine rows.old cells.old self) }
    {
        let (s1, (sigma, x)) = self.head(left, rows, cells, d, g, p, Kind::Sigma)?;
        let Shape::Sigma(ta, _) = shape_of(cells, sigma) else {
            return Err(s1.refused(Refusal::NoSigma));
        };
        let (s2, (_, y)) = s1.universe(left, rows, cells, d, g, ta)?;
        Ok((s2, (ta, cite([x, y]), Rule::TypeFst)))
    }

    // The second projection has the sigma's second type, with the first projection put in.
    #[cycle(typing)]
    pub fn snd(
        self,
        left: u32,
        rows: &mut [u32],
        cells: &mut [u32],
        d: u32,
        g: u32,
        p: u32,
    ) -> Answer<Inferred>
        ensures { end_found result rows.new cells.new ≡ find_snd (callees left) d g p (machine rows.old cells.old self) }
    {
        let (s1, (sigma, x)) = self.head(left, rows, cells, d, g, p, Kind::Sigma)?;
        let Shape::Sigma(_, tb) = shape_of(cells, sigma) else {
            return Err(s1.refused(Refusal::NoSigma));
        };
        let (s2, first) = s1.prepare(left, rows, cells, Node::new(Kind::Fst, p, 0, 0))?;
        let (s3, (out, y)) = s2.transform(left, rows, cells, tb, Op::Subst(0, first))?;
        let (s4, (_, z)) = s3.universe(left, rows, cells, d, g, out)?;
        Ok((s4, (out, cite([x, y, z]), Rule::TypeSnd)))
    }
}
