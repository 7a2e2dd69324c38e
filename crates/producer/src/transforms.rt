// Transforms of terms: shifts and substitutions, of variables and of dimensions. Each call has less nesting left.
ghost use Rattle.std.specs.Prelude.{◌≡◌};
ghost use Rattle.ast.specs.Kinds.{kind_number};
ghost use Rattle.producer.specs.Answers.{end};
ghost use Rattle.producer.specs.Judgments.{rule_number};
ghost use Rattle.producer.specs.Machine.{machine, intern, make_var};
ghost use Rattle.producer.specs.Transforms.{by_op, rule_of, temit, finished, finish, tvar_shift, tvar_subst, tvar, tinterval, transform_binder, transform_lam, transform_app, transform_path, transform_plam, transform_papp, transform_pair, transform_projection, compound, under_subst};
ghost use Rattle.producer.specs.Calls.{callees};

use crate::State;
use crate::answers::Answer;
use crate::codes::{Judgment, Rule};
use crate::intervals::IOp;
use crate::rows::{Refs, cite, cite_before, cite_first};
use ast::cells::{Cell, Node, quote, read};
use ast::kinds::Kind;
use ast::refusals::Refusal;

// What is done to a term: shift from k, put r for k; of variables, or of dimensions.
#[derive(Clone, Copy)]
pub enum Op {
    Shift(u32),
    Subst(u32, u32),
    DShift(u32),
    DSubst(u32, u32),
}

// A rule for each operation.
#[tactic(auto, unfolding(crate::specs::Transforms::by_op))]
pub fn by_op(op: Op, a: Rule, b: Rule, c: Rule, d: Rule) -> Rule
    ensures { rule_number result ≡ by_op op (rule_number a) (rule_number b) (rule_number c) (rule_number d) }
{
    match op {
        Op::Shift(_) => a,
        Op::Subst(_, _) => b,
        Op::DShift(_) => c,
        Op::DSubst(_, _) => d,
    }
}

// The rule of an operation at a term of a kind. A variable has several, by how it compares with `k`: it is not asked for here, nor is
// what is no term.
#[tactic(auto, unfolding(crate::specs::Transforms::rule_of, crate::specs::Judgments::rule_number))]
pub fn rule_of(op: Op, kind: u32) -> Rule
    ensures { rule_number result ≡ rule_of op kind }
{
    match Kind::of(kind) {
        // written by tools/written.py: rules of a kind
        Kind::Universe => by_op(op, Rule::ShiftU, Rule::SubstU, Rule::DShiftU, Rule::DSubstU),
        Kind::Nat => by_op(
            op,
            Rule::ShiftNat,
            Rule::SubstNat,
            Rule::DShiftNat,
            Rule::DSubstNat,
        ),
        Kind::Zero => by_op(
            op,
            Rule::ShiftZero,
            Rule::SubstZero,
            Rule::DShiftZero,
            Rule::DSubstZero,
        ),
        Kind::Pi => by_op(
            op,
            Rule::ShiftPi,
            Rule::SubstPi,
            Rule::DShiftPi,
            Rule::DSubstPi,
        ),
        Kind::Lam => by_op(
            op,
            Rule::ShiftLam,
            Rule::SubstLam,
            Rule::DShiftLam,
            Rule::DSubstLam,
        ),
        Kind::App => by_op(
            op,
            Rule::ShiftApp,
            Rule::SubstApp,
            Rule::DShiftApp,
            Rule::DSubstApp,
        ),
        Kind::Path => by_op(
            op,
            Rule::ShiftPath,
            Rule::SubstPath,
            Rule::DShiftPath,
            Rule::DSubstPath,
        ),
        Kind::Plam => by_op(
            op,
            Rule::ShiftPlam,
            Rule::SubstPlam,
            Rule::DShiftPlam,
            Rule::DSubstPlam,
        ),
        Kind::Papp => by_op(
            op,
            Rule::ShiftPapp,
            Rule::SubstPapp,
            Rule::DShiftPapp,
            Rule::DSubstPapp,
        ),
        Kind::Sigma => by_op(
            op,
            Rule::ShiftSigma,
            Rule::SubstSigma,
            Rule::DShiftSigma,
            Rule::DSubstSigma,
        ),
        Kind::Pair => by_op(
            op,
            Rule::ShiftPair,
            Rule::SubstPair,
            Rule::DShiftPair,
            Rule::DSubstPair,
        ),
        Kind::Fst => by_op(
            op,
            Rule::ShiftFst,
            Rule::SubstFst,
            Rule::DShiftFst,
            Rule::DSubstFst,
        ),
        Kind::Snd => by_op(
            op,
            Rule::ShiftSnd,
            Rule::SubstSnd,
            Rule::DShiftSnd,
            Rule::DSubstSnd,
        ),
        // end of rules of a kind
        _ => Rule::CtxNil,
    }
}

impl State {
    // The row of a transform, from the quote `p` to the quote `q`.
    #[tactic(auto, unfolding(crate::specs::Transforms::temit, crate::proofs::Steps::steps, crate::proofs::Steps::stated))]
    pub fn temit(
        self,
        rows: &mut [u32],
        cells: &[u32],
        op: Op,
        rule: Rule,
        refs: Refs,
        p: u32,
        q: u32,
    ) -> Answer<u32>
        ensures { end result rows.new cells.now ≡ temit op (rule_number rule) refs p q (machine rows.old cells.now self) }
    {
        match op {
            Op::Shift(k) => self.emit(rows, cells, rule, refs, Judgment::Shift(p, k, q)),
            Op::Subst(k, r) => {
                let s = quote(cells, r);
                self.emit(rows, cells, rule, refs, Judgment::Subst(p, k, s, q))
            }
            Op::DShift(k) => self.emit(rows, cells, rule, refs, Judgment::DShift(p, k, q)),
            Op::DSubst(k, r) => {
                let s = quote(cells, r);
                self.emit(rows, cells, rule, refs, Judgment::DSubst(p, k, s, q))
            }
        }
    }

    // The row, once the result is there.
    #[tactic(auto, unfolding(crate::specs::Transforms::finished, crate::proofs::Steps::steps))]
    pub fn finish(
        self,
        rows: &mut [u32],
        cells: &[u32],
        i: u32,
        op: Op,
        out: u32,
        rule: Rule,
        refs: Refs,
    ) -> Answer<(u32, u32)>
        ensures { end result rows.new cells.now ≡ finished i op out (rule_number rule) refs (machine rows.old cells.now self) }
    {
        let p = quote(cells, i);
        let q = quote(cells, out);
        let (s, row) = self.temit(rows, cells, op, rule, refs, p, q)?;
        Ok((s, (out, row)))
    }

    // The result is made, then the row, by the rule of its kind.
    #[tactic(auto, unfolding(crate::specs::Transforms::finish, crate::specs::Transforms::rule_of, crate::proofs::Steps::steps))]
    pub fn tmake(
        self,
        rows: &mut [u32],
        cells: &mut [u32],
        i: u32,
        op: Op,
        node: Node,
        refs: Refs,
    ) -> Answer<(u32, u32)>
        ensures { end result rows.new cells.new ≡ finish i op (intern node.kind node.a node.b node.c) (rule_of op node.kind) refs (machine rows.old cells.old self) }
    {
        let (s, out) = self.intern(rows, cells, node)?;
        let rule = rule_of(op, node.kind);
        s.finish(rows, cells, i, op, out, rule, refs)
    }

    // The same of a variable, which has a rule for each way that it compares.
    #[tactic(auto, unfolding(crate::specs::Transforms::finish, crate::proofs::Steps::steps, crate::proofs::Steps::stated))]
    pub fn tmake_var(
        self,
        rows: &mut [u32],
        cells: &mut [u32],
        i: u32,
        op: Op,
        n: u32,
        rule: Rule,
        refs: Refs,
    ) -> Answer<(u32, u32)>
        ensures { end result rows.new cells.new ≡ finish i op (make_var n) (rule_number rule) refs (machine rows.old cells.old self) }
    {
        let (s, out) = self.intern(rows, cells, Node::new(Kind::Var, n, 0, 0))?;
        s.finish(rows, cells, i, op, out, rule, refs)
    }

    // The variable `n`, shifted from `k` on.
    #[tactic(auto, unfolding(crate::specs::Transforms::tvar_shift, crate::proofs::Steps::steps, crate::proofs::Steps::stated, ast::specs::Words::up))]
    pub fn tvar_shift(
        self,
        left: u32,
        rows: &mut [u32],
        cells: &mut [u32],
        i: u32,
        n: u32,
        k: u32,
    ) -> Answer<(u32, u32)>
        ensures { end result rows.new cells.new ≡ tvar_shift (callees left) i n k (machine rows.old cells.old self) }
    {
        let op = Op::Shift(k);
        if n < k {
            let (s, x) = self.comparison(left, rows, cells, n, k, true)?;
            return s.finish(rows, cells, i, op, i, Rule::ShiftVLt, cite([x]));
        }
        let (s, x) = self.comparison(left, rows, cells, k, n, false)?;
        s.tmake_var(
            rows,
            cells,
            i,
            op,
            n.wrapping_add(1),
            Rule::ShiftVGe,
            cite([x]),
        )
    }

    // The variable `n`, where `r` is put for `k`.
    #[tactic(auto, unfolding(crate::specs::Transforms::tvar_subst, crate::proofs::Steps::steps, crate::proofs::Steps::stated))]
    pub fn tvar_subst(
        self,
        left: u32,
        rows: &mut [u32],
        cells: &mut [u32],
        i: u32,
        n: u32,
        k: u32,
        r: u32,
    ) -> Answer<(u32, u32)>
        ensures { end result rows.new cells.new ≡ tvar_subst (callees left) i n k r (machine rows.old cells.old self) }
    {
        let op = Op::Subst(k, r);
        if n == k {
            return self.finish(rows, cells, i, op, r, Rule::SubstVHit, cite([]));
        }
        if n < k {
            let (s, x) = self.comparison(left, rows, cells, n, k, true)?;
            return s.finish(rows, cells, i, op, i, Rule::SubstVLt, cite([x]));
        }
        let (s, x) = self.comparison(left, rows, cells, k, n, true)?;
        s.tmake_var(rows, cells, i, op, n - 1, Rule::SubstVGt, cite([x]))
    }

    // The variable `n`.
    #[tactic(auto, unfolding(crate::specs::Transforms::tvar, crate::proofs::Steps::steps, crate::proofs::Steps::stated))]
    pub fn tvar(
        self,
        left: u32,
        rows: &mut [u32],
        cells: &mut [u32],
        i: u32,
        n: u32,
        op: Op,
    ) -> Answer<(u32, u32)>
        ensures { end result rows.new cells.new ≡ tvar (callees left) i n op (machine rows.old cells.old self) }
    {
        match op {
            Op::Shift(k) => self.tvar_shift(left, rows, cells, i, n, k),
            Op::Subst(k, r) => self.tvar_subst(left, rows, cells, i, n, k, r),
            Op::DShift(_) => self.finish(rows, cells, i, op, i, Rule::DShiftV, cite([])),
            Op::DSubst(_, _) => self.finish(rows, cells, i, op, i, Rule::DSubstV, cite([])),
        }
    }

    // The interval of a papp, with the rows that this cites.
    #[tactic(auto, unfolding(crate::specs::Transforms::tinterval, crate::proofs::Steps::steps, crate::proofs::Steps::stated))]
    pub fn tinterval(
        self,
        left: u32,
        rows: &mut [u32],
        cells: &mut [u32],
        r: u32,
        op: Op,
    ) -> Answer<(u32, Refs)>
        ensures { end result rows.new cells.new ≡ tinterval (callees left) r op (machine rows.old cells.old self) }
    {
        let within = match op {
            Op::Shift(_) | Op::Subst(_, _) => return Ok((self, (r, cite([])))),
            Op::DShift(k) => IOp::IShift(k),
            Op::DSubst(k, q) => IOp::ISubst(k, q),
        };
        let (s, (out, x)) = self.itransform(left, rows, cells, r, within)?;
        Ok((s, (out, cite([x]))))
    }

    // The term with its variables or dimensions shifted or substituted: the result, and the row.
    #[cycle(transform)]
    pub fn transform(
        self,
        left: u32,
        rows: &mut [u32],
        cells: &mut [u32],
        i: u32,
        op: Op,
    ) -> Answer<(u32, u32)>
        ensures { end result rows.new cells.new ≡ (callees left).transform i op (machine rows.old cells.old self) }
    {
        if left == 0 {
            return Err(self.refused(Refusal::Nesting));
        }
        let down = left - 1;
        let s0 = self.deeper(down);
        let cell = read(cells, i);
        if let Kind::Var = Kind::of(cell.kind) {
            return s0.tvar(down, rows, cells, i, cell.a, op);
        }
        s0.compound(down, rows, cells, i, op, cell)
    }

    // A term that is no variable: by its kind, and as it is where it has no parts.
    #[cycle(transform)]
    pub fn compound(
        self,
        left: u32,
        rows: &mut [u32],
        cells: &mut [u32],
        i: u32,
        op: Op,
        cell: Cell,
    ) -> Answer<(u32, u32)>
        ensures { end result rows.new cells.new ≡ compound (callees left) i op cell (machine rows.old cells.old self) }
    {
        match Kind::of(cell.kind) {
            Kind::Pi => self.tbinder(left, rows, cells, i, op, Kind::Pi, cell.a, cell.b),
            Kind::Lam => self.tlam(left, rows, cells, i, op, cell.a, cell.b),
            Kind::App => self.tapp(left, rows, cells, i, op, cell.a, cell.b),
            Kind::Path => self.tpath(left, rows, cells, i, op, cell.a, cell.b, cell.c),
            Kind::Plam => self.tplam(left, rows, cells, i, op, cell.a, cell.b),
            Kind::Papp => self.tpapp(left, rows, cells, i, op, cell.a, cell.b),
            Kind::Sigma => self.tbinder(left, rows, cells, i, op, Kind::Sigma, cell.a, cell.b),
            Kind::Pair => self.tpair(left, rows, cells, i, op, cell.a, cell.b, cell.c),
            Kind::Fst => self.tproject(left, rows, cells, i, op, Kind::Fst, cell.a),
            Kind::Snd => self.tproject(left, rows, cells, i, op, Kind::Snd, cell.a),
            _ => self.finish(rows, cells, i, op, i, rule_of(op, cell.kind), cite([])),
        }
    }

    // Two parts, the second under a variable, and both shown: a pi, a sigma.
    #[cycle(transform)]
    pub fn tbinder(
        self,
        left: u32,
        rows: &mut [u32],
        cells: &mut [u32],
        i: u32,
        op: Op,
        kind: Kind,
        a: u32,
        b: u32,
    ) -> Answer<(u32, u32)>
        ensures { end result rows.new cells.new ≡ transform_binder (callees left) i op (kind_number kind) a b (machine rows.old cells.old self) }
    {
        let (s1, (a1, x)) = self.transform(left, rows, cells, a, op)?;
        let (s2, (inner, first)) = s1.under(left, rows, cells, op, false)?;
        let (s3, (b1, y)) = s2.transform(left, rows, cells, b, inner)?;
        let node = Node::new(kind, a1, b1, 0);
        s3.tmake(
            rows,
            cells,
            i,
            op,
            node,
            cite_before(x, cite_first(first, cite([y]))),
        )
    }

    // The annotation is transformed, and its row not cited: the quote lacks it.
    #[cycle(transform)]
    pub fn tlam(
        self,
        left: u32,
        rows: &mut [u32],
        cells: &mut [u32],
        i: u32,
        op: Op,
        a: u32,
        b: u32,
    ) -> Answer<(u32, u32)>
        ensures { end result rows.new cells.new ≡ transform_lam (callees left) i op a b (machine rows.old cells.old self) }
    {
        let (s1, (a1, _)) = self.transform(left, rows, cells, a, op)?;
        let (s2, (inner, first)) = s1.under(left, rows, cells, op, false)?;
        let (s3, (b1, y)) = s2.transform(left, rows, cells, b, inner)?;
        let node = Node::new(Kind::Lam, a1, b1, 0);
        s3.tmake(rows, cells, i, op, node, cite_first(first, cite([y])))
    }

    // An application.
    #[cycle(transform)]
    pub fn tapp(
        self,
        left: u32,
        rows: &mut [u32],
        cells: &mut [u32],
        i: u32,
        op: Op,
        f: u32,
        a: u32,
    ) -> Answer<(u32, u32)>
        ensures { end result rows.new cells.new ≡ transform_app (callees left) i op f a (machine rows.old cells.old self) }
    {
        let (s1, (f1, x)) = self.transform(left, rows, cells, f, op)?;
        let (s2, (a1, y)) = s1.transform(left, rows, cells, a, op)?;
        let node = Node::new(Kind::App, f1, a1, 0);
        s2.tmake(rows, cells, i, op, node, cite([x, y]))
    }

    // A path type: its first part lies under a dimension.
    #[cycle(transform)]
    pub fn tpath(
        self,
        left: u32,
        rows: &mut [u32],
        cells: &mut [u32],
        i: u32,
        op: Op,
        a: u32,
        b: u32,
        c: u32,
    ) -> Answer<(u32, u32)>
        ensures { end result rows.new cells.new ≡ transform_path (callees left) i op a b c (machine rows.old cells.old self) }
    {
        let (s0, (inner, first)) = self.under(left, rows, cells, op, true)?;
        let (s1, (a1, x)) = s0.transform(left, rows, cells, a, inner)?;
        let (s2, (b1, y)) = s1.transform(left, rows, cells, b, op)?;
        let (s3, (c1, z)) = s2.transform(left, rows, cells, c, op)?;
        let node = Node::new(Kind::Path, a1, b1, c1);
        s3.tmake(rows, cells, i, op, node, cite_first(first, cite([x, y, z])))
    }

    // As of a lam, the annotation's row is not cited.
    #[cycle(transform)]
    pub fn tplam(
        self,
        left: u32,
        rows: &mut [u32],
        cells: &mut [u32],
        i: u32,
        op: Op,
        a: u32,
        b: u32,
    ) -> Answer<(u32, u32)>
        ensures { end result rows.new cells.new ≡ transform_plam (callees left) i op a b (machine rows.old cells.old self) }
    {
        let (s0, (inner, first)) = self.under(left, rows, cells, op, true)?;
        let (s1, (a1, _)) = s0.transform(left, rows, cells, a, inner)?;
        let (s2, (b1, y)) = s1.transform(left, rows, cells, b, inner)?;
        let node = Node::new(Kind::Plam, a1, b1, 0);
        s2.tmake(rows, cells, i, op, node, cite_first(first, cite([y])))
    }

    // A path that is applied: its interval has dimensions, and no variables.
    #[cycle(transform)]
    pub fn tpapp(
        self,
        left: u32,
        rows: &mut [u32],
        cells: &mut [u32],
        i: u32,
        op: Op,
        p: u32,
        r: u32,
    ) -> Answer<(u32, u32)>
        ensures { end result rows.new cells.new ≡ transform_papp (callees left) i op p r (machine rows.old cells.old self) }
    {
        let (s1, (p1, x)) = self.transform(left, rows, cells, p, op)?;
        let (s2, (r1, rest)) = s1.tinterval(left, rows, cells, r, op)?;
        let node = Node::new(Kind::Papp, p1, r1, 0);
        s2.tmake(rows, cells, i, op, node, cite_before(x, rest))
    }

    // A pair: as of a lam, the annotation's row is not cited.
    #[cycle(transform)]
    pub fn tpair(
        self,
        left: u32,
        rows: &mut [u32],
        cells: &mut [u32],
        i: u32,
        op: Op,
        ty: u32,
        a: u32,
        b: u32,
    ) -> Answer<(u32, u32)>
        ensures { end result rows.new cells.new ≡ transform_pair (callees left) i op ty a b (machine rows.old cells.old self) }
    {
        let (s1, (ty1, _)) = self.transform(left, rows, cells, ty, op)?;
        let (s2, (a1, x)) = s1.transform(left, rows, cells, a, op)?;
        let (s3, (b1, y)) = s2.transform(left, rows, cells, b, op)?;
        let node = Node::new(Kind::Pair, ty1, a1, b1);
        s3.tmake(rows, cells, i, op, node, cite([x, y]))
    }

    // One part: a projection.
    #[cycle(transform)]
    pub fn tproject(
        self,
        left: u32,
        rows: &mut [u32],
        cells: &mut [u32],
        i: u32,
        op: Op,
        kind: Kind,
        p: u32,
    ) -> Answer<(u32, u32)>
        ensures { end result rows.new cells.new ≡ transform_projection (callees left) i op (kind_number kind) p (machine rows.old cells.old self) }
    {
        let (s1, (p1, x)) = self.transform(left, rows, cells, p, op)?;
        let node = Node::new(kind, p1, 0, 0);
        s1.tmake(rows, cells, i, op, node, cite([x]))
    }

    // The operation under one more binder, of a dimension or of a variable, with the rows that this cites.
    #[cycle(transform)]
    pub fn under(
        self,
        left: u32,
        rows: &mut [u32],
        cells: &mut [u32],
        op: Op,
        dimension: bool,
    ) -> Answer<(Op, Refs)>
        ensures { end result rows.new cells.new ≡ (callees left).under op dimension (machine rows.old cells.old self) }
    {
        if left == 0 {
            return Err(self.refused(Refusal::Nesting));
        }
        let down = left - 1;
        let s0 = self.deeper(down);
        match op {
            Op::Shift(k) => {
                if dimension {
                    return Ok((s0, (op, cite([]))));
                }
                Ok((s0, (Op::Shift(k.wrapping_add(1)), cite([]))))
            }
            Op::Subst(k, r) => s0.under_subst(down, rows, cells, k, r, dimension),
            Op::DShift(k) => {
                if dimension {
                    return Ok((s0, (Op::DShift(k.wrapping_add(1)), cite([]))));
                }
                Ok((s0, (op, cite([]))))
            }
            Op::DSubst(k, r) => {
                if dimension {
                    let (s, (r1, x)) = s0.itransform(down, rows, cells, r, IOp::IShift(0))?;
                    return Ok((s, (Op::DSubst(k.wrapping_add(1), r1), cite([x]))));
                }
                Ok((s0, (op, cite([]))))
            }
        }
    }

    // A substitution under one more binder: the term put is shifted.
    #[cycle(transform)]
    pub fn under_subst(
        self,
        left: u32,
        rows: &mut [u32],
        cells: &mut [u32],
        k: u32,
        r: u32,
        dimension: bool,
    ) -> Answer<(Op, Refs)>
        ensures { end result rows.new cells.new ≡ under_subst (callees left) k r dimension (machine rows.old cells.old self) }
    {
        if dimension {
            let (s, (r1, x)) = self.transform(left, rows, cells, r, Op::DShift(0))?;
            return Ok((s, (Op::Subst(k, r1), cite([x]))));
        }
        let (s, (r1, x)) = self.transform(left, rows, cells, r, Op::Shift(0))?;
        Ok((s, (Op::Subst(k.wrapping_add(1), r1), cite([x]))))
    }
}
