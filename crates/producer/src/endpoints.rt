// Endpoints: the end that an interval works out to.
ghost use Rattle.std.specs.Prelude.{◌≡◌};
ghost use Rattle.ast.specs.Kinds.{kind_number, kind_of};
ghost use Rattle.producer.specs.Answers.{end_maybe};
ghost use Rattle.producer.specs.Judgments.{rule_number};
ghost use Rattle.producer.specs.Machine.{machine};
ghost use Rattle.producer.specs.Endpoints.{end_kind, other_end, same_end, by_end, worked_out, right_part, two_parts};
ghost use Rattle.producer.specs.Equality.{val_rule, long_end};
ghost use Rattle.producer.specs.Calls.{callees};

use crate::State;
use crate::answers::Answer;
use crate::codes::{Judgment, Rule};
use crate::rows::{Refs, cite};
use ast::cells::{Node, Shape, quote, read, shape_of};
use ast::kinds::Kind;
use ast::refusals::Refusal;

// An end of the interval.
#[derive(Clone, Copy)]
pub enum End {
    I0,
    I1,
}

impl End {
    // The kind of its node.
    #[tactic(auto, unfolding(crate::specs::Endpoints::end_kind, ast::specs::Kinds::kind_number, ast::specs::Kinds::kind_of, ast::specs::Kinds::kind_in))]
    pub fn kind(self) -> Kind
        ensures is { result ≡ kind_of (end_kind self) }
        ensures number { kind_number result ≡ end_kind self }
    {
        match self {
            End::I0 => Kind::I0,
            End::I1 => Kind::I1,
        }
    }

    // The other one.
    #[tactic(auto, unfolding(crate::specs::Endpoints::other_end))]
    pub fn other(self) -> End
        ensures { result ≡ other_end self }
    {
        match self {
            End::I0 => End::I1,
            End::I1 => End::I0,
        }
    }

    // Whether it is this one.
    #[tactic(auto, unfolding(crate::specs::Endpoints::same_end))]
    pub fn is(self, end: End) -> bool
        ensures { result ≡ same_end self end }
    {
        match self {
            End::I0 => match end {
                End::I0 => true,
                End::I1 => false,
            },
            End::I1 => match end {
                End::I0 => false,
                End::I1 => true,
            },
        }
    }

    // The side of a path's type there, of the two.
    #[tactic(auto, unfolding(crate::specs::Endpoints::by_end))]
    pub fn side(self, b: u32, c: u32) -> u32
        ensures { result ≡ by_end self b c }
    {
        match self {
            End::I0 => b,
            End::I1 => c,
        }
    }

    // The rule by which a papp goes there, at an interval that works out to it.
    #[tactic(auto, unfolding(crate::specs::Equality::val_rule, crate::specs::Endpoints::by_end, crate::specs::Judgments::rule_number))]
    pub fn rule(self) -> Rule
        ensures { rule_number result ≡ val_rule self }
    {
        match self {
            End::I0 => Rule::EqP0Val,
            End::I1 => Rule::EqP1Val,
        }
    }
}

impl State {
    // The end that `r` works out to, with the row that says so; none where it is no endpoint.
    #[cycle(endpoint)]
    pub fn endpoint(
        self,
        left: u32,
        rows: &mut [u32],
        cells: &mut [u32],
        r: u32,
    ) -> Answer<Option<(End, u32)>>
        ensures { end_maybe result rows.new cells.new ≡ (callees left).endpoint r (machine rows.old cells.old self) }
    {
        if left == 0 {
            return Err(self.refused(Refusal::Nesting));
        }
        let down = left - 1;
        let s0 = self.deeper(down);
        let cell = read(cells, r);
        match Kind::of(cell.kind) {
            Kind::I0 => s0.iend(rows, cells, cell.quote, End::I0, Rule::Iend0, cite([])),
            Kind::I1 => s0.iend(rows, cells, cell.quote, End::I1, Rule::Iend1, cite([])),
            Kind::Dim => Ok((s0, None)),
            Kind::Neg => {
                let (s1, end) = s0.endpoint(down, rows, cells, cell.a)?;
                let Some((e, x)) = end else {
                    return Ok((s1, None));
                };
                s1.iend(rows, cells, cell.quote, e.other(), Rule::IendNeg, cite([x]))
            }
            Kind::Meet => {
                let rule = Rule::IendMeet;
                s0.two_parts(down, rows, cells, cell.quote, cell.a, cell.b, End::I0, rule)
            }
            _ => {
                let rule = Rule::IendJoin;
                s0.two_parts(down, rows, cells, cell.quote, cell.a, cell.b, End::I1, rule)
            }
        }
    }

    // A meet or a join, with the quote `q`: one part alone decides it where that is the end `enough`.
    #[cycle(endpoint)]
    pub fn two_parts(
        self,
        left: u32,
        rows: &mut [u32],
        cells: &mut [u32],
        q: u32,
        a: u32,
        b: u32,
        enough: End,
        rule: Rule,
    ) -> Answer<Option<(End, u32)>>
        ensures { end_maybe result rows.new cells.new ≡ two_parts (callees left) q a b enough (rule_number rule) (machine rows.old cells.old self) }
    {
        let (s1, end) = self.endpoint(left, rows, cells, a)?;
        let Some((e, x)) = end else {
            return s1.right_part(left, rows, cells, q, b, enough, rule, None);
        };
        if e.is(enough) {
            return s1.iend(rows, cells, q, enough, rule, cite([x]));
        }
        s1.right_part(left, rows, cells, q, b, enough, rule, Some(x))
    }

    // Its right part, where the left one was not enough: `first` is the left one's row where that is an end.
    #[cycle(endpoint)]
    pub fn right_part(
        self,
        left: u32,
        rows: &mut [u32],
        cells: &mut [u32],
        q: u32,
        b: u32,
        enough: End,
        rule: Rule,
        first: Option<u32>,
    ) -> Answer<Option<(End, u32)>>
        ensures { end_maybe result rows.new cells.new ≡ right_part (callees left) q b enough (rule_number rule) first (machine rows.old cells.old self) }
    {
        let (s1, end) = self.endpoint(left, rows, cells, b)?;
        let Some((e, y)) = end else {
            return Ok((s1, None));
        };
        if e.is(enough) {
            return s1.iend(rows, cells, q, enough, rule, cite([y]));
        }
        let Some(x) = first else {
            return Ok((s1, None));
        };
        s1.iend(rows, cells, q, enough.other(), rule, cite([x, y]))
    }

    // The row that an interval with the quote `q` works out to `e`: the end is made, then the row.
    #[tactic(auto, unfolding(crate::specs::Endpoints::worked_out, crate::proofs::Steps::steps, crate::proofs::Steps::stated))]
    pub fn iend(
        self,
        rows: &mut [u32],
        cells: &mut [u32],
        q: u32,
        e: End,
        rule: Rule,
        refs: Refs,
    ) -> Answer<Option<(End, u32)>>
        ensures { end_maybe result rows.new cells.new ≡ worked_out q e (rule_number rule) refs (machine rows.old cells.old self) }
    {
        let node = Node::new(e.kind(), 0, 0, 0);
        let (s1, out) = self.intern(rows, cells, node)?;
        let p = quote(cells, out);
        let (s2, row) = s1.emit(rows, cells, rule, refs, Judgment::Iend(q, p))?;
        Ok((s2, Some((e, row))))
    }

    // What the interval `r` of a papp works out to, where that is asked for: not of a plam, nor where an end is written.
    #[tactic(auto, unfolding(crate::specs::Equality::long_end, crate::proofs::Steps::steps))]
    pub fn long_end(
        self,
        left: u32,
        rows: &mut [u32],
        cells: &mut [u32],
        p: u32,
        r: u32,
    ) -> Answer<Option<(End, u32)>>
        ensures { end_maybe result rows.new cells.new ≡ long_end (callees left) p r (machine rows.old cells.old self) }
    {
        if let Shape::Plam(_, _) = shape_of(cells, p) {
            return Ok((self, None));
        }
        match Kind::of(read(cells, r).kind) {
            Kind::I0 => Ok((self, None)),
            Kind::I1 => Ok((self, None)),
            _ => self.endpoint(left, rows, cells, r),
        }
    }
}
