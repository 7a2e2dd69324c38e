// The limits of a call, refusals 5 to 7, in one prefix walk of its bytes: syntax.rs.
ghost use Rattle.std.specs.Prelude.{◌≡◌, ◌||◌, ◌+◌, ◌*◌, ◌≤◌, ltb, leb, length};
ghost use Rattle.walk.specs.Limits.{size_term as walk_size, size_terms as walk_sizes, size_call as walk_call};
ghost use Rattle.syntax.specs.Told.{term_at, terms_at, call_at, HeadAt, short, size_of, size_in, size_type, size_draft, size_draft_in, unread_at};
ghost use Rattle.syntax.specs.Parts.{Counts};
ghost use Rattle.syntax.specs.declared.limits.Unfit.TheVariants.{Unread as NotRead};

use super::cursor::head_at;
use super::lent::Lent;
use super::parts::{Due, Part, push};
use super::scan::{CallHead, Fault, Unread, terms_after};
use ast::refusals::Refusal;

// A call within the limits: its head, its nodes and the offset past it.
#[derive(Clone, Copy, Debug, PartialEq, Eq)]
pub struct Fitting {
    pub head: CallHead,
    pub nodes: usize,
    pub next: usize,
}

// A call that is not: its refusal and the offset past it; or it cannot be read, or the stack has no room.
#[derive(Clone, Copy, Debug, PartialEq, Eq)]
pub enum Unfit {
    Refused(Refusal, usize),
    Unread(Unread),
}

impl From<Unread> for Unfit {
    ghost from_gives = { λ unread unfit. unfit ≡ NotRead unread };

    fn from(unread: Unread) -> Unfit {
        Unfit::Unread(unread)
    }
}

impl From<Fault> for Unfit {
    ghost from_gives = { λ fault unfit. unfit ≡ NotRead (unread_at fault) };

    fn from(fault: Fault) -> Unfit {
        Unfit::Unread(Unread::Bad(fault.place))
    }
}

// What was counted: the nodes so far, and the offset reached.
#[derive(Clone, Copy)]
pub(crate) struct Counted {
    pub nodes: usize,
    pub next: usize,
}

// Why counting ended before: a refusal, or the place of a fault.
#[derive(Clone, Copy)]
pub(crate) enum Uncounted {
    Refused(Refusal),
    Bad(usize),
}

// Whether a node at this depth, after so many nodes, passes a limit.
fn limits(depth: u8, nodes: usize) -> bool
    ensures { result ≡ (ltb 32 depth || leb 10000 nodes) }
{
    if 32 < depth {
        return true;
    }
    10000 <= nodes
}

impl Lent<'_> {
    // The size of one term after so many nodes, at depth 0. A word of the stack is a part and three times its depth.
    #[inline(always)]
    fn term_size(&mut self, from: usize, before: usize) -> Result<Counted, Uncounted>
        ensures same { self.new.bytes ≡ self.old.bytes }
        ensures size { Counts (λ t. walk_size t 0 before) (term_at self.old.bytes.now from) result }
    {
        let s = self.bytes;
        let stack = &mut *self.stack;
        stack[0] = Part::Term.word(0);
        let mut height: usize = 1;
        let mut at = from;
        let mut nodes = before;
        while 0 < height {
            if s.len() <= at {
                return Err(Uncounted::Bad(at));
            }
            let top = height - 1;
            let due = Due::of(stack[top]);
            let b = s[at];
            if let Part::Index = due.part {
                if 32 < b {
                    return Err(Uncounted::Refused(Refusal::Index));
                }
                height = top;
                at = at + 1;
            } else {
                if limits(due.depth, nodes) {
                    return Err(Uncounted::Refused(Refusal::Size));
                }
                let Some(parts) = due.part.after(b) else {
                    return Err(Uncounted::Bad(at));
                };
                height = push(stack, top, parts, due.depth + 1);
                nodes = nodes + 1;
                at = at + 1;
            }
        }
        Ok(Counted { nodes, next: at })
    }

    // That of so many terms, one after the other, from no nodes.
    #[inline(always)]
    fn terms_size(&mut self, from: usize, count: usize) -> Result<Counted, Uncounted>
        ensures same { self.new.bytes ≡ self.old.bytes }
        ensures size { Counts (λ ts. walk_sizes ts 0) (terms_at count self.old.bytes.now from) result }
    {
        let mut counted = Counted {
            nodes: 0,
            next: from,
        };
        for _ in 0..count {
            counted = self.term_size(counted.next, counted.nodes)?;
        }
        Ok(counted)
    }

    // That of the call at an offset, whose head was read: its dimension count and context length, then its terms.
    #[tactic(auto, using(crate::proofs::Counts::dims_over, crate::proofs::Counts::size_over_33, crate::proofs::Counts::within))]
    #[inline(always)]
    fn call_size(&mut self, from: usize, head: CallHead) -> Result<Counted, Uncounted>
        requires { HeadAt self.old.bytes.now from head }
        ensures same { self.new.bytes ≡ self.old.bytes }
        ensures size { Counts walk_call (call_at self.old.bytes.now from) result }
    {
        if 33 < head.dims {
            return Err(Uncounted::Refused(Refusal::Scope));
        }
        if 33 < head.size {
            return Err(Uncounted::Refused(Refusal::Scope));
        }
        self.terms_size(from + 3, terms_after(head))
    }

    // Whether the call at an offset is within the limits. One that is gets passed over once: only where one is refused, its end is still to
    // be found.
    #[tactic(auto, unfolding(crate::specs::Told::size_in), using(crate::proofs::Counts::size_none, crate::proofs::Counts::size_bad))]
    #[inline(always)]
    fn fitting(&mut self, from: usize) -> Result<Fitting, Unfit>
        ensures same { self.new.bytes ≡ self.old.bytes }
        ensures value { result ≡ size_of (call_at self.old.bytes.now from) }
    {
        let head = head_at(self.bytes, from)?;
        match self.call_size(from, head) {
            Ok(counted) => Ok(Fitting {
                head,
                nodes: counted.nodes,
                next: counted.next,
            }),
            Err(Uncounted::Bad(place)) => Err(Unfit::Unread(Unread::Bad(place))),
            Err(Uncounted::Refused(refusal)) => {
                let next = self.call(from)?;
                Err(Unfit::Refused(refusal, next))
            }
        }
    }

    // Whether the type at an offset is, after so many nodes of a call with this head. As above, its end is looked for where it is refused.
    fn type_fitting(&mut self, ty: usize, head: CallHead, nodes: usize) -> Result<Fitting, Unfit>
        ensures { result ≡ size_type head nodes (term_at self.old.bytes.now ty) }
    {
        match self.term_size(ty, nodes) {
            Ok(counted) => {
                let Counted { nodes, next } = counted;
                Ok(Fitting { head, nodes, next })
            }
            Err(Uncounted::Bad(place)) => Err(Unfit::Unread(Unread::Bad(place))),
            Err(Uncounted::Refused(refusal)) => {
                let next = self.term(ty)?;
                Err(Unfit::Refused(refusal, next))
            }
        }
    }

    // Whether the check of the call at an offset, which has its term alone, at the type at another is: their nodes are counted on.
    #[tactic(auto, using(crate::proofs::Drafts::draft_fits, crate::proofs::Drafts::draft_refused, crate::proofs::Drafts::draft_untyped, crate::proofs::Drafts::draft_unread))]
    fn draft_fitting(&mut self, from: usize, ty: usize) -> Result<Fitting, Unfit>
        ensures { result ≡ size_draft (call_at self.old.bytes.now from) (term_at self.old.bytes.now ty) }
    {
        match self.fitting(from) {
            Ok(call) => self.type_fitting(ty, call.head, call.nodes),
            Err(Unfit::Unread(unread)) => Err(Unfit::Unread(unread)),
            Err(Unfit::Refused(refusal, _)) => {
                let next = self.term(ty)?;
                Err(Unfit::Refused(refusal, next))
            }
        }
    }
}

// The call at an offset.
#[tactic(auto, unfolding(crate::specs::Told::size_in))]
pub fn size_call(s: &[u8], from: usize, stack: &mut [u8]) -> Result<Fitting, Unfit>
    ensures { result ≡ size_in (short stack.old s.now) (call_at s.now from) }
{
    Lent::new(s, stack)?.fitting(from)
}

// The check of the call at an offset, which has its term alone, at the type at another.
#[tactic(auto, unfolding(crate::specs::Told::size_draft_in))]
pub fn size_draft(s: &[u8], from: usize, ty: usize, stack: &mut [u8]) -> Result<Fitting, Unfit>
    ensures { result ≡ size_draft_in (short stack.old s.now) (call_at s.now from) (term_at s.now ty) }
{
    Lent::new(s, stack)?.draft_fitting(from, ty)
}
