// Reads a run without making its terms: where each thing ends, or the leftmost place of refusal 3. Terms nest as deep as
// the bytes go, so what is still to be read stands on a stack that is lent, and its contents do not matter.
ghost use Rattle.std.specs.Prelude.{◌≡◌, ◌≤◌, length, drop, get_or};
ghost use Rattle.std.proofs.Math.Option.{none};
ghost use Rattle.walk.specs.Reader.{codes, byte, read_head as walk_head, read_limit as walk_limit, read_calls};
ghost use Rattle.syntax.specs.Told.{term_at, terms_at, call_at, short, next_of, next_in, head_of, terms_in, many_terms, limit_of, counted, scanned, unread_at, refused_unread, value_of};

use super::calls::Code;
use super::cursor::{head_at, limit_of};
use super::lent::{Lent, STACK};
use super::parts::{Part, push};
use super::sent::sent_at;
use ast::refusals::Refusal;

// Where a run cannot be read: the leftmost byte that may not stand there, or the run's end.
#[derive(Clone, Copy, Debug, PartialEq, Eq)]
pub struct Fault {
    pub place: usize,
}

// Why the offset past a thing was not found: the place of a fault, or no room: the stack has under 2 * length + 1 bytes.
#[derive(Clone, Copy, Debug, PartialEq, Eq)]
pub enum Unread {
    Bad(usize),
    Short,
}

impl From<Fault> for Unread {
    ghost from_gives = { λ fault unread. unread ≡ unread_at fault };

    fn from(fault: Fault) -> Unread {
        Unread::Bad(fault.place)
    }
}

// A call's first three bytes: its code, its dimension count and the length of its context.
#[derive(Clone, Copy, Debug, PartialEq, Eq)]
pub struct CallHead {
    pub code: Code,
    pub dims: u8,
    pub size: u8,
}

// A run that was read: its nesting limit and the number of its calls.
#[derive(Clone, Copy, Debug, PartialEq, Eq)]
pub struct Scanned {
    pub limit: usize,
    pub calls: usize,
}

// A run that is refused as a whole, with the place that the refusal has.
#[derive(Clone, Copy, Debug, PartialEq, Eq)]
pub struct RefusedRun {
    pub refusal: Refusal,
    pub place: usize,
}

impl From<Fault> for RefusedRun {
    ghost from_gives = { λ fault refused. refused ≡ refused_unread (unread_at fault) };

    fn from(fault: Fault) -> RefusedRun {
        RefusedRun {
            refusal: Refusal::Unread,
            place: fault.place,
        }
    }
}

// A stack without room for the run has room for no run that is short enough.
impl From<Unread> for RefusedRun {
    ghost from_gives = { λ unread refused. refused ≡ refused_unread unread };

    fn from(unread: Unread) -> RefusedRun {
        match unread {
            Unread::Bad(place) => RefusedRun {
                refusal: Refusal::Unread,
                place,
            },
            Unread::Short => RefusedRun {
                refusal: Refusal::Bytes,
                place: 0,
            },
        }
    }
}

impl Lent<'_> {
    // One term from an offset on. A word of the stack is a part.
    pub fn term(&mut self, from: usize) -> Result<usize, Unread>
        ensures same { self.new.bytes ≡ self.old.bytes }
        ensures value { result ≡ next_of (term_at self.old.bytes.now from) }
    {
        let s = self.bytes;
        let stack = &mut *self.stack;
        stack[0] = Part::Term.word(0);
        let mut height: usize = 1;
        let mut at = from;
        while 0 < height {
            if s.len() <= at {
                return Err(Unread::Bad(at));
            }
            let top = height - 1;
            let due = Part::of(stack[top]);
            let Some(parts) = due.after(s[at]) else {
                return Err(Unread::Bad(at));
            };
            height = push(stack, top, parts, 0);
            at = at + 1;
        }
        Ok(at)
    }

    // So many terms, one after the other.
    #[tactic(auto, using(crate::proofs::Terms::terms_on, crate::proofs::Terms::terms_done))]
    #[inline(always)]
    pub fn terms(&mut self, from: usize, count: usize) -> Result<usize, Unread>
        ensures same { self.new.bytes ≡ self.old.bytes }
        ensures value { result ≡ next_of (terms_at count self.old.bytes.now from) }
    {
        let mut at = from;
        for _ in 0..count {
            at = self.term(at)?;
        }
        Ok(at)
    }

    // One call from an offset on.
    #[tactic(auto, using(crate::proofs::Terms::call_no_head, crate::proofs::Terms::call_on))]
    #[inline(always)]
    pub fn call(&mut self, from: usize) -> Result<usize, Unread>
        ensures same { self.new.bytes ≡ self.old.bytes }
        ensures value { result ≡ next_of (call_at self.old.bytes.now from) }
    {
        let head = head_at(self.bytes, from)?;
        self.terms(from + 3, terms_after(head))
    }
}

// One term from an offset on.
#[tactic(auto, unfolding(crate::specs::Told::next_in))]
pub fn skip_term(s: &[u8], from: usize, stack: &mut [u8]) -> Result<usize, Unread>
    ensures { result ≡ next_in (short stack.old s.now) (term_at s.now from) }
{
    Lent::new(s, stack)?.term(from)
}

// How many terms follow the context of a call with this code: none where no call has it.
#[tactic(auto, unfolding(crate::specs::Told::terms_in), using(crate::proofs::Bytes::terms_told, crate::proofs::Bytes::no_code_found))]
pub fn terms_of(code: u8) -> usize
    ensures { result ≡ terms_in (get_or codes code none) }
{
    match Code::of(code) {
        Some(code) => code.terms(),
        None => 0,
    }
}

// How many terms follow a head, the types of its context among them.
pub(crate) fn terms_after(head: CallHead) -> usize
    ensures { result ≡ many_terms head }
{
    usize::from(head.size) + head.code.terms()
}

// The byte at an offset.
#[tactic(auto, using(crate::proofs::Bytes::byte_here, crate::proofs::Bytes::no_byte))]
pub(crate) fn byte_at(s: &[u8], at: usize) -> Result<u8, Fault>
    ensures { result ≡ value_of (byte (drop at s.now) at) }
{
    if s.len() <= at {
        return Err(Fault { place: at });
    }
    Ok(s[at])
}

// The head of the call at an offset: what a `Reader` reads.
#[tactic(auto, unfolding(crate::specs::Told::head_of), using(crate::specs::Heads::head_none, crate::proofs::Bytes::found, crate::proofs::Bytes::missed))]
pub fn read_head(s: &[u8], from: usize) -> Result<CallHead, Fault>
    ensures { result ≡ head_of (walk_head (drop from s.now) from) }
{
    let first = byte_at(s, from)?;
    let Some(code) = Code::of(first) else {
        return Err(Fault { place: from });
    };
    let dims = byte_at(s, from + 1)?;
    let size = byte_at(s, from + 2)?;
    Ok(CallHead { code, dims, size })
}

// One call from an offset on.
#[tactic(auto, unfolding(crate::specs::Told::next_in))]
pub fn skip_call(s: &[u8], from: usize, stack: &mut [u8]) -> Result<usize, Unread>
    ensures { result ≡ next_in (short stack.old s.now) (call_at s.now from) }
{
    Lent::new(s, stack)?.call(from)
}

pub fn read_limit(s: &[u8]) -> Result<usize, Fault>
    ensures { result ≡ limit_of (walk_limit s.now 0) }
{
    let low = byte_at(s, 0)?;
    let high = byte_at(s, 1)?;
    let limit = usize::from(low) + 256 * usize::from(high);
    if limit < 1 {
        return Err(Fault { place: 0 });
    }
    if 4096 < limit {
        return Err(Fault { place: 0 });
    }
    Ok(limit)
}

// The calls after the nesting limit.
#[tactic(auto, using(crate::proofs::Runs::passed_far, crate::proofs::Runs::calls_bad, crate::proofs::Runs::calls_done, crate::proofs::Runs::room))]
fn count_calls(s: &[u8], limit: usize) -> Result<Scanned, RefusedRun>
    requires { length s.now ≤ 65536 }
    ensures { result ≡ counted limit 0 (read_calls (length s.now) (length s.now) (drop 2 s.now) 2) }
{
    let mut stack = [0u8; STACK];
    let mut at: usize = 2;
    let mut calls: usize = 0;
    while at < s.len() {
        let sent = sent_at(s, at, &mut stack)?;
        calls = calls + sent.calls();
        at = sent.next;
    }
    Ok(Scanned { limit, calls })
}

// A whole run: refusals 2 and 3, or its limit and the number of its calls.
#[tactic(auto, unfolding(crate::specs::Told::unless_long), using(crate::proofs::Runs::run_bad, crate::proofs::Runs::run_on))]
pub fn scan_run(s: &[u8]) -> Result<Scanned, RefusedRun>
    ensures { result ≡ scanned s.now }
{
    if 65536 < s.len() {
        return Err(RefusedRun {
            refusal: Refusal::Bytes,
            place: 0,
        });
    }
    let limit = limit_of(s)?;
    count_calls(s, limit)
}
