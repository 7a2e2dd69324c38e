// What is sent with one code: a call; or, with code 6, a call and many types after it, which are a check each.
ghost use Rattle.std.specs.Prelude.{◌≡◌, ◌&&◌, leb};
ghost use Rattle.syntax.specs.Told.{short};
ghost use Rattle.syntax.specs.Sent.{calls_sent, types_of, sent_of, sent_in};

use super::cursor::head_at;
use super::lent::Lent;
use super::scan::{Unread, byte_at};

// The checks that a call with many types is: where its first type starts, and how many there are.
#[derive(Clone, Copy, Debug, PartialEq, Eq)]
pub struct Checks {
    pub first: usize,
    pub count: usize,
}

// The offset past what is sent, and the checks that it is. With none it is one call: of a code with no types after it, or with a wrong
// count of them.
#[derive(Clone, Copy, Debug, PartialEq, Eq)]
pub struct Sent {
    pub next: usize,
    pub checks: Option<Checks>,
}

impl Sent {
    // How many calls it is.
    #[tactic(auto, unfolding(crate::specs::Sent::calls_sent))]
    pub fn calls(self) -> usize
        ensures { result ≡ calls_sent self }
    {
        match self.checks {
            Some(checks) => checks.count,
            None => 1,
        }
    }
}

// Whether so many types are a check each.
fn right(count: usize) -> bool
    ensures { result ≡ (leb 1 count && leb count 16) }
{
    if count < 1 {
        return false;
    }
    count <= 16
}

impl Lent<'_> {
    // The many types whose count stands at an offset.
    #[tactic(auto, using(crate::proofs::Sends::no_types, crate::proofs::Sends::types_stop, crate::proofs::Sends::types_many, crate::proofs::Sends::types_one, crate::proofs::Bytes::found))]
    fn drafts(&mut self, at: usize) -> Result<Sent, Unread>
        ensures same { self.new.bytes ≡ self.old.bytes }
        ensures value { result ≡ types_of self.old.bytes.now at }
    {
        let count = usize::from(byte_at(self.bytes, at)?);
        let first = at + 1;
        let next = self.terms(first, count)?;
        if right(count) {
            return Ok(Sent {
                next,
                checks: Some(Checks { first, count }),
            });
        }
        Ok(Sent { next, checks: None })
    }

    // What is sent at an offset: the call is passed over, and then its types are.
    #[tactic(auto, using(crate::proofs::Sends::no_head, crate::proofs::Sends::sent_unread, crate::proofs::Sends::with_types, crate::proofs::Sends::no_more))]
    #[inline(always)]
    fn one_sent(&mut self, from: usize) -> Result<Sent, Unread>
        ensures { result ≡ sent_of self.old.bytes.now from }
    {
        let head = head_at(self.bytes, from)?;
        let next = self.call(from)?;
        if head.code.lists_types() {
            return self.drafts(next);
        }
        Ok(Sent { next, checks: None })
    }
}

// What is sent at an offset.
#[tactic(auto, unfolding(crate::specs::Sent::sent_in))]
#[inline(always)]
pub fn sent_at(s: &[u8], from: usize, stack: &mut [u8]) -> Result<Sent, Unread>
    ensures { result ≡ sent_in (short stack.old s.now) s.now from }
{
    Lent::new(s, stack)?.one_sent(from)
}
