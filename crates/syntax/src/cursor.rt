// The run's reader: its bytes, and an offset in them. Its functions are few and thin: a method leaves the work to a function on the slice
// and the offset, and callers have plain parameters (`limit_of`, `head_at`, `past_at`).
ghost use Rattle.std.specs.Prelude.{◌≡◌, drop};
ghost use Rattle.walk.specs.Reader.{read_head as walk_head, read_limit as walk_limit};
ghost use Rattle.syntax.specs.Told.{head_of, limit_of as told_limit, call_at, next_in, short};

use super::scan::{CallHead, Fault, Unread, read_head, read_limit, skip_call};

#[derive(Clone, Copy)]
pub struct Reader<'a> {
    pub src: &'a [u8],
    pub at: usize,
}

impl<'a> Reader<'a> {
    // A run's bytes, from the first on.
    pub fn new(src: &'a [u8]) -> Reader<'a>
        ensures { (result.src ≡ src.entry) × (result.at ≡ 0) }
    {
        Reader { src, at: 0 }
    }

    // Moved to an offset: that of a call.
    pub fn to(self, at: usize) -> Reader<'a>
        ensures { (result.src ≡ self.entry.src) × (result.at ≡ at) }
    {
        Reader { src: self.src, at }
    }

    // The run's nesting limit, which its first bytes are.
    pub fn limit(self) -> Result<usize, Fault>
        ensures { result ≡ told_limit (walk_limit self.entry.src.now 0) }
    {
        read_limit(self.src)
    }

    // The head of the call here.
    pub fn head(self) -> Result<CallHead, Fault>
        ensures { result ≡ head_of (walk_head (drop self.entry.at self.entry.src.now) self.entry.at) }
    {
        read_head(self.src, self.at)
    }

    // The offset past the call here. What is still to be read stands on the stack that is lent.
    pub fn past(self, stack: &mut [u8]) -> Result<usize, Unread>
        ensures { result ≡ next_in (short stack.old self.entry.src.now) (call_at self.entry.src.now self.entry.at) }
    {
        skip_call(self.src, self.at, stack)
    }
}

// The nesting limit of a run.
pub fn limit_of(s: &[u8]) -> Result<usize, Fault>
    ensures { result ≡ told_limit (walk_limit s.now 0) }
{
    Reader::new(s).limit()
}

// The head of the call at an offset.
pub fn head_at(s: &[u8], at: usize) -> Result<CallHead, Fault>
    ensures { result ≡ head_of (walk_head (drop at s.now) at) }
{
    Reader::new(s).to(at).head()
}

// The offset past the call at an offset.
pub fn past_at(s: &[u8], at: usize, stack: &mut [u8]) -> Result<usize, Unread>
    ensures { result ≡ next_in (short stack.old s.now) (call_at s.now at) }
{
    Reader::new(s).to(at).past(stack)
}
