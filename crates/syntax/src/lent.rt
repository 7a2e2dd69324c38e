// A run's bytes with the stack that is lent for them, and the room that it was seen to have.
ghost use Rattle.std.specs.Prelude.{◌≡◌, ◌+◌, ◌*◌, ◌≤◌, length, true, false, MatchResult};
ghost use Rattle.syntax.specs.Told.{short};
ghost use Rattle.syntax.specs.declared.scan.Unread.TheVariants.{Short};

use super::scan::Unread;

// Two bytes of stack for each byte of the longest run, and one more.
pub const STACK: usize = 131073;

// What is still to be read stands on the stack, and its contents do not matter.
#[derive(Drop)]
pub(crate) struct Lent<'a> {
    pub bytes: &'a [u8],
    pub stack: &'a mut [u8],
    ghost room: { 2 * length bytes.now + 1 ≤ length stack.now },
}

impl<'a> Lent<'a> {
    // The bytes with a stack that has room for them.
    pub fn new(bytes: &'a [u8], stack: &'a mut [u8]) -> Result<Lent<'a>, Unread>
        ensures { MatchResult result (λ lent. (short stack.old bytes.now ≡ false) × (lent.bytes ≡ bytes.entry)) (λ unread. (short stack.old bytes.now ≡ true) × (unread ≡ Short)) }
    {
        if stack.len() < 2 * bytes.len() + 1 {
            return Err(Unread::Short);
        }
        Ok(Lent { bytes, stack })
    }
}
