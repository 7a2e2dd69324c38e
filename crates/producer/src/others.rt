// The numbers that no rule has.
// Written by tools/written.py from tools/language.py; `python3 tools/written.py` makes it again.
ghost use Rattle.std.specs.Prelude.{◌≤◌};

// A number that is no rule's. So a rule is one value alone, and who is promised its number is promised which it is.
#[derive(Clone, Copy)]
pub struct OtherRule {
    pub number: u32,
    ghost none: { 126 ≤ number },
}
