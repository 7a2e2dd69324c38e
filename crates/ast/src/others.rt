// The numbers that no refusal has.
// Written by tools/written.py from tools/language.py; `python3 tools/written.py` makes it again.
ghost use Rattle.std.specs.Prelude.{◌<◌};

// A number that is no refusal's. So a refusal is one value alone, and who is promised its number is promised which it is.
#[derive(Clone, Copy, Debug, PartialEq, Eq)]
pub struct OtherRefusal {
    pub number: u32,
    ghost none: { 0 < number → 23 < number },
}
