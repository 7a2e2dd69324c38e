// The codes of calls: docs/FORMAT.md.
// Written by tools/written.py from tools/language.py; `python3 tools/written.py` makes it again.
ghost use Rattle.std.specs.Prelude.{◌≡◌, get_or};
ghost use Rattle.std.proofs.Math.Option.{none};
ghost use Rattle.walk.specs.Reader.{codes, terms_of, lists_types};
ghost use Rattle.syntax.specs.Told.{code_number, code_of, code_in};

#[derive(Clone, Copy, Debug, PartialEq, Eq)]
pub enum Code {
    Context = 0,
    Universe = 1,
    Infer = 2,
    Check = 3,
    Normalise = 4,
    Equal = 5,
    Many = 6,
    Headwise = 7,
}

impl Code {
    // The code that this byte is.
    #[tactic(auto, unfolding(crate::specs::Told::code_in))]
    pub fn of(byte: u8) -> Option<Code>
        ensures { result ≡ code_in (get_or codes byte none) }
    {
        match byte {
            0 => Some(Code::Context),
            1 => Some(Code::Universe),
            2 => Some(Code::Infer),
            3 => Some(Code::Check),
            4 => Some(Code::Normalise),
            5 => Some(Code::Equal),
            6 => Some(Code::Many),
            7 => Some(Code::Headwise),
            _ => None,
        }
    }

    // The byte that it is.
    #[tactic(auto, unfolding(crate::specs::Told::code_of))]
    pub fn number(self) -> u8
        ensures { result ≡ code_number (code_of self) }
    {
        self as u8
    }

    // How many terms follow the context of a call with this code.
    pub fn terms(self) -> usize
        ensures { result ≡ terms_of (code_of self) }
    {
        match self {
            Code::Context => 0,
            Code::Universe => 1,
            Code::Infer => 1,
            Code::Check => 2,
            Code::Normalise => 2,
            Code::Equal => 3,
            Code::Many => 1,
            Code::Headwise => 2,
        }
    }

    // Whether a count and that many types come after them.
    pub fn lists_types(self) -> bool
        ensures { result ≡ lists_types (code_of self) }
    {
        match self {
            Code::Context => false,
            Code::Universe => false,
            Code::Infer => false,
            Code::Check => false,
            Code::Normalise => false,
            Code::Equal => false,
            Code::Many => true,
            Code::Headwise => false,
        }
    }
}
