// The refusals: of a whole run, of a call before it is walked, of a call where the walk stops.
// Written by tools/written.py from tools/language.py; `python3 tools/written.py` makes it again.
ghost use Rattle.std.specs.Prelude.{◌≡◌};
ghost use Rattle.ast.specs.Refusals.{refusal_number};

use crate::others::OtherRefusal;

#[derive(Clone, Copy, Debug, PartialEq, Eq)]
pub enum Refusal {
    // The row table has under 24 words, or the cell store under 8.
    Slices,
    // It has over 65,536 bytes.
    Bytes,
    // It ends early; or its nesting limit is outside 1 to 4,096; or a byte is no code or kind for its spot.
    Unread,
    // The answer slice has under four words a call.
    Answers,
    // The dimension count or the context length passes 33.
    Scope,
    // The depth passes 32 (the outermost node is at 0), or the nodes of the call pass 10,000.
    Size,
    // An index or a level passes 32.
    Index,
    // A variable has no type in the context.
    Unbound,
    // The function of an application has no pi type after `expose`.
    NoFunction,
    // The path of a papp has no path type after `expose`.
    NoPath,
    // A term wanted as a type has no universe after `expose`.
    NoType,
    // A conversion finds two universe levels.
    Levels,
    // Two normalised sides have different quotes.
    Quotes,
    // `normalize` meets a reduction whose type is not quoted as the one wanted.
    StepType,
    // There is a 33rd root reduction.
    Reductions,
    // A 33rd conversion would be nested.
    Conversions,
    // A dimension is not below the dimension count.
    Dimension,
    // A new row is needed, and 50,000, or all that the table holds, are used.
    Rows,
    // A function would be entered past the nesting limit.
    Nesting,
    // A new cell is needed, and none is left, or 4,294,967,295 are used.
    Cells,
    // The subject of a projection has no sigma type after `expose`.
    NoSigma,
    // The annotation of a pair is not written as a sigma.
    Annotation,
    // The count of its types is 0 or above 16.
    Count,
    // Any other number.
    Other(OtherRefusal),
}

impl Refusal {
    // The refusal with the number.
    #[tactic(auto, unfolding(crate::specs::Refusals::refusal_number))]
    pub fn of(number: u32) -> Refusal
        ensures { refusal_number result ≡ number }
    {
        match number {
            1 => Refusal::Slices,
            2 => Refusal::Bytes,
            3 => Refusal::Unread,
            4 => Refusal::Answers,
            5 => Refusal::Scope,
            6 => Refusal::Size,
            7 => Refusal::Index,
            8 => Refusal::Unbound,
            9 => Refusal::NoFunction,
            10 => Refusal::NoPath,
            11 => Refusal::NoType,
            12 => Refusal::Levels,
            13 => Refusal::Quotes,
            14 => Refusal::StepType,
            15 => Refusal::Reductions,
            16 => Refusal::Conversions,
            17 => Refusal::Dimension,
            18 => Refusal::Rows,
            19 => Refusal::Nesting,
            20 => Refusal::Cells,
            21 => Refusal::NoSigma,
            22 => Refusal::Annotation,
            23 => Refusal::Count,
            _ => Refusal::Other(OtherRefusal { number }),
        }
    }

    // Its number, as an answer has it.
    #[tactic(auto, unfolding(crate::specs::Refusals::refusal_number))]
    pub fn number(self) -> u32
        ensures { result ≡ refusal_number self }
    {
        match self {
            Refusal::Slices => 1,
            Refusal::Bytes => 2,
            Refusal::Unread => 3,
            Refusal::Answers => 4,
            Refusal::Scope => 5,
            Refusal::Size => 6,
            Refusal::Index => 7,
            Refusal::Unbound => 8,
            Refusal::NoFunction => 9,
            Refusal::NoPath => 10,
            Refusal::NoType => 11,
            Refusal::Levels => 12,
            Refusal::Quotes => 13,
            Refusal::StepType => 14,
            Refusal::Reductions => 15,
            Refusal::Conversions => 16,
            Refusal::Dimension => 17,
            Refusal::Rows => 18,
            Refusal::Nesting => 19,
            Refusal::Cells => 20,
            Refusal::NoSigma => 21,
            Refusal::Annotation => 22,
            Refusal::Count => 23,
            Refusal::Other(other) => other.number,
        }
    }
}
