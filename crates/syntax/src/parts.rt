// The parts of a node that are still to be read, and the stack that holds them.
ghost use Rattle.std.specs.Prelude.{◌≡◌, ◌+◌, ◌*◌, ◌/◌, ◌%◌, ◌≤◌, get_or, length, MatchOption};
ghost use Rattle.std.proofs.Math.Option.{none, some};
ghost use Rattle.walk.specs.Reader.{kinds, ikinds};
ghost use Rattle.syntax.specs.Parts.{parts as term_parts, iparts, of_kind, after, part as part_of, word as word_of, pushed};

// A part: the number of u, v or dim, which may be any byte; a term; an interval.
#[derive(Clone, Copy, Debug, PartialEq, Eq)]
pub(crate) enum Part {
    Index,
    Term,
    Interval,
}

// A part that is due, and the depth at which it stands.
#[derive(Clone, Copy)]
pub(crate) struct Due {
    pub part: Part,
    pub depth: u8,
}

#[tactic(auto, unfolding(crate::specs::Parts::of_kind))]
fn of_term(kind: u8) -> Option<&'static [Part]>
    ensures { let new = of_kind term_parts (get_or kinds kind none) in MatchOption result (new ≡ none) (λ parts. (new ≡ some parts.now) × (length parts.now ≤ 3)) }
{
    match kind {
        // written by tools/written.py: parts of a term
        1 => Some(&[Part::Index]),
        2 => Some(&[Part::Index]),
        3 => Some(&[]),
        4 => Some(&[]),
        5 => Some(&[Part::Term, Part::Term]),
        6 => Some(&[Part::Term, Part::Term]),
        7 => Some(&[Part::Term, Part::Term]),
        8 => Some(&[Part::Term, Part::Term, Part::Term]),
        9 => Some(&[Part::Term, Part::Term]),
        10 => Some(&[Part::Term, Part::Interval]),
        11 => Some(&[Part::Term, Part::Term]),
        12 => Some(&[Part::Term, Part::Term, Part::Term]),
        13 => Some(&[Part::Term]),
        14 => Some(&[Part::Term]),
        // end of parts of a term
        _ => None,
    }
}

#[tactic(auto, unfolding(crate::specs::Parts::of_kind))]
fn of_interval(kind: u8) -> Option<&'static [Part]>
    ensures { let new = of_kind iparts (get_or ikinds kind none) in MatchOption result (new ≡ none) (λ parts. (new ≡ some parts.now) × (length parts.now ≤ 3)) }
{
    match kind {
        // written by tools/written.py: parts of an interval
        16 => Some(&[]),
        17 => Some(&[]),
        18 => Some(&[Part::Index]),
        19 => Some(&[Part::Interval]),
        20 => Some(&[Part::Interval, Part::Interval]),
        21 => Some(&[Part::Interval, Part::Interval]),
        // end of parts of an interval
        _ => None,
    }
}

impl Part {
    // The part that a word of the scan's stack is.
    #[tactic(auto, unfolding(crate::specs::Parts::part))]
    pub fn of(word: u8) -> Part
        ensures { result ≡ part_of word }
    {
        match word {
            0 => Part::Index,
            1 => Part::Term,
            _ => Part::Interval,
        }
    }

    // The word that this part is on a stack, where it stands at a depth.
    pub fn word(self, depth: u8) -> u8
        requires { depth ≤ 33 }
        ensures { result ≡ word_of self + 3 * depth }
    {
        self as u8 + 3 * depth
    }

    // What byte b leaves to be read where this part is due, and nothing where it may not stand.
    #[tactic(auto, unfolding(crate::specs::Parts::after))]
    pub fn after(self, b: u8) -> Option<&'static [Part]>
        ensures { let new = after self b in MatchOption result (new ≡ none) (λ parts. (new ≡ some parts.now) × (length parts.now ≤ 3)) }
    {
        match self {
            Part::Index => Some(&[]),
            Part::Term => of_term(b),
            Part::Interval => of_interval(b),
        }
    }
}

impl Due {
    // What a word is on the stack of the limits pass: a part and three times its depth.
    pub fn of(word: u8) -> Due
        ensures { (result.part ≡ part_of (word % 3)) × (result.depth ≡ word / 3) }
    {
        Due {
            part: Part::of(word % 3),
            depth: word / 3,
        }
    }
}

// Puts the parts, each at this depth, where the word at top lay, the last of them first, and gives the new height.
pub(crate) fn push(stack: &mut [u8], top: usize, parts: &[Part], depth: u8) -> usize
    requires { (top + length parts.now ≤ length stack.old) × (depth ≤ 33) }
    ensures { (result ≡ top + length parts.now) × (stack.new ≡ pushed stack.old top depth parts.now) }
{
    let mut height = top;
    for part in parts.iter().rev() {
        stack[height] = part.word(depth);
        height = height + 1;
    }
    height
}
