// What is sent becomes cells: parts before the whole, the left part first, a context's rest before its last type.
// The limits have been tested by then, so that a term nests at most 33 deep; one that nests deeper, and a byte that is no kind,
// are refused as unread, which is never met in a run that was read.
ghost use Rattle.std.specs.Prelude.{◌≡◌};
ghost use Rattle.producer.specs.Answers.{end};
ghost use Rattle.producer.specs.Machine.{machine};
ghost use Rattle.run.specs.Build.{byte_at, follows_number, parts_of, built, built_one, built_two, built_three, scoped};

use ast::cells::Node;
use ast::kinds::Kind;
use ast::refusals::Refusal;
use producer::State;
use producer::answers::Answer;

// The deepest that a term nests, counted from 1.
pub const DEPTH: u32 = 33;

// The byte at `at`, and 0 past the end.
pub fn byte(bytes: &[u8], at: u32) -> u32
    ensures { result ≡ byte_at bytes.now at }
{
    let i = at as usize;
    bytes.get(i).copied().map_or(0, u32::from)
}

// What follows the byte of a kind: nothing, a number, or parts.
#[derive(Clone, Copy, Debug, PartialEq, Eq)]
pub enum Follows {
    Nothing = 1,
    Number = 2,
    One = 3,
    Two = 4,
    Three = 5,
}

// What follows a byte that is a kind's, and nothing where it is not.
pub fn parts(kind: u32) -> Option<Follows>
    ensures { follows_number result ≡ parts_of kind }
{
    match Kind::of(kind) {
        // written by tools/written.py: what follows a kind
        Kind::Universe => Some(Follows::Number),
        Kind::Var => Some(Follows::Number),
        Kind::Nat => Some(Follows::Nothing),
        Kind::Zero => Some(Follows::Nothing),
        Kind::Pi => Some(Follows::Two),
        Kind::Lam => Some(Follows::Two),
        Kind::App => Some(Follows::Two),
        Kind::Path => Some(Follows::Three),
        Kind::Plam => Some(Follows::Two),
        Kind::Papp => Some(Follows::Two),
        Kind::Sigma => Some(Follows::Two),
        Kind::Pair => Some(Follows::Three),
        Kind::Fst => Some(Follows::One),
        Kind::Snd => Some(Follows::One),
        Kind::I0 => Some(Follows::Nothing),
        Kind::I1 => Some(Follows::Nothing),
        Kind::Dim => Some(Follows::Number),
        Kind::Neg => Some(Follows::One),
        Kind::Meet => Some(Follows::Two),
        Kind::Join => Some(Follows::Two),
        // end of what follows a kind
        _ => None,
    }
}

// The cell of the term or interval at `at`, and the offset past it; `left` levels of depth are allowed.
#[cycle(build)]
pub fn build(
    state: State,
    left: u32,
    bytes: &[u8],
    at: u32,
    rows: &[u32],
    cells: &mut [u32],
) -> Answer<(u32, u32)>
    ensures { end result rows.now cells.new ≡ built left bytes.now at (machine rows.now cells.old state) }
{
    if left == 0 {
        return Err(state.refused(Refusal::Unread));
    }
    let down = left - 1;
    let kind = byte(bytes, at);
    let next = at.wrapping_add(1);
    match parts(kind) {
        Some(Follows::Nothing) => {
            let node = Node::of_words(kind, 0, 0, 0);
            let (s, cell) = state.intern(rows, cells, node)?;
            Ok((s, (cell, next)))
        }
        Some(Follows::Number) => {
            let node = Node::of_words(kind, byte(bytes, next), 0, 0);
            let (s, cell) = state.intern(rows, cells, node)?;
            Ok((s, (cell, next.wrapping_add(1))))
        }
        Some(Follows::One) => one(state, down, bytes, next, rows, cells, kind),
        Some(Follows::Two) => two(state, down, bytes, next, rows, cells, kind),
        Some(Follows::Three) => three(state, down, bytes, next, rows, cells, kind),
        None => Err(state.refused(Refusal::Unread)),
    }
}

// A cell with one part.
#[cycle(build)]
pub fn one(
    state: State,
    left: u32,
    bytes: &[u8],
    at: u32,
    rows: &[u32],
    cells: &mut [u32],
    kind: u32,
) -> Answer<(u32, u32)>
    ensures { end result rows.now cells.new ≡ built_one (built left bytes.now) at kind (machine rows.now cells.old state) }
{
    let (s1, (a, next)) = build(state, left, bytes, at, rows, cells)?;
    let (s, cell) = s1.intern(rows, cells, Node::of_words(kind, a, 0, 0))?;
    Ok((s, (cell, next)))
}

// A cell with two parts.
#[cycle(build)]
pub fn two(
    state: State,
    left: u32,
    bytes: &[u8],
    at: u32,
    rows: &[u32],
    cells: &mut [u32],
    kind: u32,
) -> Answer<(u32, u32)>
    ensures { end result rows.now cells.new ≡ built_two (built left bytes.now) at kind (machine rows.now cells.old state) }
{
    let (s1, (a, middle)) = build(state, left, bytes, at, rows, cells)?;
    let (s2, (b, next)) = build(s1, left, bytes, middle, rows, cells)?;
    let (s, cell) = s2.intern(rows, cells, Node::of_words(kind, a, b, 0))?;
    Ok((s, (cell, next)))
}

// A cell with three parts.
#[cycle(build)]
pub fn three(
    state: State,
    left: u32,
    bytes: &[u8],
    at: u32,
    rows: &[u32],
    cells: &mut [u32],
    kind: u32,
) -> Answer<(u32, u32)>
    ensures { end result rows.now cells.new ≡ built_three (built left bytes.now) at kind (machine rows.now cells.old state) }
{
    let (s1, (a, second)) = build(state, left, bytes, at, rows, cells)?;
    let (s2, (b, third)) = build(s1, left, bytes, second, rows, cells)?;
    let (s3, (c, next)) = build(s2, left, bytes, third, rows, cells)?;
    let (s, cell) = s3.intern(rows, cells, Node::of_words(kind, a, b, c))?;
    Ok((s, (cell, next)))
}

// The context `g` with `left` more types, which start at `at`; and the offset past them.
pub fn scope(
    state: State,
    left: u32,
    bytes: &[u8],
    at: u32,
    rows: &[u32],
    cells: &mut [u32],
    g: u32,
) -> Answer<(u32, u32)>
    ensures { end result rows.now cells.new ≡ scoped left bytes.now at g (machine rows.now cells.old state) }
{
    if left == 0 {
        return Ok((state, (g, at)));
    }
    let down = left - 1;
    let (s1, (a, next)) = build(state, DEPTH, bytes, at, rows, cells)?;
    let (s2, h) = s1.intern(rows, cells, Node::new(Kind::Cons, a, g, 0))?;
    scope(s2, down, bytes, next, rows, cells, h)
}
