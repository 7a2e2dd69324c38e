// One call: its arguments are made, and its reference function is entered. The first function of a call counts as entered before
// its arguments take cells: 19, deepest, then 20.
ghost use Rattle.std.specs.Prelude.{◌≡◌};
ghost use Rattle.producer.specs.Answers.{end};
ghost use Rattle.producer.specs.Machine.{machine};
ghost use Rattle.run.specs.Call.{with_term, with_sides, by_code, with_scope, with_context, called, head_bytes};

use crate::build::{DEPTH, build, scope};
use ast::cells::{Node, quote};
use ast::kinds::Kind;
use producer::State;
use producer::answers::Answer;
use syntax::{CallHead, Code};

// The bytes of a call's head, of which the first may be a code or not.
#[derive(Clone, Copy)]
pub struct Head {
    pub code: u8,
    pub dims: u8,
    pub size: u8,
}

impl Head {
    // Those of a head that was read.
    pub fn of(head: CallHead) -> Head
        ensures { result ≡ head_bytes head }
    {
        let CallHead { code, dims, size } = head;
        Head {
            code: code.number(),
            dims,
            size,
        }
    }
}

// The row and the result of the call at `at`, which has this head, or its refusal. A result that is a term is the lowest cell with
// its quote. Of a call with many types, the type at `ty` is checked; other codes have none there.
#[tactic(auto, unfolding(crate::specs::Call::called, crate::proofs::Steps::steps, ast::specs::Words::up))]
pub fn call(
    state: State,
    bytes: &[u8],
    at: u32,
    ty: u32,
    head: Head,
    rows: &mut [u32],
    cells: &mut [u32],
) -> Answer<(u32, u32)>
    ensures { end result rows.new cells.new ≡ called bytes.now at ty head (machine rows.old cells.old state) }
{
    let left = state.limit;
    let second = at.wrapping_add(1);
    let third = second.wrapping_add(1);
    let types = third.wrapping_add(1);
    enter_context(state, left, bytes, types, ty, head, rows, cells)
}

// The context of a call, whose types start at `at`; then the function of its code.
#[tactic(auto, unfolding(crate::specs::Call::with_context))]
pub fn enter_context(
    state: State,
    left: u32,
    bytes: &[u8],
    at: u32,
    ty: u32,
    head: Head,
    rows: &mut [u32],
    cells: &mut [u32],
) -> Answer<(u32, u32)>
    ensures { end result rows.new cells.new ≡ with_context left bytes.now at ty head (machine rows.old cells.old state) }
{
    let Head { code, dims, size } = head;
    enter_scope(state, left, bytes, at, ty, code, dims, size, rows, cells)
}

// The same of the three bytes one by one.
#[tactic(auto, unfolding(crate::specs::Call::with_scope, crate::proofs::Steps::steps))]
pub fn enter_scope(
    state: State,
    left: u32,
    bytes: &[u8],
    at: u32,
    ty: u32,
    code: u8,
    dims: u8,
    size: u8,
    rows: &mut [u32],
    cells: &mut [u32],
) -> Answer<(u32, u32)>
    ensures { end result rows.new cells.new ≡ with_scope left bytes.now at ty code dims size (machine rows.old cells.old state) }
{
    let (s1, nil) = state.prepare(left, rows, cells, Node::new(Kind::Nil, 0, 0, 0))?;
    let (s2, (g, terms)) = scope(s1, u32::from(size), bytes, at, rows, cells, nil)?;
    enter(
        s2,
        left,
        bytes,
        terms,
        ty,
        rows,
        cells,
        code,
        u32::from(dims),
        g,
    )
}

// Enters the function of a code, which a byte may be or not; its terms start at `at`, and of a call with many types the one that is checked
// at `ty`.
#[tactic(auto, unfolding(crate::specs::Call::by_code, crate::proofs::Steps::steps))]
pub fn enter(
    state: State,
    left: u32,
    bytes: &[u8],
    at: u32,
    ty: u32,
    rows: &mut [u32],
    cells: &mut [u32],
    code: u8,
    d: u32,
    g: u32,
) -> Answer<(u32, u32)>
    ensures { end result rows.new cells.new ≡ by_code left bytes.now at ty code d g (machine rows.old cells.old state) }
{
    if code == Code::Context as u8 {
        let (s, row) = state.ctx(left, rows, cells, d, g)?;
        return Ok((s, (row, 0)));
    }
    let (s1, (t, next)) = build(state, DEPTH, bytes, at, rows, cells)?;
    if code == Code::Universe as u8 {
        let (s, (level, row)) = s1.universe(left, rows, cells, d, g, t)?;
        return Ok((s, (row, level)));
    }
    if code == Code::Infer as u8 {
        let (s, (found, row)) = s1.infer(left, rows, cells, d, g, t)?;
        return Ok((s, (row, quote(cells, found))));
    }
    if code == Code::Many as u8 {
        let check = Code::Check as u8;
        return enter_two(s1, left, bytes, ty, rows, cells, check, d, g, t);
    }
    enter_two(s1, left, bytes, next, rows, cells, code, d, g, t)
}

// A function of two terms or three, the first of which is made.
#[tactic(auto, unfolding(crate::specs::Call::with_term, crate::proofs::Steps::steps))]
pub fn enter_two(
    state: State,
    left: u32,
    bytes: &[u8],
    at: u32,
    rows: &mut [u32],
    cells: &mut [u32],
    code: u8,
    d: u32,
    g: u32,
    t: u32,
) -> Answer<(u32, u32)>
    ensures { end result rows.new cells.new ≡ with_term left bytes.now at code d g t (machine rows.old cells.old state) }
{
    let (s1, (u, next)) = build(state, DEPTH, bytes, at, rows, cells)?;
    if code == Code::Check as u8 {
        let (s, row) = s1.check(left, rows, cells, d, g, t, u)?;
        return Ok((s, (row, 0)));
    }
    if code == Code::Normalise as u8 {
        let (s, (normal, row)) = s1.normalize(left, rows, cells, d, g, t, u)?;
        return Ok((s, (row, quote(cells, normal))));
    }
    if code == Code::Equal as u8 {
        return enter_equal(s1, left, bytes, next, rows, cells, d, g, t, u);
    }
    // Code 7: heads are reduced too.
    let (s, (normal, row)) = s1.head_normalize(left, rows, cells, d, g, t, u)?;
    Ok((s, (row, quote(cells, normal))))
}

// The last term is the type at which two are equal.
#[tactic(auto, unfolding(crate::specs::Call::with_sides, crate::proofs::Steps::steps))]
pub fn enter_equal(
    state: State,
    left: u32,
    bytes: &[u8],
    at: u32,
    rows: &mut [u32],
    cells: &mut [u32],
    d: u32,
    g: u32,
    a: u32,
    b: u32,
) -> Answer<(u32, u32)>
    ensures { end result rows.new cells.new ≡ with_sides left bytes.now at d g a b (machine rows.old cells.old state) }
{
    let (s1, (ty, _)) = build(state, DEPTH, bytes, at, rows, cells)?;
    let (s, row) = s1.equal(left, rows, cells, d, g, a, b, ty)?;
    Ok((s, (row, 0)))
}
