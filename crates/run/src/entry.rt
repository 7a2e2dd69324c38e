// The entry: a run of bytes over the three lent slices. A run that is refused as a whole changes nothing; words past the used ones stay.
ghost use Rattle.std.specs.Prelude.{◌≡◌, ◌*◌, ◌-◌, [], ◌∷◌, length};
ghost use Rattle.std.proofs.lemmas.List.Edits.{sets};
ghost use Rattle.ast.specs.Refusals.{refusal_number};
ghost use Rattle.link.specs.Asked.{marked};
ghost use Rattle.producer.specs.Machine.{machine};
ghost use Rattle.run.specs.Contract.{Runs};
ghost use Rattle.run.specs.Run.{low_of, at_most, started, first_spot, spot_after, refused_of, answered_of, turn_end, planned_alone, planned_type, planned_many, planned, turned, play_end, played, refused_run, end_run, run_of};

use crate::build::byte;
use crate::call::{Head, call};
use ast::refusals::Refusal;
use ast::words::{put, put_all};
use producer::State;
use producer::answers::{Answer, Refused};
use ran::Ran;
use syntax::{Code, Fitting, STACK, Unfit, Unread, scan_run, sent_at, size_call, size_draft};

// The row of a refused call.
const NO_ROW: u32 = 4294967295;

// Where the next call stands. It starts at `at`; or it is a check of the call with many types there, of which `left` types are still to be
// checked, the first of them at `ty`.
#[derive(Clone, Copy)]
pub struct Spot {
    pub at: usize,
    pub ty: usize,
    pub left: usize,
}

// The limits of the next call, and where its type stands and how many are to be checked after it, if it is a check of one with many types.
#[derive(Clone, Copy)]
pub struct Plan {
    pub size: Result<Fitting, Unfit>,
    pub ty: usize,
    pub left: usize,
}

// What a call leaves: the counts, its answer, and where the next one stands.
#[derive(Clone, Copy)]
pub struct Turn {
    pub state: State,
    pub number: u32,
    pub row: u32,
    pub result: u32,
    pub deepest: u32,
    pub next: Spot,
}

// The low 32 bits.
#[tactic(auto, unfolding(crate::specs::Run::low_of))]
fn low(n: usize) -> u32
    ensures { result ≡ low_of n }
{
    (n % 4294967296) as u32
}

// The number, but no more than `most`.
#[tactic(auto, unfolding(crate::specs::Run::at_most))]
fn cap(n: usize, most: u32) -> u32
    ensures { result ≡ at_most n most }
{
    u32::try_from(n).unwrap_or(most).min(most)
}

// Where a run starts from: no rows, cells or memory, in slices of so many words.
#[tactic(auto, unfolding(crate::specs::Run::started))]
fn start(limit: usize, rows: usize, cells: usize) -> State
    ensures { result ≡ started limit rows cells }
{
    let most = low(limit);
    let rowroom = cap(rows / 24, 50000);
    let cellroom = cap(cells / 8, 4294967295);
    State::new(most, rowroom, cellroom)
}

// The first call, at offset 2.
const FIRST: Spot = Spot {
    at: 2,
    ty: 2,
    left: 0,
};

// What stands past a call: the next one, or the next type of the same.
#[tactic(auto, unfolding(crate::specs::Run::spot_after))]
fn after(at: usize, next: usize, left: usize) -> Spot
    ensures { result ≡ spot_after at next left }
{
    let from = if left == 0 { next } else { at };
    Spot {
        at: from,
        ty: next,
        left,
    }
}

// A call that is refused before the walk.
#[tactic(auto, unfolding(crate::specs::Run::refused_of))]
fn refused(state: State, refusal: Refusal, next: Spot) -> Turn
    ensures { result ≡ refused_of state (refusal_number refusal) next }
{
    Turn {
        state,
        number: refusal.number(),
        row: NO_ROW,
        result: 0,
        deepest: 0,
        next,
    }
}

// A call that was walked.
#[tactic(auto, unfolding(crate::specs::Run::answered_of))]
fn answered(answer: Answer<(u32, u32)>, next: Spot) -> Turn
    ensures { result ≡ answered_of answer next }
{
    match answer {
        Ok((state, (row, result))) => Turn {
            state,
            number: 0,
            row,
            result,
            deepest: state.deepest,
            next,
        },
        Err(Refused { state, refusal }) => Turn {
            state,
            number: refusal.number(),
            row: NO_ROW,
            result: 0,
            deepest: state.deepest,
            next,
        },
    }
}

// A call that is no check of one with many types.
#[tactic(auto, unfolding(crate::specs::Run::planned_alone))]
fn alone(size: Result<Fitting, Unfit>, at: usize) -> Plan
    ensures { result ≡ planned_alone size at }
{
    Plan {
        size,
        ty: at,
        left: 0,
    }
}

// A check of the call with many types at `at`, of which `count` are to be checked, the first of them at `ty`.
#[tactic(auto, unfolding(crate::specs::Run::planned_type))]
fn plan_type(bytes: &[u8], at: usize, ty: usize, count: usize, stack: &mut [u8]) -> Plan
    ensures { result ≡ planned_type (length stack.old) bytes.now at ty count }
{
    Plan {
        size: size_draft(bytes, at, ty, stack),
        ty,
        left: count.saturating_sub(1),
    }
}

// The call with many types at `at`: its first check, or the refusal of its count.
#[tactic(auto, unfolding(crate::specs::Run::planned_many, crate::specs::Run::planned_by))]
fn plan_many(bytes: &[u8], at: usize, stack: &mut [u8]) -> Plan
    ensures { result ≡ planned_many (length stack.old) bytes.now at }
{
    match sent_at(bytes, at, stack) {
        Ok(sent) => match sent.checks {
            Some(checks) => plan_type(bytes, at, checks.first, checks.count, stack),
            None => alone(Err(Unfit::Refused(Refusal::Count, sent.next)), at),
        },
        Err(unread) => alone(Err(Unfit::Unread(unread)), at),
    }
}

// The limits of the call that stands there.
#[tactic(auto, unfolding(crate::specs::Run::planned))]
fn plan_next(bytes: &[u8], spot: Spot, stack: &mut [u8]) -> Plan
    ensures { result ≡ planned (length stack.old) bytes.now spot }
{
    let Spot { at, ty, left } = spot;
    if 0 < left {
        return plan_type(bytes, at, ty, left, stack);
    }
    if byte(bytes, low(at)) == Code::Many as u32 {
        return plan_many(bytes, at, stack);
    }
    alone(size_call(bytes, at, stack), at)
}

// The call that stands there: its limits first. In a run that was read, no size is bad or short.
#[tactic(auto, unfolding(crate::specs::Run::turned, crate::specs::Run::turned_by, crate::proofs::Steps::steps))]
fn step(
    state: State,
    bytes: &[u8],
    spot: Spot,
    stack: &mut [u8],
    rows: &mut [u32],
    cells: &mut [u32],
) -> Turn
    ensures { turn_end result rows.new cells.new ≡ turned (length stack.old) bytes.now spot (machine rows.old cells.old state) }
{
    let Plan { size, ty, left } = plan_next(bytes, spot, stack);
    let at = spot.at;
    match size {
        Ok(fitting) => {
            let s = state.begin();
            let from = low(at);
            let type_at = low(ty);
            let head = Head::of(fitting.head);
            answered(
                call(s, bytes, from, type_at, head, rows, cells),
                after(at, fitting.next, left),
            )
        }
        Err(Unfit::Refused(refusal, next)) => refused(state, refusal, after(at, next, left)),
        Err(Unfit::Unread(Unread::Bad(place))) => refused(
            state,
            Refusal::Unread,
            after(at, place, left),
        ),
        Err(Unfit::Unread(Unread::Short)) => refused(state, Refusal::Unread, after(at, at, left)),
    }
}

// Stores the four words of answer `i`.
fn put_answer(answers: &mut [u32], i: u32, number: u32, row: u32, res: u32, deepest: u32)
    ensures { answers.new ≡ sets answers.old (i * 4) (number ∷ row ∷ res ∷ deepest ∷ []) }
{
    put_all(answers, (i as usize) * 4, &[number, row, res, deepest]);
}

// The rows from `from` up to `to` were added by a call: their word 18 is its number.
fn mark(rows: &mut [u32], from: u32, to: u32, call: u32)
    ensures { rows.new ≡ marked (to - from) rows.old from call }
{
    for i in from..to {
        put(rows, (i as usize) * 24 + 18, call);
    }
}

// Plays so many calls.
#[tactic(auto, unfolding(crate::specs::Run::played, crate::proofs::Steps::steps))]
fn play(
    state: State,
    calls: u32,
    bytes: &[u8],
    stack: &mut [u8],
    rows: &mut [u32],
    cells: &mut [u32],
    answers: &mut [u32],
) -> State
    ensures { play_end result rows.new cells.new answers.new ≡ played calls (length stack.old) bytes.now first_spot 0 (machine rows.old cells.old state) answers.old }
{
    let mut s = state;
    let mut spot = FIRST;
    for i in 0..calls {
        let turn = step(s, bytes, spot, stack, rows, cells);
        put_answer(answers, i, turn.number, turn.row, turn.result, turn.deepest);
        mark(rows, s.rows, turn.state.rows, i);
        s = turn.state;
        spot = turn.next;
    }
    s
}

// A run that is refused as a whole.
#[tactic(auto, unfolding(crate::specs::Run::refused_run))]
fn no_run(refusal: Refusal, place: usize) -> Ran
    ensures { result ≡ refused_run (refusal_number refusal) place }
{
    Ran {
        number: refusal.number(),
        place: low(place),
        calls: 0,
        rows: 0,
        cells: 0,
    }
}

// Refusals 1 to 4 are found before anything is stored, the lowest first; then the calls are played.
#[tactic(auto, unfolding(crate::specs::Run::run_of, crate::specs::Run::run_by, crate::specs::Run::read_run, ast::specs::Refusals::refusal_number))]
fn play_run(bytes: &[u8], rows: &mut [u32], cells: &mut [u32], answers: &mut [u32]) -> Ran
    ensures { end_run result rows.new cells.new answers.new ≡ run_of bytes.now rows.old cells.old answers.old }
{
    if rows.len() < 24 {
        return no_run(Refusal::Slices, 0);
    }
    if cells.len() < 8 {
        return no_run(Refusal::Slices, 0);
    }
    match scan_run(bytes) {
        Err(refused) => no_run(refused.refusal, refused.place),
        Ok(scanned) => {
            let most = answers.len() / 4;
            if most < scanned.calls {
                return no_run(Refusal::Answers, 0);
            }
            let s = start(scanned.limit, rows.len(), cells.len());
            let count = low(scanned.calls);
            let mut stack = [0u8; STACK];
            let last = play(s, count, bytes, &mut stack, rows, cells, answers);
            Ran {
                number: 0,
                place: 0,
                calls: count,
                rows: last.rows,
                cells: last.cells,
            }
        }
    }
}

// Plays a run. Whatever the bytes and the slices, what it answers and leaves is the run of the definition.
pub fn run(bytes: &[u8], rows: &mut [u32], cells: &mut [u32], answers: &mut [u32]) -> Ran
    ensures { Runs bytes.now rows.old cells.old answers.old result rows.new cells.new answers.new }
{
    play_run(bytes, rows, cells, answers)
}
