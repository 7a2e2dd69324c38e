// The plain search for a judgment: from the last row down, each row's arguments compared by quote. It knows no index.
ghost use Rattle.std.specs.Prelude.{◌≡◌};
ghost use Rattle.search.specs.Newest.{Finds};
ghost use Rattle.search.specs.Plain.{same_argument, row_is, scan_rows};

use crate::alike::same_cells;
use ast::words::word;
use producer::rows::row_start;
use rules::Sort;

// A judgment that is asked for: its kind, and its arguments as a row has them, by any cells with their quotes.
#[derive(Clone, Copy)]
pub struct Wanted {
    pub kind: u32,
    pub a: u32,
    pub b: u32,
    pub c: u32,
    pub d: u32,
    pub e: u32,
}

// Whether the argument `n` of row `i` shows what the word `x` does, over `m` cells, in a judgment of the kind.
#[tactic(auto, unfolding(crate::specs::Plain::same_argument, crate::specs::Plain::same_word))]
fn same_argument(rows: &[u32], cells: &[u32], m: u32, i: u32, kind: u32, n: u8, x: u32) -> bool
    ensures { result ≡ same_argument rows.now cells.now m i kind n x }
{
    let Some(sort) = rules::argument_sort(kind, n as u32) else {
        return true;
    };
    let at = row_start(i);
    let y = word(rows, at + (13 + n as usize));
    match sort {
        Sort::Number => y == x,
        Sort::Term | Sort::Interval | Sort::Context => {
            if y < m {
                return same_cells(cells, x, y);
            }
            false
        }
    }
}

// Whether row `i` states the judgment.
#[tactic(auto, unfolding(crate::specs::Plain::row_is))]
fn row_is(rows: &[u32], cells: &[u32], m: u32, i: u32, wanted: Wanted) -> bool
    ensures { result ≡ row_is rows.now cells.now m wanted i }
{
    let kind = wanted.kind;
    let at = row_start(i);
    rules::rule_kind(word(rows, at)) == kind
        && same_argument(rows, cells, m, i, kind, 0, wanted.a)
        && same_argument(rows, cells, m, i, kind, 1, wanted.b)
        && same_argument(rows, cells, m, i, kind, 2, wanted.c)
        && same_argument(rows, cells, m, i, kind, 3, wanted.d)
        && same_argument(rows, cells, m, i, kind, 4, wanted.e)
}

// The highest of the first `n` rows whose arguments show what is asked for, over the first `m` cells.
#[tactic(auto, using(crate::proofs::Laws::search_down, crate::proofs::Laws::last_turn, crate::proofs::Laws::last_here, crate::proofs::Laws::last_none))]
fn scan_rows(rows: &[u32], n: u32, cells: &[u32], m: u32, wanted: Wanted) -> Option<u32>
    ensures { result ≡ scan_rows rows.now n cells.now m wanted }
{
    for i in (0..n).rev() {
        if row_is(rows, cells, m, i, wanted) {
            return Some(i);
        }
    }
    None
}

// The highest of the first `n` rows that states the judgment, over the first `m` cells.
#[tactic(auto, using(crate::proofs::Scanned::finds))]
pub fn last_row(rows: &[u32], n: u32, cells: &[u32], m: u32, wanted: Wanted) -> Option<u32>
    ensures { Finds rows.now n cells.now m wanted result }
{
    scan_rows(rows, n, cells, m, wanted)
}
