// Searches tables that no run makes, for the highest row with a judgment: by the plain search, over working words that say nothing, and
// then by the index that is made over them. A line has the table, what is asked for, and both answers.
#![tactic(auto)]

use ast::cells::{Node, put_cell};
use ast::kinds::Kind;
use ast::words::{put, put_all};
use producer::codes::{Judgment, Rule, Words};
use producer::rows::{cite, find_row, put_row, row_start};
use search::index::index_rows;
use search::plain::{Wanted, last_row};
use std::{fmt, io};

// How many cells there are.
const CELLS: u32 = 14;

// A cell of a kind, whose other words say nothing: no lowest cell, no index.
fn cell(cells: &mut [u32], n: u32, kind: Kind, a: u32, b: u32) {
    let node = Node::new(kind, a, b, 0);
    put_cell(cells, n, node, 9, 9, 9, 9);
}

// nil, nat, zero, u 0, v 0.
fn atoms(cells: &mut [u32]) {
    cell(cells, 0, Kind::Nil, 0, 0);
    cell(cells, 1, Kind::Nat, 0, 0);
    cell(cells, 2, Kind::Zero, 0, 0);
    cell(cells, 3, Kind::Universe, 0, 0);
    cell(cells, 4, Kind::Var, 0, 0);
}

// 5 and 6 have one quote, lam (v 0), and differ in the annotation; so do 9 and 10, which are applied to zero. 7 and 8 are equal.
fn terms(cells: &mut [u32]) {
    cell(cells, 5, Kind::Lam, 1, 4);
    cell(cells, 6, Kind::Lam, 3, 4);
    cell(cells, 7, Kind::Pi, 1, 1);
    cell(cells, 8, Kind::Pi, 1, 1);
    cell(cells, 9, Kind::App, 5, 2);
    cell(cells, 10, Kind::App, 6, 2);
}

// 11 and 12 are equal contexts; 13 is a part of itself, and has no quote.
fn others(cells: &mut [u32]) {
    cell(cells, 11, Kind::Cons, 1, 0);
    cell(cells, 12, Kind::Cons, 1, 0);
    cell(cells, 13, Kind::Pi, 13, 13);
}

// A row by a rule. Its working words are wrong: no kind, and children that are not there or lead astray.
fn row(rows: &mut [u32], n: u32, rule: Rule, a: u32, b: u32, c: u32, d: u32, e: u32) {
    let words = Words {
        kind: 99,
        count: 0,
        a,
        b,
        c,
        d,
        e,
    };
    put_row(rows, n, rule.number(), cite([]), words);
    let at = row_start(n);
    put(rows, at + 18, 7);
    put_all(rows, at + 20, &[1, 2, 3, u32::MAX]);
}

// A row of two numbers.
fn pair(rows: &mut [u32], n: u32, rule: Rule, a: u32, b: u32) {
    row(rows, n, rule, a, b, 0, 0, 0);
}

// A judgment that is asked for of the plain search.
fn wanted(words: Words) -> Wanted {
    Wanted {
        kind: words.kind,
        a: words.a,
        b: words.b,
        c: words.c,
        d: words.d,
        e: words.e,
    }
}

// What a search found, as it is printed.
#[derive(Clone, Copy)]
struct Found(Option<u32>);

impl fmt::Display for Found {
    fn fmt<W: fmt::Write>(&self, f: &mut fmt::Formatter<W>) -> fmt::Result {
        match self.0 {
            Some(i) => write!(f, "{i}"),
            None => f.write_str("none"),
        }
    }
}

// The line of a search: by the plain search, and by the index over the first `n` rows.
fn ask(
    rt: &impl Print,
    name: &str,
    rows: &mut [u32],
    n: u32,
    cells: &[u32],
    judgment: Judgment,
) -> io::Result<()> {
    let words = judgment.words();
    let plain = Found(last_row(rows, n, cells, CELLS, wanted(words)));
    index_rows(rows, n);
    let by_index = Found(find_row(rows, n, words));
    println!(rt; "{name}: {plain} {by_index}")
}

// No row, and one.
fn small(rt: &impl Print, cells: &[u32]) -> io::Result<()> {
    let mut rows = [0u32; 192];
    ask(rt, "empty", &mut rows, 0, cells, Judgment::Lt(1, 2))?;
    pair(&mut rows, 0, Rule::LtZ, 1, 2);
    ask(
        rt,
        "empty, a row behind it",
        &mut rows,
        0,
        cells,
        Judgment::Lt(1, 2),
    )?;
    ask(rt, "one", &mut rows, 1, cells, Judgment::Lt(1, 2))?;
    ask(
        rt,
        "one, another asked",
        &mut rows,
        1,
        cells,
        Judgment::Lt(2, 1),
    )?;
    pair(&mut rows, 0, Rule::CtxNil, 0, 0);
    ask(
        rt,
        "one, a context",
        &mut rows,
        1,
        cells,
        Judgment::Ctx(0, 0),
    )
}

// A judgment that stands twice, and three times, by one rule and by two.
fn repeated(rt: &impl Print, cells: &[u32]) -> io::Result<()> {
    let mut rows = [0u32; 192];
    row(&mut rows, 0, Rule::TypeZero, 0, 0, 2, 1, 0);
    pair(&mut rows, 1, Rule::LtZ, 1, 2);
    row(&mut rows, 2, Rule::TypeConv, 0, 0, 2, 1, 0);
    pair(&mut rows, 3, Rule::LtZ, 1, 2);
    pair(&mut rows, 4, Rule::LeZ, 1, 2);
    pair(&mut rows, 5, Rule::LtZ, 1, 2);
    let typing = Judgment::Has(0, 0, 2, 1);
    ask(rt, "twice", &mut rows, 6, cells, typing)?;
    ask(
        rt,
        "twice, cut after the first",
        &mut rows,
        2,
        cells,
        typing,
    )?;
    ask(rt, "three times", &mut rows, 6, cells, Judgment::Lt(1, 2))?;
    ask(
        rt,
        "three times, cut after the second",
        &mut rows,
        5,
        cells,
        Judgment::Lt(1, 2),
    )?;
    ask(
        rt,
        "once between them",
        &mut rows,
        6,
        cells,
        Judgment::Le(1, 2),
    )
}

// Neighbours that differ in one argument, or in the kind alone.
fn neighbours(rt: &impl Print, cells: &[u32]) -> io::Result<()> {
    let mut rows = [0u32; 192];
    row(&mut rows, 0, Rule::EqRefl, 1, 0, 2, 2, 1);
    row(&mut rows, 1, Rule::EqRefl, 0, 0, 2, 2, 1);
    row(&mut rows, 2, Rule::EqRefl, 0, 11, 2, 2, 1);
    row(&mut rows, 3, Rule::EqRefl, 0, 0, 1, 2, 1);
    row(&mut rows, 4, Rule::EqRefl, 0, 0, 2, 1, 1);
    row(&mut rows, 5, Rule::EqRefl, 0, 0, 2, 2, 3);
    pair(&mut rows, 6, Rule::LtZ, 4, 5);
    pair(&mut rows, 7, Rule::LeZ, 4, 5);
    let middle = Judgment::Eq(0, 0, 2, 2, 1);
    ask(rt, "neighbours in an argument", &mut rows, 8, cells, middle)?;
    let other = Judgment::Eq(0, 0, 3, 2, 1);
    ask(rt, "none of the neighbours", &mut rows, 8, cells, other)?;
    ask(
        rt,
        "neighbours in the kind, the lower",
        &mut rows,
        8,
        cells,
        Judgment::Lt(4, 5),
    )?;
    ask(
        rt,
        "neighbours in the kind, the higher",
        &mut rows,
        8,
        cells,
        Judgment::Le(4, 5),
    )
}

// Rows whose arguments are cells with the same quote, that are not the lowest: the index is not promised to find these.
fn annotated(rt: &impl Print, cells: &[u32]) -> io::Result<()> {
    let mut rows = [0u32; 192];
    row(&mut rows, 0, Rule::TypeZero, 0, 0, 5, 7, 0);
    row(&mut rows, 1, Rule::TypeZero, 0, 0, 6, 7, 0);
    row(&mut rows, 2, Rule::TypeZero, 0, 0, 10, 1, 0);
    row(&mut rows, 3, Rule::TypeZero, 0, 12, 2, 8, 0);
    row(&mut rows, 4, Rule::TypeZero, 0, 0, 13, 1, 0);
    let lam = Judgment::Has(0, 0, 5, 7);
    ask(
        rt,
        "an annotation, by the lower cell",
        &mut rows,
        2,
        cells,
        lam,
    )?;
    let again = Judgment::Has(0, 0, 6, 8);
    ask(
        rt,
        "an annotation, by the higher cell",
        &mut rows,
        2,
        cells,
        again,
    )?;
    let app = Judgment::Has(0, 0, 9, 1);
    ask(rt, "an annotation inside", &mut rows, 5, cells, app)?;
    let context = Judgment::Has(0, 11, 2, 7);
    ask(rt, "equal cells", &mut rows, 5, cells, context)
}

// Judgments with one hash: each is told from the other.
fn collided(rt: &impl Print, cells: &[u32]) -> io::Result<()> {
    let mut rows = [0u32; 192];
    pair(&mut rows, 0, Rule::LtZ, 74, 22855);
    pair(&mut rows, 1, Rule::LtZ, 30986, 46738);
    pair(&mut rows, 2, Rule::LtZ, 54026, 50204);
    pair(&mut rows, 3, Rule::LeZ, 44333, 27115);
    pair(&mut rows, 4, Rule::LtZ, 74, 22855);
    ask(
        rt,
        "one hash, the first",
        &mut rows,
        4,
        cells,
        Judgment::Lt(74, 22855),
    )?;
    ask(
        rt,
        "one hash, the first again",
        &mut rows,
        5,
        cells,
        Judgment::Lt(74, 22855),
    )?;
    ask(
        rt,
        "one hash, the second",
        &mut rows,
        5,
        cells,
        Judgment::Lt(30986, 46738),
    )?;
    ask(
        rt,
        "one hash, another kind",
        &mut rows,
        5,
        cells,
        Judgment::Le(44333, 27115),
    )?;
    ask(
        rt,
        "one hash, not there",
        &mut rows,
        1,
        cells,
        Judgment::Lt(30986, 46738),
    )
}

// Every row of the slice is used, and each judgment of the upper half stands in the lower too.
fn fill(rows: &mut [u32]) {
    for i in 0..256 {
        pair(rows, i, Rule::LtZ, i % 128, 7);
    }
}

fn full(rt: &impl Print, cells: &[u32]) -> io::Result<()> {
    let mut rows = [0u32; 6144];
    fill(&mut rows);
    ask(
        rt,
        "full, the last",
        &mut rows,
        256,
        cells,
        Judgment::Lt(127, 7),
    )?;
    ask(
        rt,
        "full, the lowest of the upper half",
        &mut rows,
        256,
        cells,
        Judgment::Lt(0, 7),
    )?;
    ask(
        rt,
        "full, the lower half",
        &mut rows,
        128,
        cells,
        Judgment::Lt(5, 7),
    )?;
    ask(
        rt,
        "full, not there",
        &mut rows,
        256,
        cells,
        Judgment::Lt(128, 7),
    )
}

fn main(rt: HostRuntime) -> io::Result<()> {
    let mut cells = [0u32; 112];
    atoms(&mut cells);
    terms(&mut cells);
    others(&mut cells);
    small(&rt, &cells)?;
    repeated(&rt, &cells)?;
    neighbours(&rt, &cells)?;
    annotated(&rt, &cells)?;
    collided(&rt, &cells)?;
    full(&rt, &cells)
}
