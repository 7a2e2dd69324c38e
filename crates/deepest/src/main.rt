// Plays one run from standard input and prints the run's five numbers and its first call's answer. Its own run, which
// `python3 tools/edges.py deep` writes, is one call that meets the nesting limit of 4,096; the tables have just the rows and the cells
// that it uses up to there: a row or a cell less, and it would be 18 or 20.
//
// Stack: 3.7 MB for the tables and 3.0 MB for 4,096 levels of nesting.
#![tactic(auto)]

use std::io;

// The rows and the cells that the run uses.
const ROWS: usize = 32401;

const CELLS: usize = 19723;

// A table in a function of its own: the checker does not take apart what it is full of.
fn table() -> [u32; 24 * ROWS] {
    [0; 24 * ROWS]
}

fn main(rt: HostRuntime) -> io::Result<()> {
    let mut input = [0u8; 2048];
    let n = stdio::read_full(&rt, &mut input)?;
    let mut rows = table();
    let mut cells = [0u32; 8 * CELLS];
    let mut answers = [0u32; 4];
    let ran = run::entry::run(&input[..n], &mut rows, &mut cells, &mut answers);
    println!(rt; "number place calls rows cells")?;
    println!(rt;
        "{} {} {} {} {} ",
        ran.number, ran.place, ran.calls, ran.rows, ran.cells
    )?;
    println!(rt; "number row result deepest")?;
    let [number, row, result, deepest] = answers;
    println!(rt; "{number} {row} {result} {deepest} ")
}
