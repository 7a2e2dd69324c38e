// Prints texts through a window of seven bytes: the specification's worked example, a run that is refused, and a store with a cell
// of every kind, whole and piece by piece; then how much is left of a short text and of one that nobody could print.
#![tactic(auto)]

use ran::Ran;
use std::io;
use text::{Calls, Piece, Table, Words};

// A whole text, which has fewer than 4,096 bytes.
fn show(rt: &impl Print, words: &Words, what: Piece) -> io::Result<()> {
    let mut buf = [0u8; 7];
    for from in (0..4096).step_by(7) {
        let seen = words.window(what, from, 1, &mut buf);
        rt.write_all(&buf[..seen.put])?;
        if seen.left == 0 {
            break;
        }
    }
    Ok(())
}

// A field, which has no end of line of its own. It is of the rows and the cells alone.
fn show_field(rt: &impl Print, words: &Words, what: Piece) -> io::Result<()> {
    let alone = Words {
        calls: Calls {
            codes: &[],
            answers: &[],
        },
        ..*words
    };
    show(rt, &alone, what)?;
    println!(rt)
}

// How many bytes a window of seven at `from` puts of a call's line, and how many are left, counted up to `most`.
fn measure(rt: &impl Print, words: &Words, from: usize, most: usize) -> io::Result<()> {
    let mut buf = [0u8; 7];
    let seen = words.window(Piece::CallLine(0), from, most, &mut buf);
    println!(rt; "{} {}", seen.put, seen.left)
}

// Cells that are each a pi type of the one before it twice, but the first, which is nat.
fn nested() -> [[u32; 8]; 64] {
    let mut cells = [[3, 0, 0, 0, 0, 0, 0, 0]; 64];
    for (before, cell) in (0..).zip(&mut cells[1..]) {
        *cell = [5, before, before, 0, 0, 0, 0, 0];
    }
    cells
}

// A run of one call that has these answers.
fn one_call<'a>(answers: &'a [u32], cells: &'a [u32]) -> Words<'a> {
    Words {
        run: Ran {
            number: 0,
            place: 0,
            calls: 1,
            rows: 1,
            cells: 64,
        },
        calls: Calls {
            codes: &[2],
            answers,
        },
        table: Table { rows: &[], cells },
    }
}

fn measures(rt: &impl Print) -> io::Result<()> {
    let cells = nested();
    // What is left of `0 0 0 nat 1` and the line's end, twelve bytes.
    let short = one_call(&[0, 0, 0, 1], cells.as_flattened());
    for (from, most) in [
        (0, 0),
        (0, 1),
        (0, 100),
        (5, 100),
        (6, 100),
        (12, 100),
        (13, 100),
    ] {
        measure(rt, &short, from, most)?;
    }
    // And of a text of more than 2^63 bytes.
    let long = one_call(&[0, 0, 63, 1], cells.as_flattened());
    for (from, most) in [(0, 0), (0, 1), (1000, 1000)] {
        measure(rt, &long, from, most)?;
    }
    Ok(())
}

// The run 100 0 3 0 0 4 3.
fn first(rt: &impl Print) -> io::Result<()> {
    let run = Ran {
        number: 0,
        place: 0,
        calls: 1,
        rows: 2,
        cells: 4,
    };
    let answers = [0, 1, 0, 3];
    let rows = [
        0, 0, 0, 0, 0, 0, 0, 0, 0, 0, 0, 0, 2, 0, 0, 0, 0, 0, 0, 0, 0, 0, 0, 0, 79, 1, 0, 0, 0, 0,
        0, 0, 0, 0, 0, 0, 4, 0, 0, 1, 2, 0, 0, 13, 0, 0, 0, 0,
    ];
    let cells = [
        32, 0, 0, 0, 0, 0, 0, 0, 4, 0, 0, 0, 1, 0, 0, 0, 3, 0, 0, 0, 2, 0, 0, 0, 40, 0, 0, 1, 2, 1,
        0, 0,
    ];
    let words = Words {
        run,
        calls: Calls {
            codes: &[3],
            answers: &answers,
        },
        table: Table {
            rows: &rows,
            cells: &cells,
        },
    };
    show(rt, &words, Piece::Listing)
}

// A run that ends early.
fn early(rt: &impl Print) -> io::Result<()> {
    let run = Ran {
        number: 3,
        place: 6,
        calls: 0,
        rows: 0,
        cells: 0,
    };
    let words = Words {
        run,
        calls: Calls {
            codes: &[],
            answers: &[],
        },
        table: Table {
            rows: &[],
            cells: &[],
        },
    };
    show(rt, &words, Piece::Listing)
}

// Every kind of cell; a row with ten cited rows, and one that names no rule; calls of each kind, one of which repeats another.
fn every(rt: &impl Print) -> io::Result<()> {
    let run = Ran {
        number: 0,
        place: 0,
        calls: 6,
        rows: 4,
        cells: 20,
    };
    let codes = [1, 2, 4, 0, 5, 2];
    let answers = [
        0, 7, 3, 9, 0, 8, 5, 2, 0, 8, 2, 1, 0, 8, 0, 1, 13, 4294967295, 0, 6, 0, 8, 5, 1,
    ];
    let rows = [
        88, 1, 65535, 0, 0, 0, 0, 0, 0, 0, 0, 0, 5, 2, 18, 16, 16, 8, 0, 0, 0, 0, 0, 0, 85, 10, 0,
        1, 2, 3, 4, 5, 6, 7, 8, 4294967295, 4, 0, 0, 9, 8, 0, 0, 0, 0, 0, 0, 0, 28, 0, 0, 0, 0, 0,
        0, 0, 0, 0, 0, 0, 4, 12, 3, 15, 15, 0, 0, 0, 0, 0, 0, 0, 126, 0, 0, 0, 0, 0, 0, 0, 0, 0, 0,
        0, 3, 1, 2, 3, 0, 0, 0, 0, 0, 0, 0, 0,
    ];
    let cells = [
        32, 0, 0, 0, 0, 0, 0, 0, 3, 0, 0, 0, 0, 0, 0, 0, 4, 0, 0, 0, 0, 0, 0, 0, 1, 5, 0, 0, 0, 0,
        0, 0, 2, 12, 0, 0, 0, 0, 0, 0, 5, 1, 4, 0, 0, 0, 0, 0, 6, 1, 4, 0, 0, 0, 0, 0, 7, 6, 2, 0,
        0, 0, 0, 0, 8, 1, 2, 2, 0, 0, 0, 0, 9, 1, 2, 0, 0, 0, 0, 0, 16, 0, 0, 0, 0, 0, 0, 0, 17, 0,
        0, 0, 0, 0, 0, 0, 18, 3, 0, 0, 0, 0, 0, 0, 19, 12, 0, 0, 0, 0, 0, 0, 20, 10, 13, 0, 0, 0,
        0, 0, 21, 14, 11, 0, 0, 0, 0, 0, 10, 9, 15, 0, 0, 0, 0, 0, 33, 1, 0, 0, 0, 0, 0, 0, 33, 8,
        17, 0, 0, 0, 0, 0, 40, 0, 0, 1, 2, 1, 0, 0,
    ];
    let words = Words {
        run,
        calls: Calls {
            codes: &codes,
            answers: &answers,
        },
        table: Table {
            rows: &rows,
            cells: &cells,
        },
    };
    show(rt, &words, Piece::Listing)?;
    show(rt, &words, Piece::CallLine(1))?;
    show(rt, &words, Piece::RowLine(2))?;
    show(rt, &words, Piece::Totals)?;
    show_field(rt, &words, Piece::RowNumber(3))?;
    show_field(rt, &words, Piece::RuleName(1))?;
    show_field(rt, &words, Piece::Refs(1))?;
    show_field(rt, &words, Piece::Judgment(2))
}

fn main(rt: HostRuntime) -> io::Result<()> {
    first(&rt)?;
    early(&rt)?;
    every(&rt)?;
    measures(&rt)
}
