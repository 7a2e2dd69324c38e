// The listing of one run from standard input: 682 rows, 2,048 cells, 4,096 answers. Its text goes out through windows: the first is
// small, so that a short listing takes several too, and each is twice the one before, up to the buffer.
#![tactic(auto)]

use std::io;
use text::{Calls, Piece, Table, Words};

fn show(rt: &impl Print, words: &Words) -> io::Result<()> {
    let mut buf = [0u8; 65536];
    let mut from: usize = 0;
    let mut size: usize = 64;
    while from < 9223372036854775808 {
        let seen = words.window(Piece::Listing, from, 1, &mut buf[..size]);
        rt.write_all(&buf[..seen.put])?;
        if seen.left == 0 {
            break;
        }
        from += size;
        size = (2 * size).min(65536);
    }
    Ok(())
}

fn main(rt: HostRuntime) -> io::Result<()> {
    let mut input = [0u8; 65537];
    let n = stdio::read_full(&rt, &mut input)?;
    let mut rows = [0u32; 16384];
    let mut cells = [0u32; 16384];
    let mut answers = [0u32; 16384];
    let mut codes = [0u8; 4096];
    let run = run::entry::run(&input[..n], &mut rows, &mut cells, &mut answers);
    syntax::call_codes(&input[..n], &mut codes);
    let words = Words {
        run,
        calls: Calls {
            codes: &codes,
            answers: &answers,
        },
        table: Table {
            rows: &rows,
            cells: &cells,
        },
    };
    show(&rt, &words)
}
