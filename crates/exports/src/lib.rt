// What the library for C and Rust is: one function. `exports_c` hands it to them.
#![tactic(auto)]

ghost use Rattle.exports.specs.Exports.{Exports};

use ast::words::put_all;
use run::entry::run as play;

// Plays a run and writes number, place, calls, rows and cells to the first five words of `res`; does nothing at all where that is
// shorter.
pub fn run_derivations(
    run: &[u8],
    rows: &mut [u32],
    cells: &mut [u32],
    answers: &mut [u32],
    res: &mut [u32],
)
    ensures { Exports run.now rows.old cells.old answers.old res.old rows.new cells.new answers.new res.new }
{
    if res.len() < 5 {
        return;
    }
    let ran = play(run, rows, cells, answers);
    put_all(
        res,
        0,
        &[ran.number, ran.place, ran.calls, ran.rows, ran.cells],
    );
}
