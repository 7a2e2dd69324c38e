// The library for C and Rust, a static library: the function of `exports` under its name there.
#![tactic(auto)]

ghost use Rattle.exports.specs.Exports.{Exports};

// Plays a run and writes number, place, calls, rows and cells to the first five words of `res`; does nothing at all where that is
// shorter. A slice goes over as a pointer and a length.
#[unsafe(no_mangle)]
pub extern "C" fn run_derivations(
    run: &[u8],
    rows: &mut [u32],
    cells: &mut [u32],
    answers: &mut [u32],
    res: &mut [u32],
)
    ensures { Exports run.now rows.old cells.old answers.old res.old rows.new cells.new answers.new res.new }
{
    exports::run_derivations(run, rows, cells, answers, res)
}
