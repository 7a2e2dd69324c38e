// The line of a call, from its code and the words of its answer.
ghost use Rattle.std.specs.Prelude.{◌≡◌};
ghost use Rattle.writer.specs.Window.{written};
ghost use Rattle.lines.specs.Calls.{answer_word, code, call_row, result as result_of, call_result, call_head, call_line};

use ast::words::word;
use quotes::Table;
use writer::Output;

// The codes of the calls whose line shows a result.
const UNIVERSE: u8 = 1;

const INFER: u8 = 2;

const NORMALISE: u8 = 4;

const HEAD: u8 = 7;

// The codes of a run's calls, and the words of its answers. Past the end of either, every one is 0.
#[derive(Clone, Copy)]
pub struct Calls<'a> {
    pub codes: &'a [u8],
    pub answers: &'a [u32],
}

impl Calls<'_> {
    // A word of a call's answer, and the code of a call.
    pub(crate) fn answer_word(&self, i: u32, w: u32) -> u32
        ensures { result ≡ answer_word self.now.answers.now i w }
    {
        word(self.answers, (i as usize) * 4 + w as usize)
    }

    pub(crate) fn code(&self, i: u32) -> u8
        ensures { result ≡ code self.now.codes.now i }
    {
        self.codes.get(i as usize).copied().unwrap_or(0)
    }

    // A call's line.
    #[tactic(auto, using(writer::proofs::Laws::writing), unfolding(crate::specs::Calls::call_line))]
    pub fn line(&self, table: &Table, output: &mut Output, i: u32)
        ensures { output.new ≡ written (call_line self.now.codes.now self.now.answers.now table.now.cells.now i) output.old }
    {
        self.head(output, i);
        output.put(b' ');
        self.result(table, output, i);
        output.put(b' ');
        output.number(self.answer_word(i, 3));
        output.put(b'\n');
    }

    // Its number, the number of its refusal, and its row.
    #[tactic(auto, using(writer::proofs::Laws::writing), unfolding(crate::specs::Calls::call_head))]
    fn head(&self, output: &mut Output, i: u32)
        ensures { output.new ≡ written (call_head self.now.answers.now i) output.old }
    {
        output.number(i);
        output.put(b' ');
        output.number(self.answer_word(i, 0));
        output.put(b' ');
        self.row(output, i);
    }

    // The row of a call, or -.
    #[tactic(auto, unfolding(crate::specs::Calls::call_row, writer::specs::Window::written))]
    fn row(&self, output: &mut Output, i: u32)
        ensures { output.new ≡ written (call_row self.now.answers.now i) output.old }
    {
        if self.answer_word(i, 0) == 0 {
            output.number(self.answer_word(i, 1));
        } else {
            output.put(b'-');
        }
    }

    // The result of a call, or -.
    #[tactic(auto, unfolding(crate::specs::Calls::call_result, writer::specs::Window::written))]
    fn result(&self, table: &Table, output: &mut Output, i: u32)
        ensures { output.new ≡ written (call_result self.now.codes.now self.now.answers.now table.now.cells.now i) output.old }
    {
        if self.answer_word(i, 0) == 0 {
            accepted(table, output, self.code(i), self.answer_word(i, 2));
        } else {
            output.put(b'-');
        }
    }
}

// The result of an accepted call with the code: a level, a cell by quote, or -.
#[tactic(auto, unfolding(crate::specs::Calls::result, writer::specs::Window::written))]
fn accepted(table: &Table, output: &mut Output, code: u8, x: u32)
    ensures { output.new ≡ written (result_of code table.now.cells.now x) output.old }
{
    match code {
        UNIVERSE => output.number(x),
        INFER | NORMALISE | HEAD => table.quote(output, x),
        _ => output.put(b'-'),
    }
}
