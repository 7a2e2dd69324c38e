// The words of a table, the quotes of its cells, and judgments as they are quoted.
#![tactic(auto)]

ghost use Rattle.std.specs.Prelude.{◌≡◌, ◌+◌};
ghost use Rattle.writer.specs.Window.{written};
ghost use Rattle.quotes.specs.Quotes.{cell_word, part_as, lower, quote};
ghost use Rattle.quotes.specs.Judgments.{row_word, place, judgment_as};

use ast::words::word;
use rules::{Name, Part, Sort};
use writer::Output;

// The words of a run's rows and cells. Past the end of either, every word is 0.
#[derive(Clone, Copy)]
pub struct Table<'a> {
    pub rows: &'a [u32],
    pub cells: &'a [u32],
}

impl Table<'_> {
    // A word of a row, and of a cell.
    pub fn row_word(&self, i: u32, w: u32) -> u32
        ensures { result ≡ row_word self.now.rows.now i w }
    {
        word(self.rows, (i as usize) * 24 + w as usize)
    }

    pub fn cell_word(&self, i: u32, w: u32) -> u32
        ensures { result ≡ cell_word self.now.cells.now i w }
    {
        ast::cells::cell_word(self.cells, i, w)
    }

    // The quote of a cell. It ends where all that was asked for is there, so that a long text costs no more than that.
    #[cycle(part_quote)]
    pub fn quote(&self, output: &mut Output, i: u32)
        ensures { output.new ≡ written (quote self.now.cells.now i) output.old }
    {
        if output.ended() {
            return;
        }
        let kind = self.cell_word(i, 0);
        let name = Name::Node(kind).bytes();
        let Some(_) = rules::node_part(kind, 0) else {
            output.bytes(name);
            return;
        };
        output.put(b'(');
        output.bytes(name);
        self.part(output, i, kind, 0);
        self.part(output, i, kind, 1);
        self.part(output, i, kind, 2);
        output.put(b')');
    }

    // A part of the cell `i`, after a blank; nothing where it has no such part. Parts have lower numbers than the whole, so the
    // depth of calls is at most the number of cells.
    #[cycle(part_quote)]
    fn part(&self, output: &mut Output, i: u32, kind: u32, n: u32)
        ensures { output.new ≡ written (part_as (lower i (quote self.now.cells.now)) self.now.cells.now i kind n) output.old }
    {
        let Some(part) = rules::node_part(kind, n) else {
            return;
        };
        let x = self.cell_word(i, part.word);
        output.put(b' ');
        match part.sort {
            Sort::Number => output.number(x),
            Sort::Term | Sort::Interval | Sort::Context => {
                if x < i {
                    self.quote(output, x);
                }
            }
        }
    }

    // An argument of the row `i`, after a blank; nothing where the judgment has no such argument.
    fn argument(&self, output: &mut Output, i: u32, kind: u32, n: u8)
        ensures { output.new ≡ written (place self.now.rows.now self.now.cells.now kind i n) output.old }
    {
        let Some(sort) = rules::argument_sort(kind, n as u32) else {
            return;
        };
        let x = self.row_word(i, 13 + n as u32);
        output.put(b' ');
        match sort {
            Sort::Number => output.number(x),
            Sort::Term | Sort::Interval | Sort::Context => self.quote(output, x),
        }
    }

    // The judgment of a kind, with the arguments of the row `i`.
    #[tactic(auto, using(writer::proofs::Laws::writing), unfolding(crate::specs::Judgments::judgment_as))]
    pub fn judgment(&self, output: &mut Output, i: u32, kind: u32)
        ensures { output.new ≡ written (judgment_as kind self.now.rows.now self.now.cells.now i) output.old }
    {
        output.put(b'(');
        output.bytes(Name::Judgment(kind).bytes());
        self.argument(output, i, kind, 0);
        self.argument(output, i, kind, 1);
        self.argument(output, i, kind, 2);
        self.argument(output, i, kind, 3);
        self.argument(output, i, kind, 4);
        output.put(b')');
    }
}
