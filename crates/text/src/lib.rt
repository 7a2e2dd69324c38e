// The listing of a run, from what it answers and leaves in the slices, and each of its parts: shown through a window into a lent buffer.
#![tactic(auto)]

ghost use Rattle.std.specs.Prelude.{◌≡◌, ◌≤◌, length, take};
ghost use Rattle.writer.specs.Text.{each};
ghost use Rattle.writer.specs.Window.{written, Shown};
ghost use Rattle.lines.specs.Rows.{row_line};
ghost use Rattle.lines.specs.Calls.{call_line};
ghost use Rattle.text.specs.Listing.{totals, refused_listing, listing, piece};

pub use lines::calls::Calls;
use lines::rows;
pub use quotes::Table;
use ran::Ran;
use writer::Output;

// A text that can be asked for.
#[derive(Clone, Copy)]
pub enum Piece {
    Listing,
    CallLine(u32),
    RowLine(u32),
    Totals,
    RowNumber(u32),
    RuleName(u32),
    Refs(u32),
    Judgment(u32),
}

// What a window shows of a text: how many bytes it put, and how many are left after them, counted as far as was asked.
#[derive(Clone, Copy)]
pub struct View {
    pub put: usize,
    pub left: usize,
}

// What a run answers of itself, its calls with their answers, and its table.
#[derive(Clone, Copy)]
pub struct Words<'a> {
    pub run: Ran,
    pub calls: Calls<'a>,
    pub table: Table<'a>,
}

impl Words<'_> {
    // Puts the part of a text from `from` on into the buffer; says how many bytes that is, and how many are left. A text may be far too
    // long to be counted, so those that are left are counted up to `most`: with 1, whether there are more. Bytes of the buffer past those
    // put stay. The second clause follows from the first, and lets a caller lend the part that is filled with no proof of its own.
    pub fn window(&self, what: Piece, from: usize, most: usize, buf: &mut [u8]) -> View
        ensures shown { Shown (piece what self.now.run self.now.calls.codes.now self.now.calls.answers.now self.now.table.rows.now self.now.table.cells.now) from most buf.old result.put result.left buf.new }
        ensures within { (result.put ≤ length buf.new) × (result.put ≡ length (take result.put buf.new)) }
    {
        let mut output = Output::new(from, most, buf);
        self.piece(&mut output, what);
        View {
            put: output.writer.filled,
            left: output.writer.left,
        }
    }

    // A text that was asked for.
    #[tactic(auto, using(writer::proofs::Laws::written_same), unfolding(crate::specs::Listing::piece))]
    fn piece(&self, output: &mut Output, what: Piece)
        ensures same_reference { output.new.buf.ghost_name ≡ output.old.buf.ghost_name }
        ensures text { output.new ≡ written (piece what self.now.run self.now.calls.codes.now self.now.calls.answers.now self.now.table.rows.now self.now.table.cells.now) output.old }
    {
        match what {
            Piece::Listing => self.listing(output),
            Piece::CallLine(i) => self.calls.line(&self.table, output, i),
            Piece::RowLine(i) => rows::line(&self.table, output, i),
            Piece::Totals => self.totals(output),
            Piece::RowNumber(i) => output.number(i),
            Piece::RuleName(i) => rows::rule(&self.table, output, i),
            Piece::Refs(i) => rows::refs(&self.table, output, i),
            Piece::Judgment(i) => rows::judgment(&self.table, output, i),
        }
    }

    // The listing of a run.
    fn listing(&self, output: &mut Output)
        ensures { output.new ≡ written (listing self.now.run self.now.calls.codes.now self.now.calls.answers.now self.now.table.rows.now self.now.table.cells.now) output.old }
    {
        if self.run.number != 0 {
            self.refused(output);
            return;
        }
        output.bytes(b"call code row result deepest\n");
        self.call_lines(output);
        output.bytes(b"row rule refs judgment\n");
        self.row_lines(output);
        output.bytes(b"rows cells repeats\n");
        self.totals(output);
    }

    // The listing of a run that is refused as a whole.
    fn refused(&self, output: &mut Output)
        ensures { output.new ≡ written (refused_listing self.now.run) output.old }
    {
        output.bytes(b"number place\n");
        output.number(self.run.number);
        output.put(b' ');
        output.number(self.run.place);
        output.put(b'\n');
    }

    // The lines of all calls, and of all rows.
    #[tactic(auto, using(writer::proofs::Laws::written_turn, writer::proofs::Laws::written_end))]
    fn call_lines(&self, output: &mut Output)
        ensures { output.new ≡ written (each (call_line self.now.calls.codes.now self.now.calls.answers.now self.now.table.cells.now) 0 self.now.run.calls) output.old }
    {
        for i in 0..self.run.calls {
            self.calls.line(&self.table, output, i);
        }
    }

    #[tactic(auto, using(writer::proofs::Laws::written_turn, writer::proofs::Laws::written_end))]
    fn row_lines(&self, output: &mut Output)
        ensures { output.new ≡ written (each (row_line self.now.table.rows.now self.now.table.cells.now) 0 self.now.run.rows) output.old }
    {
        for i in 0..self.run.rows {
            rows::line(&self.table, output, i);
        }
    }

    // The totals' line.
    #[tactic(auto, using(writer::proofs::Laws::writing), unfolding(crate::specs::Listing::totals))]
    fn totals(&self, output: &mut Output)
        ensures { output.new ≡ written (totals self.now.run self.now.calls.codes.now self.now.calls.answers.now) output.old }
    {
        output.number(self.run.rows);
        output.put(b' ');
        output.number(self.run.cells);
        output.put(b' ');
        output.number(self.calls.repeats(self.run.calls));
        output.put(b'\n');
    }
}
