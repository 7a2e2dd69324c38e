// Plays the stored runs of standard input, and compares what each leaves with what the Rust left: the listing's text, byte by byte,
// and that no word past the used ones changed. How a stored run is laid out: tools/compare/src/vectors.rs.
#![tactic(auto)]

ghost use Rattle.std.specs.Prelude.{◌+◌, ◌≤◌};

use ran::Ran;
use std::{fmt, io};
use syntax::call_codes;
use text::{Calls, Piece, Table, Words};

// What the slices hold before a run.
const FILL: u32 = 2779096485;

// How much a stored run asks for at most: words of the row table, of the cell store and of the answers, and bytes. One that asks for
// more differs.
const ROWS: usize = 49152;

const CELLS: usize = 32768;

const ANSWERS: usize = 16384;

const BYTES: usize = 65600;

// How many calls a stored run has at most.
const CALLS: usize = 4096;

// How many bytes of a text are compared at a time.
const PART: usize = 16384;

// The head of a stored run: 28 bytes, its name, then six words.
#[derive(Clone, Copy)]
struct Head {
    name: [u8; 28],
    // Words that are lent of the row table, of the cell store and of the answers.
    rows: usize,
    cells: usize,
    answers: usize,
    // Bytes of the run, and how many of them are stored; the others are 0.
    bytes: usize,
    stored: usize,
    // Bytes of the text.
    text: usize,
}

impl Head {
    // The next head of standard input, if there is one more.
    fn read(rt: &impl Input) -> io::Result<Option<Head>> {
        let mut name = [0u8; 28];
        let mut words = [0u8; 24];
        if stdio::read_full(rt, &mut name)? < name.len() {
            return Ok(None);
        }
        if stdio::read_full(rt, &mut words)? < words.len() {
            return Ok(None);
        }
        Ok(Some(Head {
            name,
            rows: word(&words, 0),
            cells: word(&words, 4),
            answers: word(&words, 8),
            bytes: word(&words, 12),
            stored: word(&words, 16),
            text: word(&words, 20),
        }))
    }
}

// The word at an offset, low byte first.
fn word(words: &[u8; 24], at: usize) -> usize
    requires { at + 4 ≤ 24 }
{
    u32::from_le_bytes([words[at], words[at + 1], words[at + 2], words[at + 3]]) as usize
}

// What each run is played in, filled anew for each: fixed arrays, so that nothing is allocated.
#[derive(Drop)]
struct Tables {
    rows: [u32; ROWS],
    cells: [u32; CELLS],
    answers: [u32; ANSWERS],
    bytes: [u8; BYTES],
    codes: [u8; CALLS],
}

impl Tables {
    // Puts a run's bytes there, the next ones of standard input, then zeros. None are read where more are stored than fit.
    fn read_run(&mut self, rt: &impl Input, stored: usize) -> io::Result<()> {
        self.bytes.fill(0);
        if let Some(bytes) = self.bytes.get_mut(..stored) {
            stdio::read_full(rt, bytes)?;
        }
        Ok(())
    }

    // Plays the stored run in as many words as the head says, unless it asks for more than a stored run may: what it left.
    fn play(&mut self, head: &Head) -> Option<Words<'_>> {
        let bytes = self.bytes.get(..head.bytes)?;
        let rows = self.rows.get_mut(..head.rows)?;
        let cells = self.cells.get_mut(..head.cells)?;
        let answers = self.answers.get_mut(..head.answers)?;
        rows.fill(FILL);
        cells.fill(FILL);
        answers.fill(FILL);
        self.codes.fill(0);
        let run = run::entry::run(bytes, rows, cells, answers);
        call_codes(bytes, &mut self.codes);
        self.left(head, run)
    }

    // What a run left in the slices that it was lent.
    fn left(&self, head: &Head, run: Ran) -> Option<Words<'_>> {
        Some(Words {
            run,
            calls: Calls {
                codes: &self.codes,
                answers: self.answers.get(..head.answers)?,
            },
            table: Table {
                rows: self.rows.get(..head.rows)?,
                cells: self.cells.get(..head.cells)?,
            },
        })
    }
}

// Whether the text is the stored one, the next bytes of standard input; says where they part first. Past the end of either are
// zeros.
fn has_text(rt: &(impl Input + Print), left: &Words, size: usize) -> io::Result<bool> {
    let mut same = true;
    for from in (0..size).step_by(PART) {
        let mut stored = [0u8; PART];
        let mut came = [0u8; PART];
        let part = PART.min(size - from);
        stdio::read_full(rt, &mut stored[..part])?;
        left.window(Piece::Listing, from, 0, &mut came);
        let at = alike(&stored[..part], &came);
        if same && at < part {
            print!(rt; "\nfrom byte {from} on, past {at} bytes, stored: ")?;
            rt.write_all(line(&stored, at))?;
            print!(rt; "\ncame: ")?;
            rt.write_all(line(&came, at))?;
            println!(rt)?;
            same = false;
        }
    }
    let mut more = [0u8; PART];
    let seen = left.window(Piece::Listing, size, 0, &mut more);
    if 0 < seen.put {
        print!(rt; "\nmore came: ")?;
        rt.write_all(line(&more, 0))?;
        println!(rt)?;
        same = false;
    }
    Ok(same)
}

// Whether the words past the used ones are as they were; says where not.
fn has_kept(rt: &impl Print, left: &Words) -> io::Result<bool> {
    let mut kept = true;
    for (label, words, used) in [
        ("rows", left.table.rows, 24 * left.run.rows as usize),
        ("cells", left.table.cells, 8 * left.run.cells as usize),
        ("answers", left.calls.answers, 4 * left.run.calls as usize),
    ] {
        if !words.iter().skip(used).all(|word| *word == FILL) {
            println!(rt; "\n{label} past the used ones changed")?;
            kept = false;
        }
    }
    Ok(kept)
}

// A run that is refused as a whole has no calls, rows or cells; the text doesn't show that.
fn is_fair(run: Ran) -> bool {
    let Ran {
        number,
        calls,
        rows,
        cells,
        ..
    } = run;
    number == 0 || (calls == 0 && rows == 0 && cells == 0)
}

// How many bytes at the start of two texts are alike.
fn alike(a: &[u8], b: &[u8]) -> usize {
    a.iter().zip(b).take_while(|(x, y)| **x == **y).count()
}

// The rest of a line from an offset on, or what there is of it: it ends where the text does, too, with the zeros past that.
fn line(text: &[u8], from: usize) -> &[u8] {
    let rest = text.get(from..).unwrap_or(&[]);
    rest.split(|byte| *byte <= b'\n').next().unwrap_or(&[])
}

// Plays the run of a head and compares what it left with what is stored: the number of its calls, or `None` where they differ.
fn replay(rt: &(impl Input + Print), head: &Head, tables: &mut Tables) -> io::Result<Option<u32>> {
    tables.read_run(rt, head.stored)?;
    let Some(left) = tables.play(head) else {
        return Ok(None);
    };
    let same = has_text(rt, &left, head.text)?;
    let kept = has_kept(rt, &left)?;
    Ok((same && kept && is_fair(left.run)).then_some(left.run.calls))
}

// What was compared so far.
#[derive(Clone, Copy, Default)]
struct Tally {
    runs: u32,
    calls: u32,
    wrong: u32,
}

impl Tally {
    // One more run, of so many calls, or one that differs.
    fn count(&mut self, calls: Option<u32>) {
        self.runs = self.runs.saturating_add(1);
        match calls {
            Some(n) => self.calls = self.calls.saturating_add(n),
            None => self.wrong = self.wrong.saturating_add(1),
        }
    }
}

impl fmt::Display for Tally {
    fn fmt<W: fmt::Write>(&self, f: &mut fmt::Formatter<W>) -> fmt::Result {
        let Tally { runs, calls, wrong } = *self;
        write!(f, "{runs} runs, {calls} calls: ")?;
        if wrong == 0 {
            write!(f, "all as stored")
        } else {
            write!(f, "{wrong} runs differ")
        }
    }
}

fn main(rt: HostRuntime) -> io::Result<()> {
    let mut tables = Tables {
        rows: [0; ROWS],
        cells: [0; CELLS],
        answers: [0; ANSWERS],
        bytes: [0; BYTES],
        codes: [0; CALLS],
    };
    let mut tally = Tally::default();
    for _ in 0..100000 {
        let Some(head) = Head::read(&rt)? else {
            break;
        };
        rt.write_all(&head.name)?;
        let calls = replay(&rt, &head, &mut tables)?;
        println!(rt;
            "{}",
            if calls.is_some() {
                "as stored"
            } else {
                "DIFFERS"
            }
        )?;
        tally.count(calls);
    }
    println!(rt; "{tally}")
}
