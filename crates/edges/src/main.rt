// Plays the cases of standard input and prints what each run answers. A case is a line: its name, the words lent of the row table, of
// the cell store and of the answers, then the run's bytes. tools/edges.py writes the cases and says what each is for; what they must
// answer, `stdout`, it takes from the oracle, and it sees that this is what docs/FORMAT.md says of the cases that it has.
//
// For each case are printed its name; number, place, calls, rows, cells and repeats of the run; whether the words past the used ones
// stayed, in the row table, the cell store and the answers, also where the run is refused and none is used; and the last eight
// calls' lines as the listing has them. The words that a case takes of the table are first filled with one that no run stores.
//
// Stack: the table takes 6.0 MB of it. The run `deep` of tools/edges.py meets the limit 4,096 too, and takes 3.0 MB for that: too
// much beside the table where the stack has 8 MB. It stands here with the limit 1,024, which takes 0.9 MB.
#![tactic(auto)]

use ran::Ran;
use std::io;
use text::{Calls, Piece, Table, Words};

// The word that slices hold before a run.
const FILL: u32 = 2863311530;

// How many words each part of the table has past those that are lent: so many where the table has them, and at the least so many.
const PAST: usize = 8192;

const LEAST_PAST: usize = 1024;

// The words of the table: as many as a case with all rows takes.
const WORDS: usize = 1200048 + 305152 + 2048 + 3 * LEAST_PAST;

// More calls than any run has, and the words of their answers.
const CALLS: usize = 49930;

const ANSWERS: u32 = 199720;

// How many bytes of cases are read.
const CASES: usize = 65536;

// How many bytes of a case's run are made: a run that is too long has more than 65,536.
const BYTES: usize = 65540;

// The words of each slice that a case lends.
#[derive(Clone, Copy)]
struct Lent {
    rows: u32,
    cells: u32,
    answers: u32,
}

impl Lent {
    // Whether a case may lend so many: few rows and the answers of any run, or all rows that a run has and few answers. Of a case
    // that lends more the name alone is printed.
    fn may_be(self) -> bool {
        if self.rows <= 24576 {
            self.cells <= 16384 && self.answers <= ANSWERS
        } else {
            self.rows <= 1200048 && self.cells <= 305152 && self.answers <= 2048
        }
    }
}

// Plays a run, with so many words of each part of the table, if a case may lend them; what it left. Only the parts are filled.
fn play<'a>(
    lent: Lent,
    bytes: &[u8],
    table: &'a mut [u32],
    codes: &'a mut [u8],
) -> Option<Words<'a>> {
    if !lent.may_be() {
        return None;
    }
    let lent_rows = lent.rows as usize;
    let lent_cells = lent.cells as usize;
    let lent_answers = lent.answers as usize;
    let spare = WORDS.saturating_sub(lent_rows + lent_cells + lent_answers);
    let past = PAST.min(spare / 3);
    let (rows, rest) = table.split_at_mut_checked(lent_rows + past)?;
    let (cells, rest) = rest.split_at_mut_checked(lent_cells + past)?;
    let (answers, _) = rest.split_at_mut_checked(lent_answers + past)?;
    rows.fill(FILL);
    cells.fill(FILL);
    answers.fill(FILL);
    let run = run::entry::run(
        bytes,
        &mut rows[..lent_rows],
        &mut cells[..lent_cells],
        &mut answers[..lent_answers],
    );
    syntax::call_codes(bytes, codes);
    Some(Words {
        run,
        calls: Calls { codes, answers },
        table: Table { rows, cells },
    })
}

// What a run answered, whether the words past those that it used stayed, and the lines of its last eight calls.
fn report(rt: &impl Print, left: &Words) -> io::Result<()> {
    let Ran {
        number,
        place,
        calls,
        rows,
        cells,
    } = left.run;
    let repeats = left.calls.repeats(calls);
    print!(rt; "run {number} {place} {calls} {rows} {cells} {repeats}")?;
    let rows = past(left.table.rows, 24 * rows as usize);
    let cells = past(left.table.cells, 8 * cells as usize);
    let answers = past(left.calls.answers, 4 * calls as usize);
    println!(rt; " {rows} {cells} {answers}")?;
    for i in calls.saturating_sub(8)..calls {
        let mut buf = [0u8; 4096];
        let seen = left.window(Piece::CallLine(i), 0, 0, &mut buf);
        print!(rt; "call ")?;
        rt.write_all(&buf[..seen.put])?;
    }
    Ok(())
}

// Whether the words past the used ones are the one that all were filled with.
fn past(words: &[u32], used: usize) -> &'static str {
    if words.iter().skip(used).all(|word| *word == FILL) {
        "stay"
    } else {
        "changed"
    }
}

// The bytes of a case that are not read yet, and of the cases behind it: where a case ends early, what it lacks is read from the next.
#[derive(Drop)]
struct Reader<'a> {
    rest: &'a [u8],
}

impl Reader<'_> {
    // The next byte, and the end of a line past the last.
    fn next(&self) -> u8 {
        self.rest.first().copied().unwrap_or(b'\n')
    }

    fn skip(&mut self, count: usize) {
        self.rest = self.rest.get(count..).unwrap_or(&[]);
    }

    // The number in decimal behind the next byte: its last seven digits at most, and 0 where there is none.
    fn number(&mut self) -> u32 {
        self.skip(1);
        let mut value = 0;
        for _ in 0..CASES {
            let digit = self.next();
            if !digit.is_ascii_digit() {
                break;
            }
            value = value % 1000000 * 10 + u32::from(digit - b'0');
            self.skip(1);
        }
        value
    }

    // Adds what the next word of the run's bytes stands for: a byte, or `K*N`, N more bytes, each the one that is K before it.
    fn add(&mut self, bytes: &mut Bytes) {
        let value = self.number();
        if self.next() == b'*' {
            let count = self.number();
            bytes.repeat(value as usize, count);
        } else {
            bytes.push((value % 256) as u8);
        }
    }

    // Adds the bytes of the words from here on, each behind a blank.
    fn add_all(&mut self, bytes: &mut Bytes) {
        for _ in 0..CASES {
            if self.next() != b' ' {
                break;
            }
            self.add(bytes);
        }
    }
}

// The bytes of a case's run, at the start of the room for them.
#[derive(Drop)]
struct Bytes<'a> {
    room: &'a mut [u8; BYTES],
    len: usize,
}

impl Bytes<'_> {
    fn as_slice(&self) -> &[u8] {
        self.room.get(..self.len).unwrap_or(&[])
    }

    // Adds a byte, where there is room.
    fn push(&mut self, byte: u8) {
        if self.len < BYTES {
            self.room[self.len] = byte;
            self.len += 1;
        }
    }

    // Adds so many bytes, each the one that is `back` before it, and 0 where that is itself; none where there is no room, or none
    // so far before.
    fn repeat(&mut self, back: usize, count: u32) {
        for _ in 0..count {
            let Some(at) = self.len.checked_sub(back) else {
                break;
            };
            if BYTES <= self.len {
                break;
            }
            self.push(self.room[at]);
        }
    }
}

// The case at the start of these bytes.
fn case(rt: &impl Print, cases: &[u8], table: &mut [u32]) -> io::Result<()> {
    let mut reader = Reader { rest: cases };
    let name = cases
        .split(|byte| *byte == b' ' || *byte == b'\n')
        .next()
        .unwrap_or(&[]);
    rt.write_all(name)?;
    println!(rt)?;
    reader.skip(name.len());
    let lent = Lent {
        rows: reader.number(),
        cells: reader.number(),
        answers: reader.number(),
    };
    let mut room = [0u8; BYTES];
    let mut bytes = Bytes {
        room: &mut room,
        len: 0,
    };
    reader.add_all(&mut bytes);
    let mut codes = [0u8; CALLS];
    if let Some(left) = play(lent, bytes.as_slice(), table, &mut codes) {
        report(rt, &left)?;
    }
    Ok(())
}

// A table in a function of its own: the checker does not take apart what it is full of.
fn table() -> [u32; WORDS] {
    [0; WORDS]
}

fn main(rt: HostRuntime) -> io::Result<()> {
    let mut input = [0u8; CASES];
    let n = stdio::read_full(&rt, &mut input)?;
    let cases = &input[..n];
    let mut table = table();
    for i in 0..n {
        let begins = i == 0 || cases[i - 1] == b'\n';
        if begins && cases[i] != b'#' && cases[i] != b'\n' {
            case(&rt, &cases[i..], &mut table)?;
        }
    }
    Ok(())
}
