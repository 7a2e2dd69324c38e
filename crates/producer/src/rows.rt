// Rows: 24 words each. Rule, cited rows (count, ten places), arguments (count, five places), the number of the
// call, which is 0 until that ends, and five working words: the judgment's kind, and four of the index. Nothing but `find_row` and `link_row` knows how a known judgment is found.
ghost use Rattle.std.specs.Prelude.{◌≡◌, ◌*◌};
ghost use Rattle.std.proofs.lemmas.List.Edits.{sets};
ghost use Rattle.producer.specs.Answers.{end};
ghost use Rattle.producer.specs.Judgments.{emit_as, emit_words, known_as, rule_number};
ghost use Rattle.producer.specs.Machine.{machine, row_slot, quarter, row_hash, find_row, link_row, cons_refs, join_refs, refs_of, row_block, same_row, emit_has, emit_eq};

use crate::State;
use crate::answers::Answer;
use crate::codes::{Judgment, Rule, Words};
use ast::cells::quote;
use ast::index::{Indexed, hash, last, link, mix};
use ast::refusals::Refusal;
use ast::words::{put_all, word};

// The rows cited: how many, and these; 0 past the last.
#[derive(Clone, Copy)]
pub struct Refs {
    pub count: u32,
    pub rows: [u32; 10],
}

// A row cited before others.
#[tactic(auto, unfolding(crate::specs::Machine::cons_refs, ast::specs::Words::up))]
pub fn cite_before(x: u32, refs: Refs) -> Refs
    ensures { result ≡ cons_refs x refs }
{
    let r = refs.rows;
    Refs {
        count: refs.count.wrapping_add(1),
        rows: [x, r[0], r[1], r[2], r[3], r[4], r[5], r[6], r[7], r[8]],
    }
}

// These rows cited.
#[tactic(auto, unfolding(crate::specs::Machine::refs_of, crate::specs::Machine::no_refs))]
pub fn cite<const N: usize>(rows: [u32; N]) -> Refs
    ensures { result ≡ refs_of rows.entry }
{
    let mut refs = Refs {
        count: 0,
        rows: [0; 10],
    };
    for i in (0..N).rev() {
        refs = cite_before(rows[i], refs);
    }
    refs
}

// The first row of the one, where it has any, cited before the other.
#[tactic(auto, unfolding(crate::specs::Machine::join_refs))]
pub fn cite_first(first: Refs, refs: Refs) -> Refs
    ensures { result ≡ join_refs first refs }
{
    if first.count == 0 {
        return refs;
    }
    cite_before(first.rows[0], refs)
}

// Where row `i` starts.
pub fn row_start(i: u32) -> usize
    ensures { result ≡ i * 24 }
{
    (i as usize) * 24
}

// Whether row `i` has the judgment's kind and arguments. The third argument is looked at first: it tells most rows apart, and a search
// goes through many.
#[tactic(auto, unfolding(crate::specs::Machine::same_row, ast::specs::Words::all_eq))]
pub fn same_row(rows: &[u32], i: u32, words: Words) -> bool
    ensures { result ≡ same_row rows.now words.kind words.a words.b words.c words.d words.e i }
{
    let at = row_start(i);
    word(rows, at + 15) == words.c
        && word(rows, at + 14) == words.b
        && word(rows, at + 19) == words.kind
        && word(rows, at + 13) == words.a
        && word(rows, at + 16) == words.d
        && word(rows, at + 17) == words.e
}

// The hash of a judgment.
#[tactic(auto, unfolding(crate::specs::Machine::row_hash))]
pub fn row_hash(words: Words) -> u32
    ensures { result ≡ row_hash words.kind words.a words.b words.c words.d words.e }
{
    let h0 = hash(words.kind, words.a, words.b, words.c);
    let h1 = mix(h0, words.d);
    mix(h1, words.e)
}

// The table of rows, as one that is indexed: four children of a row stand in its last words.
pub struct Rows;

impl Indexed for Rows {
    ghost slot = { row_slot };

    ghost rest = { quarter };

    #[tactic(auto, unfolding(crate::specs::Machine::row_slot))]
    fn slot(i: u32, h: u32) -> usize {
        (i as usize) * 24 + 20 + ((h % 4) as usize)
    }

    #[tactic(auto, unfolding(crate::specs::Machine::quarter))]
    fn rest(h: u32) -> u32 {
        h / 4
    }
}

// The last row below `n` that has the judgment's kind and arguments.
#[inline(always)]
pub fn find_row(rows: &[u32], n: u32, words: Words) -> Option<u32>
    ensures { result ≡ find_row rows.now n words.kind words.a words.b words.c words.d words.e }
{
    let h = row_hash(words);
    last::<Rows, _>(rows, n, h, |i| same_row(rows, i, words))
}

// The row `n` with the judgment comes at the end of its path.
#[tactic(auto, unfolding(crate::specs::Machine::link_row))]
pub fn link_row(rows: &mut [u32], n: u32, words: Words)
    ensures { rows.new ≡ link_row rows.old n words.kind words.a words.b words.c words.d words.e }
{
    let h = row_hash(words);
    link::<Rows>(rows, n, h);
}

// Stores row `n`.
pub fn put_row(rows: &mut [u32], n: u32, rule: u32, refs: Refs, words: Words)
    ensures { rows.new ≡ sets rows.old (n * 24) (row_block rule refs words.kind words.count words.a words.b words.c words.d words.e) }
{
    let Words {
        kind,
        count,
        a,
        b,
        c,
        d,
        e,
    } = words;
    let r = refs.rows;
    let row = [
        rule, refs.count, r[0], r[1], r[2], r[3], r[4], r[5], r[6], r[7], r[8], r[9], count, a, b,
        c, d, e, 0, kind, 0, 0, 0, 0,
    ];
    put_all(rows, row_start(n), &row);
}

impl State {
    // The row that states the judgment already: the last that does.
    #[tactic(auto, unfolding(crate::specs::Judgments::known_as, crate::specs::Judgments::known_words))]
    pub fn known(self, rows: &[u32], judgment: Judgment) -> Option<u32>
        ensures { result ≡ known_as rows.now self.rows judgment }
    {
        find_row(rows, self.rows, judgment.words())
    }

    // The row with the kind and the arguments: the last that has them, or a new one, by the rule; refuses (18) where none is left. Any
    // number may be the kind, or the rule.
    #[tactic(auto, unfolding(crate::specs::Machine::emit, crate::specs::Machine::known_row, crate::specs::Machine::known_or, crate::specs::Machine::new_row, crate::specs::Machine::add_row, crate::specs::Judgments::emit_words, crate::proofs::Steps::steps))]
    pub fn emit_words(
        mut self,
        rows: &mut [u32],
        cells: &[u32],
        rule: u32,
        refs: Refs,
        words: Words,
    ) -> Answer<u32>
        ensures { end result rows.new cells.now ≡ emit_words rule refs words (machine rows.old cells.now self) }
    {
        let n = self.rows;
        match find_row(rows, n, words) {
            Some(i) => Ok((self, i)),
            None => {
                if n < self.rowroom {
                    link_row(rows, n, words);
                    put_row(rows, n, rule, refs, words);
                    self.rows = n + 1;
                    return Ok((self, n));
                }
                Err(self.refused(Refusal::Rows))
            }
        }
    }

    // The row with the judgment: the last that has it, or a new one, by the rule.
    #[tactic(auto, unfolding(crate::specs::Judgments::emit_as))]
    pub fn emit(
        self,
        rows: &mut [u32],
        cells: &[u32],
        rule: Rule,
        refs: Refs,
        judgment: Judgment,
    ) -> Answer<u32>
        ensures { end result rows.new cells.now ≡ emit_as (rule_number rule) refs judgment (machine rows.old cells.now self) }
    {
        self.emit_words(rows, cells, rule.number(), refs, judgment.words())
    }

    // The row of a typing: by quotes.
    #[tactic(auto, unfolding(crate::specs::Machine::emit_has, crate::proofs::Steps::steps, crate::proofs::Steps::stated))]
    pub fn emit_has(
        self,
        rows: &mut [u32],
        cells: &[u32],
        rule: Rule,
        refs: Refs,
        d: u32,
        g: u32,
        t: u32,
        ty: u32,
    ) -> Answer<u32>
        ensures { end result rows.new cells.now ≡ emit_has (rule_number rule) refs d g t ty (machine rows.old cells.now self) }
    {
        let context = quote(cells, g);
        let term = quote(cells, t);
        let kind = quote(cells, ty);
        self.emit(
            rows,
            cells,
            rule,
            refs,
            Judgment::Has(d, context, term, kind),
        )
    }

    // The row of an equation: by quotes.
    #[tactic(auto, unfolding(crate::specs::Machine::emit_eq, crate::proofs::Steps::steps, crate::proofs::Steps::stated))]
    pub fn emit_eq(
        self,
        rows: &mut [u32],
        cells: &[u32],
        rule: Rule,
        refs: Refs,
        d: u32,
        g: u32,
        a: u32,
        b: u32,
        ty: u32,
    ) -> Answer<u32>
        ensures { end result rows.new cells.now ≡ emit_eq (rule_number rule) refs d g a b ty (machine rows.old cells.now self) }
    {
        let context = quote(cells, g);
        let left = quote(cells, a);
        let right = quote(cells, b);
        let kind = quote(cells, ty);
        self.emit(
            rows,
            cells,
            rule,
            refs,
            Judgment::Eq(d, context, left, right, kind),
        )
    }
}
