// The index over any rows, wherever they came from: one after the other is put in, judgments that stand twice included.
ghost use Rattle.std.specs.Prelude.{◌≡◌};
ghost use Rattle.search.specs.Indexing.{index_row, indexed};

use ast::words::{put_all, word};
use producer::codes::Words;
use producer::rows::{link_row, row_start};

// Row `n` comes into the index of those below it, with the kind that its rule concludes and no child.
#[tactic(auto, unfolding(crate::specs::Indexing::index_row))]
fn index_row(rows: &mut [u32], n: u32)
    ensures { rows.new ≡ index_row rows.old n }
{
    let at = row_start(n);
    let words = Words {
        kind: rules::rule_kind(word(rows, at)),
        count: word(rows, at + 12),
        a: word(rows, at + 13),
        b: word(rows, at + 14),
        c: word(rows, at + 15),
        d: word(rows, at + 16),
        e: word(rows, at + 17),
    };
    link_row(rows, n, words);
    put_all(rows, at + 19, &[words.kind, 0, 0, 0, 0]);
}

// The first `n` rows are indexed: whatever their working words were, `find_row` then finds the highest row with a judgment.
#[tactic(auto, using(crate::proofs::Laws::indexed_none, crate::proofs::Laws::indexed_more))]
pub fn index_rows(rows: &mut [u32], n: u32)
    ensures { rows.new ≡ indexed rows.old n }
{
    for i in 0..n {
        index_row(rows, i);
    }
}
