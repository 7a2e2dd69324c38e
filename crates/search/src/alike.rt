// Two cells by what their quotes show, over any words.
ghost use Rattle.std.specs.Prelude.{◌≡◌};
ghost use Rattle.search.specs.Alike.{same_part, same_cells};

use ast::cells::cell_word;
use rules::Sort;

// Whether two cells show the same: where the first has a quote, whether that is the quote of the second. Equal numbers need no look, so
// cells that share their parts are compared once.
#[cycle(same_cells_same_part)]
#[tactic(auto, using(crate::specs::Alike::cells_node), unfolding(crate::specs::Alike::same_node))]
pub fn same_cells(cells: &[u32], i: u32, j: u32) -> bool
    ensures { result ≡ same_cells cells.now i j }
{
    if i == j {
        return true;
    }
    let kind = cell_word(cells, i, 0);
    cell_word(cells, j, 0) == kind
        && same_part(cells, kind, 0, i, j)
        && same_part(cells, kind, 1, i, j)
        && same_part(cells, kind, 2, i, j)
}

// Whether a part of two cells of one kind is the same. Parts have lower numbers than the whole, so the depth of calls is at most the
// number of cells.
#[cycle(same_cells_same_part)]
#[tactic(auto, unfolding(crate::specs::Alike::same_part))]
fn same_part(cells: &[u32], kind: u32, n: u32, i: u32, j: u32) -> bool
    ensures { result ≡ same_part (same_cells cells.now) cells.now kind n i j }
{
    let Some(part) = rules::node_part(kind, n) else {
        return true;
    };
    let x = cell_word(cells, i, part.word);
    let y = cell_word(cells, j, part.word);
    match part.sort {
        Sort::Number => x == y,
        Sort::Term | Sort::Interval | Sort::Context => x < i && y < j && same_cells(cells, x, y),
    }
}
