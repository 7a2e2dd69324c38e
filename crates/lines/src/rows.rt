// The line of a row, and its parts.
ghost use Rattle.std.specs.Prelude.{◌≡◌};
ghost use Rattle.writer.specs.Window.{written};
ghost use Rattle.lines.specs.Rows.{refs, rule, judgment, row_head, row_line};

use quotes::Table;
use rules::Name;
use writer::Output;

// The rows that the row `i` cites.
pub fn refs(table: &Table, output: &mut Output, i: u32)
    ensures { output.new ≡ written (refs table.now.rows.now i) output.old }
{
    let n = table.row_word(i, 1).min(10);
    if n == 0 {
        output.put(b'-');
        return;
    }
    output.number(table.row_word(i, 2));
    for k in 1..n {
        output.put(b',');
        output.number(table.row_word(i, 2 + k));
    }
}

// The rule of the row `i`, by name.
pub fn rule(table: &Table, output: &mut Output, i: u32)
    ensures { output.new ≡ written (rule table.now.rows.now i) output.old }
{
    output.bytes(Name::Rule(table.row_word(i, 0)).bytes());
}

// Its judgment, of the kind that the rule concludes.
pub fn judgment(table: &Table, output: &mut Output, i: u32)
    ensures { output.new ≡ written (judgment table.now.rows.now table.now.cells.now i) output.old }
{
    table.judgment(output, i, rules::rule_kind(table.row_word(i, 0)));
}

// A row's line: its number, its rule by name, the rows that it cites, and its judgment.
#[tactic(auto, using(writer::proofs::Laws::writing), unfolding(crate::specs::Rows::row_line))]
pub fn line(table: &Table, output: &mut Output, i: u32)
    ensures { output.new ≡ written (row_line table.now.rows.now table.now.cells.now i) output.old }
{
    head(table, output, i);
    refs(table, output, i);
    output.put(b' ');
    judgment(table, output, i);
    output.put(b'\n');
}

#[tactic(auto, using(writer::proofs::Laws::writing), unfolding(crate::specs::Rows::row_head))]
fn head(table: &Table, output: &mut Output, i: u32)
    ensures { output.new ≡ written (row_head table.now.rows.now i) output.old }
{
    output.number(i);
    output.put(b' ');
    rule(table, output, i);
    output.put(b' ');
}
