ghost use Rattle.published.specs.Conditions.{LawfulExactly};
ghost use Rattle.published.specs.Found.{FoundLabel};
ghost use Rattle.table.specs.Table.{problem_of, rows_of};

use crate::book::PUBLISHED;
use rules::label::Label;
use rules::rule::Rule;
use rules::search::first_broken;
use table::table::Table;

/// The label of the first place of the published book that the table breaks in some frame, or nothing where it meets the eight scheduling conditions in every frame.
pub fn first_broken_label(table: &Table) -> Option<Label>
    ensures found { FoundLabel (problem_of table.now) (rows_of table.now) result }
    ensures exactly { LawfulExactly (problem_of table.now) }
{
    first_broken(&PUBLISHED, table).map(|place| PUBLISHED.label(&table.problem, place))
}
