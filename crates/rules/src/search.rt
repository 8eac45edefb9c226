ghost use Rattle.rules.specs.Search.{Found, Lasting};
ghost use Rattle.std.specs.Prelude.{IfNone};
ghost use Rattle.table.specs.Table.{problem_of, rows_of};

use crate::judgement::Judgement;
use crate::rule::Rule;
use table::table::Table;

/// The first broken place of the whole book, or nothing where the table is lawful.
pub fn first_broken<R: Rule>(book: &R, table: &Table) -> Option<u32>
    ensures found { Found (R.Rule.meaning book.now) (problem_of table.now) (rows_of table.now) result }
    ensures lasting { IfNone result (Lasting (R.Rule.meaning book.now) (problem_of table.now) (rows_of table.now)) }
{
    (0..book.count(&table.problem)).find(|place| book.judge(table, *place) == Judgement::Broken)
}
