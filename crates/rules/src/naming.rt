ghost use Rattle.problem.specs.Model.{model};
ghost use Rattle.rules.specs.Search.{BrokenNaming, FoundAfterChange, FoundNaming, KeptNaming, NamesEither};
ghost use Rattle.std.specs.Bool.{MatchBool};
ghost use Rattle.std.specs.Prelude.{◌↔◌, IsTrue};
ghost use Rattle.table.specs.Table.{problem_of, rows_of};

use crate::judgement::Judgement;
use crate::rule::Rule;
use problem::problem::Problem;
use table::table::Table;

/// The place names one of two tasks.
fn names_either<R: Rule>(book: &R, problem: &Problem, place: u32, first: u32, second: u32) -> bool
    ensures { IsTrue result ↔ NamesEither (R.Rule.meaning book.now) (model problem.now) place first second }
{
    let named = book.tasks(problem, place);
    named.contains(&first) || named.contains(&second)
}

/// The place names one of two tasks and is broken in some frame.
fn is_broken_naming<R: Rule>(book: &R, table: &Table, place: u32, first: u32, second: u32) -> bool
    ensures { MatchBool result (BrokenNaming (R.Rule.meaning book.now) (problem_of table.now) (rows_of table.now) first second place) (KeptNaming (R.Rule.meaning book.now) (problem_of table.now) (rows_of table.now) first second place) }
{
    names_either(book, &table.problem, place, first, second)
        && book.judge(table, place) == Judgement::Broken
}

/// The first broken place, in book order, of those that name one of two tasks.
pub fn first_broken_naming<R: Rule>(book: &R, table: &Table, first: u32, second: u32) -> Option<u32>
    ensures found { FoundNaming (R.Rule.meaning book.now) (problem_of table.now) (rows_of table.now) first second result }
    ensures whole { FoundAfterChange (R.Rule.meaning book.now) (problem_of table.now) (rows_of table.now) first second result }
{
    let mut places = 0..book.count(&table.problem);
    places.find(|place| is_broken_naming(book, table, *place, first, second))
}
