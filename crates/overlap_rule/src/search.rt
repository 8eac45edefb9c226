ghost use Rattle.std.specs.Prelude.{◌≡◌, ℕ, ◌^◌, ◌≤◌, pos, ◌*ℤ◌, nat_abs, ◌↔◌, IsTrue};
ghost use Rattle.overlap_rule.specs.Search.{AtDistance, FoundBetween, FoundOverlap, ShareTick};
ghost use Rattle.problem.specs.Model.{model};
ghost use Rattle.table.specs.Row.{row_model};
ghost use Rattle.table.specs.Shape.{LawfulShape};
ghost use Rattle.table.specs.Table.{problem_of, rows_of};

use crate::exclusions::never_both;
use crate::overlap::Overlap;
use problem::problem::Problem;
use table::part::Part;
use table::row::Row;
use table::table::Table;

/// So many frames, in ticks.
fn ticks_of(frame: u32, distance: i8) -> i64
    ensures value { result ≡ distance *ℤ pos frame }
    ensures bound { nat_abs result ≤ 2 ^ 39 }
{
    i64::from(distance) * i64::from(frame)
}

/// The parts share a tick, the second in the instance at the distance from the first's.
fn share_tick(frame: u32, first: Part, second: Part, distance: i8) -> bool
    ensures { (n m : ℕ) → AtDistance n m distance → (IsTrue result ↔ ShareTick frame first n second m) }
{
    let shift = ticks_of(frame, distance);
    let begin = i64::from(first.begin).max(i64::from(second.begin) + shift);
    let end = i64::from(first.end).min(i64::from(second.end) + shift);
    begin < end
}

/// The first overlap without leave of the rows of `i` and `j`, by distance, then by the parts.
fn between(problem: &Problem, i: u32, j: u32, a: &Row<'_>, b: &Row<'_>) -> Option<Overlap>
    requires a { LawfulShape problem.now.dimensions (row_model a.now) }
    requires b { LawfulShape problem.now.dimensions (row_model b.now) }
    ensures { FoundBetween (model problem.now) i j (row_model a.now) (row_model b.now) result }
{
    let frame = problem.dimensions.frame;
    'search: {
        for distance in -3..=3 {
            for (first, part) in a.parts.iter().enumerate() {
                for (second, other) in b.parts.iter().enumerate() {
                    if share_tick(frame, *part, *other, distance)
                        && !never_both(problem, i, j, distance)
                    {
                        break 'search Some(Overlap {
                            distance: i64::from(distance),
                            first,
                            second,
                        });
                    }
                }
            }
        }
        None
    }
}

/// The first overlap without leave of two tasks' rows, by distance, then by the parts; none where one has no row or they are on different processors.
pub fn overlap(table: &Table, i: u32, j: u32) -> Option<Overlap>
    ensures { FoundOverlap (problem_of table.now) i j (rows_of table.now) result }
{
    let a = table.row(i)?;
    let b = table.row(j)?;
    if a.processor != b.processor {
        return None;
    }
    between(&table.problem, i, j, &a, &b)
}
