ghost use Rattle.problem.specs.Model.{model};
ghost use Rattle.rules.specs.Laws.{each_absence, each_reach};
ghost use Rattle.std.specs.Prelude.{◌≡◌};
ghost use Rattle.window_rule.specs.Tests.{served};
ghost use Rattle.window_rule.specs.Windows.{InWindows, window_rule};

use problem::problem::Problem;
use rules::each_task;
use rules::judgement::Judgement;
use rules::label::Label;
use rules::rule::Rule;
use rules::task_rule::TaskRule;
use table::part::Part;
use table::placed::Placed;
use table::table::Table;

/// Rule 4. Each part of a row lies inside one window of its task's partition on its processor, repeated each frame.
#[derive(Clone, Copy)]
pub struct Windows;

/// A window of the task's partition on the row's processor serves the part where it lies in the frame in which it begins.
/// A window ends by the end of the frame, so a part that runs past the end of the frame in which it begins lies inside none.
fn is_served(placed: &Placed<'_>, part: &Part) -> bool
    ensures { result ≡ served (model placed.now.problem.now) placed.now.task.partition placed.now.row.processor part.now }
{
    let begin = part.begin % placed.problem.dimensions().frame;
    let end = u64::from(begin) + u64::from(part.ticks());
    placed.problem.windows.iter().any(|window| {
        window.partition == placed.task.partition
            && window.processor == placed.row.processor
            && window.begin <= begin
            && end <= u64::from(window.end)
    })
}

impl TaskRule for Windows {
    const NUMBER: u32 = 4;

    ghost NUMBER = { 4 };

    ghost wanted = { λ _. InWindows };

    fn wants(&self, placed: &Placed<'_>) -> bool {
        placed.row.parts.iter().all(|part| is_served(placed, part))
    }
}

impl Rule for Windows {
    ghost meaning = { λ _. window_rule };

    ghost reach = { λ _. each_reach 4 InWindows };

    ghost absence = { λ _. each_absence 4 InWindows };

    fn count(&self, problem: &Problem) -> u32 {
        each_task::count(problem)
    }

    fn label(&self, problem: &Problem, place: u32) -> Label {
        each_task::label(Self::NUMBER, problem, place)
    }

    fn tasks(&self, problem: &Problem, place: u32) -> [u32; 2] {
        each_task::tasks(problem, place)
    }

    fn judge(&self, table: &Table, place: u32) -> Judgement {
        each_task::judge(self, table, place)
    }
}
