ghost use Rattle.piles.specs.Scoped.{scoped};
ghost use Rattle.piles.specs.Laws.{scoped_reach, scoped_absence};

use crate::scope::Scope;
use problem::problem::Problem;
use rules::judgement::Judgement;
use rules::label::Label;
use rules::rule::Rule;
use table::table::Table;

/// A rule that counts at the places of a scope only.
#[derive(Drop)]
pub struct Scoped<R, S> {
    pub rule: R,
    pub scope: S,
}

impl<R: Rule, S: Scope> Rule for Scoped<R, S> {
    ghost meaning = { λ s. scoped (S.Scope.Covers s.scope) (R.Rule.meaning s.rule) };

    ghost reach = { λ s. scoped_reach (S.Scope.Covers s.scope) (R.Rule.meaning s.rule) (R.Rule.reach s.rule) };

    ghost absence = { λ s. scoped_absence (S.Scope.Covers s.scope) (R.Rule.meaning s.rule) (R.Rule.absence s.rule) };

    fn count(&self, problem: &Problem) -> u32 {
        self.rule.count(problem)
    }

    fn label(&self, problem: &Problem, place: u32) -> Label {
        self.rule.label(problem, place)
    }

    fn tasks(&self, problem: &Problem, place: u32) -> [u32; 2] {
        self.rule.tasks(problem, place)
    }

    fn judge(&self, table: &Table, place: u32) -> Judgement {
        if self.scope.covers(&self.rule, &table.problem, place) {
            self.rule.judge(table, place)
        } else {
            Judgement::Kept
        }
    }
}
