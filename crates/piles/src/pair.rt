ghost use Rattle.piles.specs.Pair.{SideOf, paired};
ghost use Rattle.piles.specs.Laws.{paired_reach, paired_absence};
ghost use Rattle.problem.specs.Model.{model};

use problem::problem::Problem;
use rules::judgement::Judgement;
use rules::label::Label;
use rules::rule::Rule;
use table::table::Table;

/// The places of the first rule, then those of the second, cut off at 65,537.
#[derive(Drop)]
pub struct Pair<A, B> {
    pub first: A,
    pub second: B,
}

/// Where a place of a pair stands: at this place of its first rule, or at this place of its second.
#[derive(Clone, Copy)]
enum Side {
    First(u32),
    Second(u32),
}

impl<A: Rule, B: Rule> Pair<A, B> {
    /// Where a place stands, if it is below the count.
    fn side(&self, problem: &Problem, place: u32) -> Option<Side>
        ensures { SideOf (A.Rule.meaning self.now.first) (B.Rule.meaning self.now.second) (model problem.now) place result }
    {
        let first = self.first.count(problem);
        if place >= self.count(problem) {
            None
        } else if place < first {
            Some(Side::First(place))
        } else {
            Some(Side::Second(place - first))
        }
    }
}

impl<A: Rule, B: Rule> Rule for Pair<A, B> {
    ghost meaning = { λ s. paired (A.Rule.meaning s.first) (B.Rule.meaning s.second) };

    ghost reach = { λ r. paired_reach (A.Rule.meaning r.first) (B.Rule.meaning r.second) (A.Rule.reach r.first) (B.Rule.reach r.second) };

    ghost absence = { λ r. paired_absence (A.Rule.meaning r.first) (B.Rule.meaning r.second) (A.Rule.absence r.first) (B.Rule.absence r.second) };

    fn count(&self, problem: &Problem) -> u32 {
        let both = self.first.count(problem) + self.second.count(problem);
        both.min(65_537)
    }

    fn label(&self, problem: &Problem, place: u32) -> Label {
        match self.side(problem, place) {
            Some(Side::First(place)) => self.first.label(problem, place),
            Some(Side::Second(place)) => self.second.label(problem, place),
            None => Label { rule: 0, place },
        }
    }

    fn tasks(&self, problem: &Problem, place: u32) -> [u32; 2] {
        match self.side(problem, place) {
            Some(Side::First(place)) => self.first.tasks(problem, place),
            Some(Side::Second(place)) => self.second.tasks(problem, place),
            None => [0, 0],
        }
    }

    fn judge(&self, table: &Table, place: u32) -> Judgement {
        match self.side(&table.problem, place) {
            Some(Side::First(place)) => self.first.judge(table, place),
            Some(Side::Second(place)) => self.second.judge(table, place),
            None => Judgement::Kept,
        }
    }
}
