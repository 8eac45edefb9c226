//! Judges one table after another by the published book and by piles, and prints what is said of each.
#![tactic(auto)]

mod building;
mod cases;
#[cfg(test)]
mod on_processor_0;
mod outcome;
mod problems;

use cases::{Case, Entry, Pile, Waived};
use dependency_rule::dependencies::Dependencies;
use outcome::Outcome;
use overlap_rule::overlaps::Overlaps;
use overlap_rule::search::overlap;
use piles::confinement::{Confinement, Inside};
use piles::fault::WaiverFull;
use piles::pair::Pair;
use piles::waiver::Waiver;
use problems::Records;
use published::judge::first_broken_label;
use rules::label::Label;
use rules::rule::Rule;
use spare_processor::SpareProcessor;
use table::table::Table;

/// Rules 7 and 8, as the book below the piles: its first places are those of the dependencies.
type Links = Pair<Dependencies, Overlaps>;

const LINKS: Links = Pair {
    first: Dependencies,
    second: Overlaps,
};

/// Prints what is said of a case.
fn say(rt: &HostRuntime, title: &str, outcome: Outcome) -> anyhow::Result<()> {
    println!(rt; "{title}: {outcome}")?;
    Ok(())
}

/// Prints where the rows of the two tasks that a place of rule 8 names share a tick without leave.
fn meeting(rt: &HostRuntime, table: &Table, place: u32) -> anyhow::Result<()> {
    let [i, j] = Overlaps.tasks(&table.problem, place);
    if let Some(found) = overlap(table, i, j) {
        println!(rt;
            "    tasks {i} and {j}, distance {}, parts {} and {}",
            found.distance, found.first, found.second
        )?;
    }
    Ok(())
}

/// Prints what the published book says of a case's table.
fn judged(rt: &HostRuntime, records: Records, case: &Case) -> anyhow::Result<()> {
    let (title, change, rows) = *case;
    let Some(table) = building::table(rt.alloc(), records, change, rows)? else {
        return say(rt, title, Outcome::NoTable);
    };
    let broken = first_broken_label(&table);
    say(rt, title, broken.into())?;
    if let Some(Label { rule: 8, place }) = broken {
        meeting(rt, &table, place)?;
    }
    Ok(())
}

/// Judges the tables of cases for a problem, each with its change made.
fn trials(rt: &HostRuntime, records: Records, cases: &[Case]) -> anyhow::Result<()> {
    for case in cases {
        judged(rt, records, case)?;
    }
    Ok(())
}

/// Prints what another book says of a table for the worked example.
fn judged_by<R: Rule>(
    rt: &HostRuntime,
    title: &str,
    book: &R,
    rows: &[Entry],
) -> anyhow::Result<()> {
    let table = building::table(rt.alloc(), problems::WORKED, None, rows)?;
    say(
        rt,
        title,
        table.map_or(Outcome::NoTable, |table| Outcome::under(book, &table)),
    )
}

/// The book with the places from `first` up to `end` waived. Each is given twice: one that is listed needs no more room.
fn waiver(first: u32, end: u32) -> Result<Waiver<Links>, WaiverFull> {
    let mut waiver = Waiver::new(LINKS);
    for place in first..end {
        waiver.waive(place)?;
        waiver.waive(place)?;
    }
    Ok(waiver)
}

/// Judges one table under one waiver after another.
fn waived(rt: &HostRuntime, rows: &[Entry], cases: &[Waived]) -> anyhow::Result<()> {
    for (title, first, end) in cases {
        match waiver(*first, *end) {
            Ok(book) => judged_by(rt, title, &book, rows)?,
            Err(full) => say(rt, title, Outcome::Full(full.place))?,
        }
    }
    Ok(())
}

/// Judges tables, each by the book that is made of its number.
fn piled<R: Rule + Drop, F: Fn(u32) -> R>(
    rt: &HostRuntime,
    piles: &[Pile],
    book: F,
) -> anyhow::Result<()>
    requires { F.IsAlwaysCallable book }
{
    for (title, number, rows) in piles {
        judged_by(rt, title, &book(*number), rows)?;
    }
    Ok(())
}

/// The book, inside one partition.
fn confined(partition: u32) -> Confinement<Links> {
    Confinement {
        rule: LINKS,
        scope: Inside { partition },
    }
}

/// The book, and then the rule of the spare processor.
fn spared(processor: u32) -> Pair<Links, SpareProcessor> {
    Pair {
        first: LINKS,
        second: SpareProcessor { processor },
    }
}

fn run(rt: &HostRuntime) -> anyhow::Result<()> {
    trials(rt, problems::WORKED, &cases::WORKED)?;
    trials(rt, problems::WORKED, &cases::WORKED_CHANGED)?;
    trials(rt, problems::LONG_AND_SHORT, &cases::LONG_AND_SHORT)?;
    trials(rt, problems::LONG_AND_SHORT, &cases::LONG_AND_SHORT_CHANGED)?;
    trials(rt, problems::SHORT_AND_LONG, &cases::SHORT_AND_LONG)?;
    waived(rt, cases::WITH_D, &cases::WAIVED)?;
    piled(rt, &cases::CONFINED, confined)?;
    piled(rt, &cases::SPARED, spared)
}

fn main(rt: HostRuntime) -> anyhow::Result<()> {
    run(&rt)
}

#[cfg(test)]
mod tests {
    use super::*;
    use on_processor_0::OnProcessor0;
    use published::book::PUBLISHED;
    use rules::judgement::Judgement;
    use rules::search::first_broken;
    use rules::task_rule::{EachTask, EachTaskRef};
    use std::test::Fail;

    /// What a rule answers of the worked example's four tasks. Place 4 is past the count.
    #[derive(Clone, Copy, PartialEq, Eq, Debug)]
    struct Answers {
        count: u32,
        label_of_1: Label,
        label_of_4: Label,
        tasks_of_1: [u32; 2],
        tasks_of_4: [u32; 2],
        /// Of places 0, 1, 2 and 4.
        judged: [Judgement; 4],
    }

    /// A is on processor 0, B on processor 1, and C and D have no row.
    const ROWS: &[Entry] = &[(0, 0, &[(0, 20)]), (1, 1, &[(80, 100), (140, 170)])];

    /// What a rule answers on these rows.
    fn asked<R: Rule>(rt: &HostRuntime, rule: &R) -> anyhow::Result<Option<Answers>> {
        let table = building::table(rt.alloc(), problems::WORKED, None, ROWS)?;
        Ok(table.map(|table| Answers {
            count: rule.count(&table.problem),
            label_of_1: rule.label(&table.problem, 1),
            label_of_4: rule.label(&table.problem, 4),
            tasks_of_1: rule.tasks(&table.problem, 1),
            tasks_of_4: rule.tasks(&table.problem, 4),
            judged: [0, 1, 2, 4].map(|place| rule.judge(&table, place)),
        }))
    }

    /// What the rule answers that wants every row on processor 0.
    const ON_PROCESSOR_0: Answers = Answers {
        count: 4,
        label_of_1: Label {
            rule: 101,
            place: 1,
        },
        label_of_4: Label { rule: 0, place: 4 },
        tasks_of_1: [1, 1],
        tasks_of_4: [0, 0],
        judged: [
            Judgement::Kept,
            Judgement::Broken,
            Judgement::Kept,
            Judgement::Kept,
        ],
    };

    #[test]
    fn an_owned_task_rule_is_a_rule(rt: HostRuntime) -> Result<(), Fail> {
        let said = asked(&rt, &EachTask(OnProcessor0))?;
        assert_eq!(rt; said, Some(ON_PROCESSOR_0));
        Ok(())
    }

    #[test]
    fn a_lent_task_rule_is_a_rule(rt: HostRuntime) -> Result<(), Fail> {
        let said = asked(&rt, &EachTaskRef(&OnProcessor0))?;
        assert_eq!(rt; said, Some(ON_PROCESSOR_0));
        Ok(())
    }

    #[test]
    fn task_rules_stand_in_piles(rt: HostRuntime) -> Result<(), Fail> {
        let table = building::table(rt.alloc(), problems::WORKED, None, ROWS)?;
        let book = Pair {
            first: Dependencies,
            second: EachTask(OnProcessor0),
        };
        // Places 0 and 1 are those of the two dependencies, and place 3 is B's.
        assert_eq!(rt;
            table.and_then(|table| first_broken(&book, &table)),
            Some(3)
        );
        Ok(())
    }

    /// The published book is seven pairs deep already, and buyers pile on it.
    #[test]
    fn a_pile_may_be_eleven_levels_deep(rt: HostRuntime) -> Result<(), Fail> {
        // B has no duration on processor 1.
        let rows: &[Entry] = &[(1, 1, &[(80, 100), (140, 170)])];
        let table = building::table(rt.alloc(), problems::WORKED, None, rows)?;
        let book = Waiver::new(Waiver::new(Waiver::new(Waiver::new(PUBLISHED))));
        assert_eq!(rt;
            table.and_then(|table| first_broken(&book, &table)),
            Some(1)
        );
        Ok(())
    }
}
