ghost use Rattle.std.specs.Prelude.{◌≡◌, ℕ, ◌↔◌, IsTrue};
ghost use Rattle.dependency_rule.specs.Dependencies.{InOrder, transfer_time};
ghost use Rattle.dependency_rule.specs.Link.{LinkAt};
ghost use Rattle.table.specs.Row.{row_model};
ghost use Rattle.table.specs.Table.{problem_of, rows_of};

use problem::dependency::Dependency;
use table::row::Row;
use table::table::Table;

/// A dependency with the rows of its source and of its destination.
#[derive(Clone, Copy)]
pub(crate) struct Link<'a> {
    dependency: Dependency,
    from: Row<'a>,
    to: Row<'a>,
}

impl<'a> Link<'a> {
    /// The dependency of a number, if the problem has it and both its tasks have a row.
    pub(crate) fn at(table: &'a Table, number: u32) -> Option<Link<'a>>
        ensures { LinkAt (problem_of table.now) (rows_of table.now) number result }
    {
        let dependency = table.problem.dependency(number)?;
        let from = table.row(dependency.source)?;
        let to = table.row(dependency.destination)?;
        Some(Link {
            dependency,
            from,
            to,
        })
    }

    /// How long the data takes: no time on one processor.
    fn transfer_time(&self) -> u32
        ensures { result ≡ transfer_time self.now.dependency (row_model self.now.from) (row_model self.now.to) }
    {
        if self.from.processor == self.to.processor {
            0
        } else {
            self.dependency.transfer
        }
    }

    /// The source ends, and its data arrives, before the destination starts, whichever instance it is.
    pub(crate) fn in_order(self, frame: u32) -> bool
        ensures { (n : ℕ) → (IsTrue result ↔ InOrder frame self.entry.dependency (row_model self.entry.from) (row_model self.entry.to) n) }
    {
        let arrival = u64::from(self.from.end()) + u64::from(self.transfer_time());
        let ahead = u64::from(self.dependency.depth) * u64::from(frame);
        arrival <= u64::from(self.to.start()) + ahead
    }
}
