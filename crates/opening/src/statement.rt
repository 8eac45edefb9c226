ghost use Rattle.opening.specs.Opened.{stated};
ghost use Rattle.opening.specs.Statement.{added, bare, said};
ghost use Rattle.problem.specs.Limits.{Within};
ghost use Rattle.problem.specs.Model.{model};
ghost use Rattle.std.specs.Prelude.{◌≡◌, IfOk, OnOk};

use problem::dependency::Dependency;
use problem::dimensions::Dimensions;
use problem::exclusion::Exclusion;
use problem::problem::Problem;
use problem::task::Task;
use problem::window::Window;
use problem_file::file::ProblemFile;
use problem_file::record::Item;
use std::alloc::{AllocError, Global};

/// What a file states: the dimensions and the records by their kinds, each kind in the file's order.
#[derive(Drop)]
pub(crate) struct Statement {
    pub(crate) dimensions: Dimensions,
    pub(crate) tasks: Vec<Task>,
    pub(crate) windows: Vec<Window>,
    pub(crate) dependencies: Vec<Dependency>,
    pub(crate) exclusions: Vec<Exclusion>,
}

impl Statement {
    /// Dimensions, and no records yet.
    fn new(heap: Global, dimensions: Dimensions) -> Statement
        ensures { said result ≡ bare dimensions }
    {
        Statement {
            dimensions,
            tasks: Vec::new(heap),
            windows: Vec::new(heap),
            dependencies: Vec::new(heap),
            exclusions: Vec::new(heap),
        }
    }

    /// Adds a record to the list of its kind.
    fn push(&mut self, item: Item) -> Result<(), AllocError>
        ensures { OnOk result (said self.new ≡ added (said self.old) item) }
    {
        match item {
            Item::Task(task) => self.tasks.push(task)?,
            Item::Window(window) => self.windows.push(window)?,
            Item::Dependency(dependency) => self.dependencies.push(dependency)?,
            Item::Exclusion(exclusion) => self.exclusions.push(exclusion)?,
        }
        Ok(())
    }

    /// All records of the file.
    pub(crate) fn gather(heap: Global, file: ProblemFile<'_>) -> Result<Statement, AllocError>
        ensures { IfOk result (λ s. said s ≡ stated file.entry.header.counts file.entry.bytes.now) }
    {
        let mut statement = Statement::new(heap, file.header.counts.dimensions);
        for record in file.records() {
            statement.push(record.item)?;
        }
        Ok(statement)
    }

    /// The problem that is stated, where it is within its limits.
    pub(crate) fn into_problem(self) -> Problem
        requires { Within (said self) }
        ensures { model result ≡ said self }
    {
        Problem {
            dimensions: self.dimensions,
            tasks: self.tasks,
            windows: self.windows,
            dependencies: self.dependencies,
            exclusions: self.exclusions,
        }
    }
}
