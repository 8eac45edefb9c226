use rules::label::Label;
use rules::rule::Rule;
use rules::search::first_broken;
use std::fmt;
use table::table::Table;

/// What is said of a case.
#[derive(Clone, Copy)]
pub enum Outcome {
    Lawful,
    Broken(Label),
    /// A row of the case has not lawful shape, so that there is no table.
    NoTable,
    /// The waiver had no room for this place.
    Full(u32),
}

/// What the label of the first broken place says, or that there is none.
impl From<Option<Label>> for Outcome {
    fn from(broken: Option<Label>) -> Outcome {
        broken.map_or(Outcome::Lawful, Outcome::Broken)
    }
}

impl Outcome {
    /// What a book says of a table.
    pub(crate) fn under<R: Rule>(book: &R, table: &Table) -> Outcome {
        let broken = first_broken(book, table);
        broken.map(|place| book.label(&table.problem, place)).into()
    }
}

impl fmt::Display for Outcome {
    fn fmt<W: fmt::Write>(&self, f: &mut fmt::Formatter<W>) -> fmt::Result {
        match self {
            Outcome::Lawful => write!(f, "lawful"),
            Outcome::Broken(Label { rule, place }) => {
                write!(f, "broken, rule {rule} place {place}")
            }
            Outcome::NoTable => write!(f, "no lawful shape"),
            Outcome::Full(place) => write!(f, "waiver full at {place}"),
        }
    }
}
