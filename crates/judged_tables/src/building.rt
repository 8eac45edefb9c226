//! Problems and tables as the cases state them.
use crate::cases::Entry;
use crate::problems::{Change, EXCLUSIONS, Records};
use anyhow::anyhow;
use opening::open;
use problem::problem::Problem;
use std::alloc::{AllocError, Global};
use table::part::Part;
use table::row::Row;
use table::table::Table;

/// Puts the value in the place of a word.
fn replace(words: &mut [u32], index: usize, value: u32) {
    if let Some(word) = words.get_mut(index) {
        *word = value;
    }
}

/// The words of the records, with the change made.
fn stated(heap: Global, records: Records, change: Option<Change>) -> Result<Vec<u32>, AllocError> {
    let mut words = Vec::new(heap);
    for record in records {
        words.extend_from_slice(record)?;
    }
    match change {
        None => {}
        Some(Change::Word(index, value)) => replace(&mut words, index, value),
        Some(Change::Exclusion(exclusion)) => {
            replace(&mut words, EXCLUSIONS, 1);
            words.extend_from_slice(&exclusion)?;
        }
    }
    Ok(words)
}

/// The problem that the records state, with the change made.
fn problem(heap: Global, records: Records, change: Option<Change>) -> anyhow::Result<Problem> {
    let file = words::encode(heap, &stated(heap, records, change)?)?;
    open(heap, &file).map_err(|_| anyhow!("the problem does not open"))
}

/// The parts from these dates.
fn parts(heap: Global, dates: &[(u32, u32)]) -> Result<Vec<Part>, AllocError> {
    dates
        .iter()
        .map(|(begin, end)| Part {
            begin: *begin,
            end: *end,
        })
        .collect(heap)
}

/// The table with the rows of a case, or nothing where a row has not lawful shape.
pub(crate) fn table(
    heap: Global,
    records: Records,
    change: Option<Change>,
    rows: &[Entry],
) -> anyhow::Result<Option<Table>> {
    let mut table = Table::empty(heap, problem(heap, records, change)?)?;
    for (task, processor, dates) in rows {
        let parts = parts(heap, dates)?;
        let row = Row {
            processor: *processor,
            parts: &parts,
        };
        if table.put(*task, row).is_err() {
            return Ok(None);
        }
    }
    Ok(Some(table))
}
