ghost use Rattle.std.specs.Prelude.{◌≡◌, ◌+◌, IfSome};
ghost use Rattle.problem_file.specs.Layout.{file_end, first, record_at, section_of, size, start, total};
ghost use Rattle.std.specs.Option.{option_map};

use crate::header::Header;
use std::ops::Range;

/// The four lists of records, in the file's order.
#[derive(Clone, Copy)]
pub enum Section {
    Tasks,
    Windows,
    Dependencies,
    Exclusions,
}

impl Header {
    /// The number of the section's first record, counted from 0 through all sections.
    pub fn first(&self, section: Section) -> usize
        ensures { result ≡ first self.now.counts section }
    {
        let counts = self.counts;
        let windows = counts.dimensions.tasks as usize;
        let dependencies = windows + counts.windows as usize;
        match section {
            Section::Tasks => 0,
            Section::Windows => windows,
            Section::Dependencies => dependencies,
            Section::Exclusions => dependencies + counts.dependencies as usize,
        }
    }

    /// How many records there are.
    pub(crate) fn total(&self) -> usize
        ensures { result ≡ total self.now.counts }
    {
        self.first(Section::Exclusions) + self.counts.exclusions as usize
    }

    /// The section that record `index` stands in, or nothing past the last record.
    pub(crate) fn section(&self, index: usize) -> Option<Section>
        ensures { result ≡ section_of self.now.counts index }
    {
        if index < self.first(Section::Windows) {
            Some(Section::Tasks)
        } else if index < self.first(Section::Dependencies) {
            Some(Section::Windows)
        } else if index < self.first(Section::Exclusions) {
            Some(Section::Dependencies)
        } else if index < self.total() {
            Some(Section::Exclusions)
        } else {
            None
        }
    }

    /// How many bytes a record of the section has.
    pub(crate) fn size(&self, section: Section) -> usize
        ensures { result ≡ size self.now.counts section }
    {
        match section {
            Section::Tasks => 16 + 4 * self.counts.dimensions.processors as usize,
            Section::Windows | Section::Dependencies => 16,
            Section::Exclusions => 12,
        }
    }

    /// The byte at which the section begins: the end of what precedes it.
    pub(crate) fn start(&self, section: Section) -> usize
        ensures { result ≡ start self.now.counts section }
    {
        let counts = self.counts;
        let dimensions = counts.dimensions;
        let windows = 48 + (16 + 4 * dimensions.processors as usize) * dimensions.tasks as usize;
        let dependencies = windows + 16 * counts.windows as usize;
        match section {
            Section::Tasks => 48,
            Section::Windows => windows,
            Section::Dependencies => dependencies,
            Section::Exclusions => dependencies + 16 * counts.dependencies as usize,
        }
    }

    /// The byte at which the last section ends.
    pub(crate) fn file_end(&self) -> usize
        ensures { result ≡ file_end self.now.counts }
    {
        self.start(Section::Exclusions) + 12 * self.counts.exclusions as usize
    }

    /// The section that record `index` stands in, and the bytes at which the record begins and ends; nothing past the last record.
    pub(crate) fn place(&self, index: usize) -> Option<(Section, Range<usize>)>
        ensures section { option_map (λ place. place.0) result ≡ section_of self.now.counts index }
        ensures bytes { IfSome result (λ place. (place.1.start ≡ record_at self.now.counts place.0 index) × (place.1.end ≡ place.1.start + size self.now.counts place.0)) }
    {
        let section = self.section(index)?;
        let size = self.size(section);
        let at = self.start(section) + size * (index - self.first(section));
        Some((section, at..at + size))
    }
}
