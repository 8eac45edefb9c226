ghost use Rattle.std.specs.Prelude.{◌≡◌, ◌-◌};
ghost use Rattle.std.specs.Iterator.{at_most};
ghost use Rattle.problem_file.specs.Layout.{total};
ghost use Rattle.problem_file.specs.Reader.{standing, Reads};

use crate::header::Header;
use crate::record::Record;

/// Goes through the records of a file in their order, one at each step.
#[derive(Drop)]
pub struct Reader<'a> {
    file: &'a [u8],
    header: Header,
    position: usize,
}

impl<'a> Reader<'a> {
    /// Stands at the first record of the file, as the header lays it out.
    pub fn new(file: &'a [u8], header: Header) -> Reader<'a>
        ensures { result ≡ standing file.entry header 0 }
    {
        Reader::at(file, header, 0)
    }

    /// Stands at a record, counted from 0 through all sections.
    pub fn at(file: &'a [u8], header: Header, position: usize) -> Reader<'a>
        ensures { result ≡ standing file.entry header position }
    {
        Reader {
            file,
            header,
            position,
        }
    }

    /// The number of the next record, counted from 0 through all sections.
    pub fn position(&self) -> usize
        ensures { result ≡ self.now.position }
    {
        self.position
    }
}

impl<'a> Iterator for Reader<'a> {
    type Item = Record<'a>;

    ghost next_gives = { Reads };

    ghost remaining = { λ reader. at_most (total reader.header.counts - reader.position) };

    /// The next record, or nothing past the last record or where the file ends before it.
    fn next(&mut self) -> Option<Record<'a>> {
        let (section, place) = self.header.place(self.position)?;
        let bytes = self.file.get(place)?;
        let item = self.header.decode(section, bytes)?;
        self.position += 1;
        Some(Record { item, bytes })
    }
}
