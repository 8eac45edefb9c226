ghost use Rattle.problem_file.specs.Header.{header_of};
ghost use Rattle.problem_file.specs.Layout.{first};
ghost use Rattle.problem_file.specs.Reader.{standing};
ghost use Rattle.std.specs.Prelude.{◌≡◌, Ok, Err, MatchResult};

use crate::fault::FileFault;
use crate::file::ProblemFile;
use crate::header::Header;
use crate::layout::Section;
use crate::reader::Reader;

impl<'a> ProblemFile<'a> {
    /// The bytes as a problem file, or the first of the faults in its form.
    pub fn read(bytes: &'a [u8]) -> Result<ProblemFile<'a>, FileFault>
        ensures { MatchResult result (λ file. (file.bytes ≡ bytes.entry) × (header_of bytes.now ≡ Ok file.header.counts)) (λ fault. header_of bytes.now ≡ Err fault) }
    {
        let header = Header::read(bytes)?;
        Ok(ProblemFile { bytes, header })
    }

    /// Goes through all records.
    pub fn records(self) -> Reader<'a>
        ensures { result ≡ standing self.entry.bytes self.entry.header 0 }
    {
        Reader::new(self.bytes, self.header)
    }

    /// Goes through the records from the section's first one on.
    pub fn records_from(self, section: Section) -> Reader<'a>
        ensures { result ≡ standing self.entry.bytes self.entry.header (first self.entry.header.counts section) }
    {
        Reader::at(self.bytes, self.header, self.header.first(section))
    }
}
