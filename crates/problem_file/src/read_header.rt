ghost use Rattle.std.specs.Prelude.{◌≡◌, List, length, Ok, Err, MatchResult, ℕ};
ghost use Rattle.words.specs.Words.{words_in};
ghost use Rattle.problem_file.specs.Header.{header_of, laid_out, stated_counts};

use crate::counts::Counts;
use crate::fault::FileFault;
use crate::header::Header;
use crate::layout::Section;
use problem::dimensions::Dimensions;

/// The numbers that the header's words state, of whichever file begins with them.
fn stated_counts(words: &[u32; 12]) -> Counts
    ensures { (file : List ℕ) → words.now ≡ words_in 12 file → result ≡ stated_counts file }
{
    let [
        _,
        frame,
        processors,
        partitions,
        tasks,
        windows,
        dependencies,
        exclusions,
        ..
    ] = *words;
    Counts {
        dimensions: Dimensions {
            frame,
            processors,
            partitions,
            tasks,
        },
        windows,
        dependencies,
        exclusions,
    }
}

impl Header {
    /// Every section begins where the one before it ends, and a file of this length ends with the last.
    fn laid_out(&self, words: &[u32; 12], file_length: usize) -> bool
        ensures { (file : List ℕ) → words.now ≡ words_in 12 file → file_length ≡ length file → result ≡ laid_out file self.now.counts }
    {
        let [.., tasks, windows, dependencies, exclusions] = *words;
        tasks as usize == self.start(Section::Tasks)
            && windows as usize == self.start(Section::Windows)
            && dependencies as usize == self.start(Section::Dependencies)
            && exclusions as usize == self.start(Section::Exclusions)
            && file_length == self.file_end()
    }

    /// The header of a file, or the first of the faults in the file's form.
    pub fn read(file: &[u8]) -> Result<Header, FileFault>
        ensures { MatchResult result (λ header. header_of file.now ≡ Ok header.counts) (λ fault. header_of file.now ≡ Err fault) }
    {
        if words::read(file, 0) != Some(1) {
            return Err(FileFault::Kind);
        }
        let words = words::first::<12>(file).ok_or(FileFault::Kind)?;
        let counts = stated_counts(&words);
        if !counts.fit() {
            return Err(FileFault::Count);
        }
        let header = Header { counts };
        if !header.laid_out(&words, file.len()) {
            return Err(FileFault::Layout);
        }
        Ok(header)
    }
}
