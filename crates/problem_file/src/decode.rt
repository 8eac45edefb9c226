ghost use Rattle.std.specs.Prelude.{◌≡◌, ◌+◌, ◌*◌, ◌≤◌, ℕ, length, Some};
ghost use Rattle.problem_file.specs.Layout.{size};
ghost use Rattle.problem_file.specs.Records.{deadline_of, dependency_of, exclusion_of, item_of, task_of, window_of};

use crate::header::Header;
use crate::layout::Section;
use crate::record::Item;
use problem::dependency::Dependency;
use problem::exclusion::Exclusion;
use problem::task::Task;
use problem::window::Window;
use std::array;

/// The deadline that a word states: the largest word stands for none.
fn deadline_of(word: u32) -> Option<u32>
    ensures { result ≡ deadline_of word }
{
    (word != u32::MAX).then_some(word)
}

/// The task that the bytes state: the durations that they hold, and 0 in each place that is left.
fn read_task(bytes: &[u8]) -> Option<Task>
    ensures { (processors : ℕ) → length bytes.now ≡ 16 + 4 * processors → result ≡ Some (task_of processors bytes.now) }
{
    let [partition, mark, release, deadline] = words::first::<4>(bytes)?;
    Some(Task {
        partition,
        whole: mark == 1,
        release,
        deadline: deadline_of(deadline),
        durations: array::from_fn(|processor| words::read(bytes, 16 + 4 * processor).unwrap_or(0)),
    })
}

/// The window that the bytes state.
fn read_window(bytes: &[u8]) -> Option<Window>
    ensures { 16 ≤ length bytes.now → result ≡ Some (window_of bytes.now) }
{
    let [processor, partition, begin, end] = words::first::<4>(bytes)?;
    Some(Window {
        processor,
        partition,
        begin,
        end,
    })
}

/// The dependency that the bytes state.
fn read_dependency(bytes: &[u8]) -> Option<Dependency>
    ensures { 16 ≤ length bytes.now → result ≡ Some (dependency_of bytes.now) }
{
    let [source, destination, depth, transfer] = words::first::<4>(bytes)?;
    Some(Dependency {
        source,
        destination,
        depth,
        transfer,
    })
}

/// The exclusion that the bytes state.
fn read_exclusion(bytes: &[u8]) -> Option<Exclusion>
    ensures { 12 ≤ length bytes.now → result ≡ Some (exclusion_of bytes.now) }
{
    let [first, second, distance] = words::first::<3>(bytes)?;
    Some(Exclusion {
        first,
        second,
        distance,
    })
}

impl Header {
    /// What the bytes say as a record of the section, or nothing where they are too few.
    pub(crate) fn decode(&self, section: Section, bytes: &[u8]) -> Option<Item>
        ensures { length bytes.now ≡ size self.now.counts section → result ≡ Some (item_of self.now.counts.dimensions.processors section bytes.now) }
    {
        match section {
            Section::Tasks => read_task(bytes).map(Item::Task),
            Section::Windows => read_window(bytes).map(Item::Window),
            Section::Dependencies => read_dependency(bytes).map(Item::Dependency),
            Section::Exclusions => read_exclusion(bytes).map(Item::Exclusion),
        }
    }
}
