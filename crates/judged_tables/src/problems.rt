/// A problem file, record by record: the header, the tasks, the windows, the dependencies.
pub type Records = &'static [&'static [u32]];

/// The worked example: a frame of 100 ticks, two processors, two partitions, and the tasks A to D.
pub static WORKED: Records = &[
    &[1, 100, 2, 2, 4, 5, 2, 0, 48, 144, 224, 256],
    &[0, 1, 0, 4294967295, 20, 25],
    &[1, 0, 10, 170, 50, 0],
    &[0, 1, 0, 4294967295, 10, 10],
    &[1, 1, 0, 4294967295, 10, 0],
    &[0, 0, 0, 40],
    &[0, 1, 40, 70],
    &[0, 0, 70, 80],
    &[0, 1, 80, 100],
    &[1, 0, 0, 100],
    &[0, 1, 0, 5],
    &[1, 2, 1, 5],
];

/// A long task of 60 ticks and a short one of 10, on one processor that serves their partition all through a frame of 100.
pub static LONG_AND_SHORT: Records = &[
    &[1, 100, 1, 1, 2, 1, 0, 0, 48, 88, 104, 104],
    &[0, 0, 0, 4294967295, 60],
    &[0, 0, 0, 4294967295, 10],
    &[0, 0, 0, 100],
];

/// The same with the short task first, and a long one of 50 ticks.
pub const SHORT_AND_LONG: Records = &[
    &[1, 100, 1, 1, 2, 1, 0, 0, 48, 88, 104, 104],
    &[0, 0, 0, 4294967295, 10],
    &[0, 0, 0, 4294967295, 50],
    &[0, 0, 0, 100],
];

/// The word of a problem file that says how many exclusions there are.
pub const EXCLUSIONS: usize = 7;

/// The word of the worked example that holds the release of B.
pub const RELEASE_OF_B: usize = 20;

/// The word of the worked example that holds the deadline of B.
pub const DEADLINE_OF_B: usize = 21;

/// How the problem of a case differs from the one that it is made from.
#[derive(Clone, Copy)]
pub enum Change {
    /// Another value for a word.
    Word(usize, u32),
    /// An exclusion, where there was none: two tasks and a distance.
    Exclusion([u32; 3]),
}
