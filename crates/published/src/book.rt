use dependency_rule::dependencies::Dependencies;
use overlap_rule::overlaps::Overlaps;
use piles::pair::Pair;
use task_rules::allocation::Allocation;
use task_rules::deadline::Deadline;
use task_rules::duration::Duration;
use task_rules::release::Release;
use task_rules::whole::Whole;
use window_rule::window::Windows;

/// Rules 1 and 2.
type UpToDuration = Pair<Allocation, Duration>;

/// Rules 1 to 3.
type UpToWhole = Pair<UpToDuration, Whole>;

/// Rules 1 to 4.
type UpToWindows = Pair<UpToWhole, Windows>;

/// Rules 1 to 5.
type UpToRelease = Pair<UpToWindows, Release>;

/// Rules 1 to 6.
type UpToDeadline = Pair<UpToRelease, Deadline>;

/// Rules 1 to 7.
type UpToDependencies = Pair<UpToDeadline, Dependencies>;

/// The eight rules, paired in their order: all so far first, the next second.
pub type Published = Pair<UpToDependencies, Overlaps>;

/// The published book.
pub const PUBLISHED: Published = Pair {
    first: Pair {
        first: Pair {
            first: Pair {
                first: Pair {
                    first: Pair {
                        first: Pair {
                            first: Allocation,
                            second: Duration,
                        },
                        second: Whole,
                    },
                    second: Windows,
                },
                second: Release,
            },
            second: Deadline,
        },
        second: Dependencies,
    },
    second: Overlaps,
};
