/// What is done to the good file, the word that is replaced, and what is put there.
pub type Case = (&'static str, usize, u32);

/// The good file's header: the kind, the frame, the counts, and the offsets.
pub const HEADER: [u32; 12] = [1, 100, 2, 2, 4, 5, 2, 1, 48, 144, 224, 256];

/// Its tasks: partition, whole mark, release, deadline, and a duration for each processor.
pub const TASKS: [[u32; 6]; 4] = [
    [0, 1, 0, 4294967295, 20, 25],
    [1, 0, 10, 170, 50, 0],
    [0, 1, 0, 4294967295, 10, 10],
    [1, 1, 0, 4294967295, 10, 0],
];

/// Its windows: processor, partition, begin, end.
pub const WINDOWS: [[u32; 4]; 5] = [
    [0, 0, 0, 40],
    [0, 1, 40, 70],
    [0, 0, 70, 80],
    [0, 1, 80, 100],
    [1, 0, 0, 100],
];

/// Its dependencies: source, destination, depth, transfer.
pub const DEPENDENCIES: [[u32; 4]; 2] = [[0, 1, 0, 5], [1, 2, 1, 5]];

/// Its exclusion: two tasks and a distance.
pub const EXCLUSIONS: [[u32; 3]; 1] = [[1, 3, 1]];

/// The header of the smallest file: one task and nothing else.
pub const SMALLEST: [u32; 12] = [1, 1, 1, 1, 1, 0, 0, 0, 48, 68, 68, 68];

/// Its task, with the latest release and deadline and the longest duration.
pub const SMALLEST_TASK: [u32; 5] = [0, 1, 3, 4, 1];

/// The header of the largest file: every number at its limit.
pub const LARGEST: [u32; 12] = [1, 1000000, 4, 8, 64, 64, 256, 128, 48, 2096, 3120, 7216];

/// Each of its tasks, dependencies and exclusions, with every field at its limit.
pub const LARGEST_TASK: [u32; 8] = [7, 1, 3000000, 4000000, 1000000, 1000000, 1000000, 1000000];

pub const LARGEST_DEPENDENCY: [u32; 4] = [63, 63, 3, 1000000];

pub const LARGEST_EXCLUSION: [u32; 3] = [63, 62, 3];

/// Each limit, at it and past it, and windows out of order.
pub const SINGLE: [Case; 88] = [
    ("the good file", 0, 1),
    ("kind 0", 0, 0),
    ("kind 2", 0, 2),
    ("frame 0", 1, 0),
    ("frame 1", 1, 1),
    ("frame 99", 1, 99),
    ("frame 1000000", 1, 1000000),
    ("frame 1000001", 1, 1000001),
    ("processors 0", 2, 0),
    ("processors 1", 2, 1),
    ("processors 4", 2, 4),
    ("processors 5", 2, 5),
    ("partitions 0", 3, 0),
    ("partitions 1", 3, 1),
    ("partitions 8", 3, 8),
    ("partitions 9", 3, 9),
    ("tasks 0", 4, 0),
    ("tasks 1", 4, 1),
    ("tasks 64", 4, 64),
    ("tasks 65", 4, 65),
    ("windows 0", 5, 0),
    ("windows 64", 5, 64),
    ("windows 65", 5, 65),
    ("dependencies 0", 6, 0),
    ("dependencies 256", 6, 256),
    ("dependencies 257", 6, 257),
    ("exclusions 0", 7, 0),
    ("exclusions 128", 7, 128),
    ("exclusions 129", 7, 129),
    ("offset of tasks 44", 8, 44),
    ("offset of tasks 52", 8, 52),
    ("offset of windows 140", 9, 140),
    ("offset of windows 148", 9, 148),
    ("offset of dependencies 220", 10, 220),
    ("offset of dependencies 228", 10, 228),
    ("offset of exclusions 252", 11, 252),
    ("offset of exclusions 260", 11, 260),
    ("task 1 partition 1", 18, 1),
    ("task 1 partition 2", 18, 2),
    ("task 1 whole mark 1", 19, 1),
    ("task 1 whole mark 2", 19, 2),
    ("task 1 whole mark 4294967295", 19, 4294967295),
    ("task 1 release 300", 20, 300),
    ("task 1 release 301", 20, 301),
    ("task 1 deadline 0", 21, 0),
    ("task 1 deadline 1", 21, 1),
    ("task 1 deadline 400", 21, 400),
    ("task 1 deadline 401", 21, 401),
    ("task 1 deadline 4294967294", 21, 4294967294),
    ("task 1 deadline 4294967295", 21, 4294967295),
    ("task 1 duration on processor 0 100", 22, 100),
    ("task 1 duration on processor 0 101", 22, 101),
    ("task 1 duration on processor 1 100", 23, 100),
    ("task 1 duration on processor 1 101", 23, 101),
    ("window 4 processor 1", 52, 1),
    ("window 4 processor 2", 52, 2),
    ("window 4 partition 1", 53, 1),
    ("window 4 partition 2", 53, 2),
    ("window 4 begin 99", 54, 99),
    ("window 4 begin 100", 54, 100),
    ("window 4 end 1", 55, 1),
    ("window 4 end 100", 55, 100),
    ("window 4 end 101", 55, 101),
    ("window 4 end 0", 55, 0),
    ("dependency 1 source 3", 60, 3),
    ("dependency 1 source 4", 60, 4),
    ("dependency 1 destination 3", 61, 3),
    ("dependency 1 destination 4", 61, 4),
    ("dependency 1 depth 3", 62, 3),
    ("dependency 1 depth 4", 62, 4),
    ("dependency 1 transfer 100", 63, 100),
    ("dependency 1 transfer 101", 63, 101),
    ("exclusion 0 first task 2", 64, 2),
    ("exclusion 0 first task 3", 64, 3),
    ("exclusion 0 first task 4", 64, 4),
    ("exclusion 0 second task 0", 65, 0),
    ("exclusion 0 second task 1", 65, 1),
    ("exclusion 0 second task 4", 65, 4),
    ("exclusion 0 distance 0", 66, 0),
    ("exclusion 0 distance 3", 66, 3),
    ("exclusion 0 distance 4", 66, 4),
    ("window 1 begin 39", 42, 39),
    ("window 1 begin 41", 42, 41),
    ("window 0 end 41", 39, 41),
    ("window 3 processor 1", 48, 1),
    ("window 4 processor 0", 52, 0),
    ("window 0 processor 1", 36, 1),
    ("window 2 begin 0", 46, 0),
];

/// Two faults in one file, of which the first check that fails speaks.
pub const DOUBLE: [(Case, Case); 8] = [
    (
        ("window 1 begin 39", 42, 39),
        ("exclusion 0 distance 4", 66, 4),
    ),
    (("window 1 begin 39", 42, 39), ("window 3 begin 79", 50, 79)),
    (
        ("task 3 partition 2", 30, 2),
        ("task 0 release 301", 14, 301),
    ),
    (
        ("window 0 begin 40", 38, 40),
        ("dependency 0 depth 4", 58, 4),
    ),
    (("frame 0", 1, 0), ("offset of tasks 52", 8, 52)),
    (("kind 2", 0, 2), ("frame 0", 1, 0)),
    (("offset of tasks 52", 8, 52), ("task 0 partition 2", 12, 2)),
    (("window 0 begin 40", 38, 40), ("window 0 end 70", 39, 70)),
];
