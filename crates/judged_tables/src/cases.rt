use crate::problems::{Change, DEADLINE_OF_B, RELEASE_OF_B};

/// A row: the task, the processor, and where each part begins and ends.
pub type Entry = (u32, u32, &'static [(u32, u32)]);

/// What the case shows, how its problem differs, and the rows of its table.
pub type Case = (&'static str, Option<Change>, &'static [Entry]);

/// What the case shows, the partition that counts or the processor that is spare, and the rows of its table.
pub type Pile = (&'static str, u32, &'static [Entry]);

/// What the case shows, and the places of the book below that are waived, from the first up to, not including, the second.
pub type Waived = (&'static str, u32, u32);

/// The row of A in the worked example.
const A: Entry = (0, 0, &[(0, 20)]);

/// The row of B, with a part that is carried over into the next frame.
const B: Entry = (1, 0, &[(80, 100), (140, 170)]);

/// The row of C.
const C: Entry = (2, 0, &[(70, 80)]);

/// A row of D, on which the part that B carries over falls.
const D: Entry = (3, 0, &[(45, 55)]);

/// The worked example with that row of D.
pub const WITH_D: &[Entry] = &[A, B, C, D];

/// C on the other processor, when the data of B has just come in.
const C_IN_TIME: Entry = (2, 1, &[(75, 85)]);

/// The same a tick too early.
const C_TOO_EARLY: Entry = (2, 1, &[(74, 84)]);

/// A in the next frame.
const A_LATE: Entry = (0, 0, &[(100, 120)]);

/// B all in its own frame, where it does not wait for that row of A.
const B_EARLY: Entry = (1, 0, &[(40, 70), (80, 100)]);

/// Tables for the worked example: lawful ones and parts of them, a breach of each rule, rows without lawful shape.
pub static WORKED: [Case; 28] = [
    ("the worked example", None, &[A, B, C]),
    ("no rows", None, &[]),
    ("only A", None, &[A]),
    ("only B", None, &[B]),
    ("only C", None, &[C]),
    ("only D", None, &[D]),
    (
        "B in four parts",
        None,
        &[A, (1, 0, &[(80, 90), (90, 100), (140, 150), (150, 170)]), C],
    ),
    ("C on processor 1 from 75 to 85", None, &[A, B, C_IN_TIME]),
    (
        "C on processor 1 from 290 to 300",
        None,
        &[A, B, (2, 1, &[(290, 300)])],
    ),
    (
        "B on processor 1",
        None,
        &[A, (1, 1, &[(80, 100), (140, 170)]), C],
    ),
    ("A from 0 to 19", None, &[(0, 0, &[(0, 19)]), B, C]),
    (
        "A in two parts",
        None,
        &[(0, 0, &[(0, 10), (10, 20)]), B, C],
    ),
    ("C from 69 to 79", None, &[A, B, (2, 0, &[(69, 79)])]),
    ("C from 71 to 81", None, &[A, B, (2, 0, &[(71, 81)])]),
    (
        "C on processor 1 from 299 to 309",
        None,
        &[A, B, (2, 1, &[(299, 309)])],
    ),
    ("B to 180", None, &[A, (1, 0, &[(80, 100), (140, 180)]), C]),
    ("B from 5", None, &[A, (1, 0, &[(5, 25), (40, 70)]), C]),
    ("A after B", None, &[A_LATE, B_EARLY, C]),
    ("C on processor 1 from 74 to 84", None, &[A, B, C_TOO_EARLY]),
    ("with D", None, WITH_D),
    ("only B and D", None, &[B, D]),
    ("B to 181", None, &[A, (1, 0, &[(80, 100), (140, 181)]), C]),
    (
        "C on processor 1 from 300 to 310",
        None,
        &[A, B, (2, 1, &[(300, 310)])],
    ),
    ("C on processor 2", None, &[A, B, (2, 2, &[(70, 80)])]),
    ("C without a part", None, &[A, B, (2, 0, &[])]),
    ("C with an empty part", None, &[A, B, (2, 0, &[(70, 70)])]),
    (
        "B in five parts",
        None,
        &[
            A,
            (
                1,
                0,
                &[(80, 85), (85, 90), (90, 100), (140, 150), (150, 170)],
            ),
            C,
        ],
    ),
    (
        "B with its parts out of order",
        None,
        &[A, (1, 0, &[(140, 170), (80, 100)]), C],
    ),
];

/// The same where a date of B is another, or where two tasks exclude each other.
pub static WORKED_CHANGED: [Case; 7] = [
    (
        "B released at 80",
        Some(Change::Word(RELEASE_OF_B, 80)),
        &[A, B, C],
    ),
    (
        "B released at 81",
        Some(Change::Word(RELEASE_OF_B, 81)),
        &[A, B, C],
    ),
    (
        "B due at 169",
        Some(Change::Word(DEADLINE_OF_B, 169)),
        &[A, B, C],
    ),
    (
        "with D, exclusion 1 3 1",
        Some(Change::Exclusion([1, 3, 1])),
        WITH_D,
    ),
    (
        "with D, exclusion 1 3 0",
        Some(Change::Exclusion([1, 3, 0])),
        WITH_D,
    ),
    (
        "with D, exclusion 1 3 2",
        Some(Change::Exclusion([1, 3, 2])),
        WITH_D,
    ),
    (
        "with D, exclusion 3 1 1",
        Some(Change::Exclusion([3, 1, 1])),
        WITH_D,
    ),
];

/// The long task at the end of its frame. Before 70 nothing of it runs in frame 0, but in every later frame the part that was carried over runs from 10 to 40.
const LONG_CARRIED: Entry = (0, 0, &[(70, 100), (110, 140)]);

/// The long task with a part three frames after its own.
const LONG_FAR: Entry = (0, 0, &[(250, 280), (310, 340)]);

/// The long task at the start of its frame.
const LONG_FIRST: Entry = (0, 0, &[(0, 60)]);

/// The short task at 20.
const SHORT: Entry = (1, 0, &[(20, 30)]);

/// The short task with a part three frames after its own.
const SHORT_FAR: Entry = (1, 0, &[(290, 295), (302, 307)]);

/// Tables for the long and the short task: parts that meet in a later frame only, or just do not meet.
pub static LONG_AND_SHORT: [Case; 11] = [
    (
        "long carried over, short from 20",
        None,
        &[LONG_CARRIED, SHORT],
    ),
    (
        "long carried over, short from 45",
        None,
        &[LONG_CARRIED, (1, 0, &[(45, 55)])],
    ),
    (
        "long carried over, short from 0",
        None,
        &[LONG_CARRIED, (1, 0, &[(0, 10)])],
    ),
    (
        "long carried over, short from 1",
        None,
        &[LONG_CARRIED, (1, 0, &[(1, 11)])],
    ),
    (
        "long carried over, short from 39",
        None,
        &[LONG_CARRIED, (1, 0, &[(39, 49)])],
    ),
    (
        "long carried over, short from 40",
        None,
        &[LONG_CARRIED, (1, 0, &[(40, 50)])],
    ),
    (
        "long carried over, short from 61",
        None,
        &[LONG_CARRIED, (1, 0, &[(61, 71)])],
    ),
    ("long carried far, short from 20", None, &[LONG_FAR, SHORT]),
    (
        "long carried far, short from 40",
        None,
        &[LONG_FAR, (1, 0, &[(40, 50)])],
    ),
    ("short carried far, to 307", None, &[LONG_FIRST, SHORT_FAR]),
    (
        "short carried far, to 365",
        None,
        &[LONG_FIRST, (1, 0, &[(290, 295), (360, 365)])],
    ),
];

/// The same where the two tasks exclude each other.
pub static LONG_AND_SHORT_CHANGED: [Case; 4] = [
    (
        "long carried far, exclusion 0 1 3",
        Some(Change::Exclusion([0, 1, 3])),
        &[LONG_FAR, SHORT],
    ),
    (
        "long carried far, exclusion 1 0 3",
        Some(Change::Exclusion([1, 0, 3])),
        &[LONG_FAR, SHORT],
    ),
    (
        "short carried far, exclusion 0 1 3",
        Some(Change::Exclusion([0, 1, 3])),
        &[LONG_FIRST, SHORT_FAR],
    ),
    (
        "short carried far, exclusion 1 0 3",
        Some(Change::Exclusion([1, 0, 3])),
        &[LONG_FIRST, SHORT_FAR],
    ),
];

/// A short task, and a long one whose second part is carried over into the frame after: frame 0 is clean in both tables.
pub static SHORT_AND_LONG: [Case; 2] = [
    (
        "short first, from 10",
        None,
        &[(0, 0, &[(10, 20)]), (1, 0, &[(80, 100), (100, 130)])],
    ),
    (
        "short first, from 40",
        None,
        &[(0, 0, &[(40, 50)]), (1, 0, &[(80, 100), (100, 130)])],
    ),
];

/// The worked example with D: its broken place, 7 of rule 8, has number 9 in the book below, behind two dependencies.
pub static WAIVED: [Waived; 5] = [
    ("with D, place 9 waived", 9, 10),
    ("with D, place 8 waived", 8, 9),
    ("with D, place 7 waived", 7, 8),
    ("with D, places 0 to 15 waived", 0, 16),
    ("with D, places 0 to 16 waived", 0, 17),
];

/// Tables that are judged inside one partition.
pub static CONFINED: [Pile; 4] = [
    ("with D, inside partition 0", 0, WITH_D),
    ("with D, inside partition 1", 1, WITH_D),
    ("A after B, inside partition 0", 0, &[A_LATE, B_EARLY, C]),
    ("A after B, inside partition 1", 1, &[A_LATE, B_EARLY, C]),
];

/// Tables that are judged with one processor as a spare.
pub static SPARED: [Pile; 4] = [
    ("the worked example, processor 1 spare", 1, &[A, B, C]),
    ("the worked example, processor 0 spare", 0, &[A, B, C]),
    (
        "C on processor 1 from 75 to 85, processor 1 spare",
        1,
        &[A, B, C_IN_TIME],
    ),
    (
        "C on processor 1 from 74 to 84, processor 1 spare",
        1,
        &[A, B, C_TOO_EARLY],
    ),
];
