ghost use Rattle.std.specs.Prelude.{◌≤◌, length};

use arrayvec::ArrayVec;

/// The places that are not listed, where up to 16 are: whoever holds this knows that it lists no more.
#[derive(Drop)]
pub struct Unlisted {
    pub(crate) places: ArrayVec<u32, 16>,
    ghost few: { length places.items ≤ 16 },
}
