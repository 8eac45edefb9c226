/// A waiver that lists 16 places was given another.
#[derive(Clone, Copy)]
pub struct WaiverFull {
    pub place: u32,
}
