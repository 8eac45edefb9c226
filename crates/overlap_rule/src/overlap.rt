/// Where two rows share a tick without leave: how many frames the second row's instance is after the first's, and the numbers of their parts.
#[derive(Clone, Copy)]
pub struct Overlap {
    pub distance: i64,
    pub first: usize,
    pub second: usize,
}
