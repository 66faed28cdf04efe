// A burst that was written to the line.
#[derive(Drop)]
pub(crate) struct Burst {
    pub(crate) symbols: Vec<u16>,
    pub(crate) number: usize,
    // For each end whether the burst is still on the way to it; said of ends on the line only.
    pub(crate) ways: [bool; 33],
}
