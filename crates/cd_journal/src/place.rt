/// Where a body stands: the place of its first byte, and its length.
#[derive(Clone, Copy, Debug, PartialEq, Eq)]
pub struct Place {
    pub at: u32,
    pub len: u32,
}
