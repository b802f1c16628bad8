/// A session of a node's lines, by its number. Later sessions have greater numbers.
#[derive(Clone, Copy, Debug, PartialEq, Eq)]
pub struct Sid {
    pub number: u64,
}
