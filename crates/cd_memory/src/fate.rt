/// What is to come of a changing call.
#[derive(Clone, Copy, Debug)]
pub enum Fate {
    /// It is done.
    Done,
    /// The stop comes within it: it is done as far as an image may show it, and fails.
    UnderWay,
    /// Nothing, and it fails.
    Nothing,
}
