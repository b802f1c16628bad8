/// What is in doubt of a file but for its bytes.
#[derive(Clone, Copy)]
pub struct Marks {
    pub there: bool,
    pub moved: bool,
    pub least: usize,
    pub greatest: usize,
}
