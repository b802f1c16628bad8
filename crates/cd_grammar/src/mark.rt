use cd_types::Label;

/// What a statement is, as far as it matters to the others.
#[derive(Clone, Copy, Debug, PartialEq, Eq)]
pub enum Sketch {
    /// A COPY, and whether both of its sides are named as one.
    Copy(bool),
    /// A RUN or a SUBMIT.
    Action,
    /// An IF, with the place of the label that it names.
    If(u32, Label),
    Else,
    Eif,
    /// A GOTO, with the place of the label that it names.
    Goto(u32, Label),
    Exit,
}

/// Where a statement stands in the text: its label and that label's place, and the place of its keyword.
#[derive(Clone, Copy, Debug, PartialEq, Eq)]
pub struct Mark {
    pub label: Option<(u32, Label)>,
    pub at: u32,
    pub what: Sketch,
}
