/// What asks for more lines, before each read.
pub trait Prompt {
    /// Asks for more lines.
    fn ask(&self);
}

/// What asks for nothing: whatever is read is given anyway.
pub struct Silent;

impl Prompt for Silent {
    fn ask(&self) {}
}
