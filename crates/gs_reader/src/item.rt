use crate::message_ref::MessageRef;

/// What bytes begin with.
#[derive(Drop)]
pub enum Item<'a> {
    Message(MessageRef<'a>),
    /// It fills the end of a ring's block and tells nothing.
    Pad,
}
