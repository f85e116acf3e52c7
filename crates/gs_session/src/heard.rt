use gs_core::Reply;
use gs_script::ScriptFault;

/// What a line said to a session.
#[derive(Drop, PartialEq, Debug)]
pub enum Heard {
    /// Nothing: it is blank, or a comment.
    Nothing,
    /// The header: the enclave was opened.
    Opened,
    /// An event, which happened. This is the reply.
    Stepped(Reply),
    /// The line has this fault, and changed nothing but the count of lines.
    Fault(ScriptFault),
}
