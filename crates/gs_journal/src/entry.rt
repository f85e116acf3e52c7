use gs_layout::Message;

/// One thing that happened in an enclave.
#[derive(Clone, Copy, PartialEq, Eq, Debug)]
pub enum Entry {
    /// The kernel posted a message to the agent.
    Posted {
        message: Message,
    },
    /// A transaction took effect: the thread was placed on the CPU.
    Placed {
        tid: u32,
        tseq: u32,
        cpu: u16,
        generation: u32,
    },
    /// An agent of this generation became active on the CPU.
    Role {
        generation: u32,
        cpu: u16,
    },
    /// An agent of this generation began to attach.
    Begin {
        generation: u32,
    },
    /// The agent crashed or left.
    Left,
    /// The other class took the CPU.
    Taken {
        cpu: u16,
    },
    /// The other class gave the CPU back.
    Given {
        cpu: u16,
    },
    /// A message did not fit, and the enclave was torn down.
    Torn,
}
