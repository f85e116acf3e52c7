/// What a caller can tell a locked enclave.
#[derive(Clone, Copy, PartialEq, Eq, Debug)]
pub enum Command {
    /// The kernel is told this. What concerns slots is done by whoever holds them: an agent leaves though a slot is
    /// stamped, and no slot is idle by a begin.
    Kernel { command: gs_kernel::Command },
    /// The agent crashes, whether it is active or attaches.
    Crash,
    /// The agent that attaches asks for a page: the threads that live from a tid on, at most `max`.
    Page { from: u32, max: u16 },
    /// These bytes land in the slot of the CPU that they name, by themselves: the flag of a group is passed over. They
    /// are kept nowhere.
    Land { bytes: [u8; 32] },
}
