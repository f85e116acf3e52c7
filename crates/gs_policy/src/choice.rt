/// A waiting thread that is to be put on a CPU, from 0 to 127.
#[derive(Clone, Copy, PartialEq, Eq, Debug)]
pub struct Choice {
    pub cpu: u16,
    pub tid: u32,
    /// Whether the thread takes the CPU from somebody who is believed to run there.
    pub preempt: bool,
}
