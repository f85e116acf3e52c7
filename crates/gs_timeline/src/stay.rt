/// A thread on a CPU, from the entry of the journal that put it there to the one that took it off.
#[derive(Clone, Copy, PartialEq, Eq, Debug)]
pub struct Stay {
    pub cpu: u16,
    pub tid: u32,
    /// The place in the journal of the entry that put it there, counted from 0.
    pub from: usize,
    /// That of the entry that took it off, or how many entries there are, if it is there still.
    pub to: usize,
}
