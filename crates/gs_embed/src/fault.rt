use thiserror::Error;

/// Why no enclave can be opened: the first that applies, with the value that is wrong.
#[derive(Clone, Copy, PartialEq, Eq, Debug, Error)]
pub enum SetupFault {
    /// There are to be so many CPUs, and an enclave has 2 to 128.
    #[error("cpus is {cpus}, and has to be 2 to 128")]
    BadCpus { cpus: u16 },
    /// The ring is to have so many bytes, and one has 128 to 1,048,576, a multiple of 8.
    #[error("ring is {ring}, and has to be a multiple of 8 from 128 to 1048576")]
    BadRing { ring: u32 },
    /// Sequence numbers are to begin above this one, which is the last that there is.
    #[error("first_sequence is {first_sequence}, and has to be 0 to 4294967294")]
    BadFirstSequence { first_sequence: u32 },
    /// The first agent is to be of this generation, which is no agent's.
    #[error("first_generation is {first_generation}, and has to be 1 to 4294967295")]
    BadFirstGeneration { first_generation: u32 },
    /// The journal is to have so many entries at most, and one has 2 to 16,777,216.
    #[error("history is {history}, and has to be 2 to 16777216")]
    BadHistory { history: u32 },
    /// All values are right, and memory ran out.
    #[error("out of memory")]
    OutOfMemory,
}
