//! What is told behind the line of an event that was refused, in few bytes.

ghost use Rattle.std.specs.Prelude.{◌≡◌, ◌↔◌, IsTrue, false};
ghost use Rattle.gs_sentences.specs.Tails.{is_part};

use gs_layout::Refusal;

/// What is told of an event behind the script's line. Each but the first is the reply and the reason of a refusal, by the numbers that it
/// tells of. These are of a thread or a CPU, and of the line and the place of the entry that is the reason.
#[derive(Clone, Copy)]
pub enum Tail {
    /// What stands in a text from one place to another.
    Part {
        from: u32,
        to: u32,
    },
    /// There never was such a thread.
    NoThread {
        tid: u32,
    },
    /// The thread died.
    Dead {
        tid: u32,
        line: u32,
        place: u32,
    },
    /// The agent knows of no such thread.
    Unknown {
        tid: u32,
    },
    /// The thread was never placed.
    NeverPlaced {
        tid: u32,
    },
    /// The thread is on no CPU.
    Off {
        tid: u32,
        line: u32,
        place: u32,
    },
    /// The thread may run.
    Runs {
        tid: u32,
        line: u32,
        place: u32,
    },
    /// A mask of at most 64 bits is wrong.
    BadMask {
        cpus: u16,
        mask: u64,
    },
    /// There is no such CPU, of so many.
    BadCpu {
        cpu: u16,
        cpus: u16,
    },
    /// An agent of this generation is active on a CPU.
    Active {
        refusal: Refusal,
        cpu: u16,
        generation: u32,
        line: u32,
        place: u32,
    },
    /// An agent of this generation attaches.
    Attaches {
        refusal: Refusal,
        generation: u32,
        line: u32,
        place: u32,
    },
    /// There is no agent.
    Left {
        refusal: Refusal,
        line: u32,
        place: u32,
    },
    /// The agent that attaches was not given its last page.
    NoPage {
        generation: u32,
    },
    /// It was given its last page on a line.
    Page {
        generation: u32,
        line: u32,
    },
    /// The other class holds the CPU.
    Held {
        cpu: u16,
        line: u32,
        place: u32,
    },
    /// It never took the CPU.
    NeverTaken {
        cpu: u16,
    },
    /// It gave the CPU back.
    Given {
        cpu: u16,
        line: u32,
        place: u32,
    },
    /// The thread has its last sequence number.
    Spent {
        tid: u32,
        line: u32,
        place: u32,
    },
    /// No generation follows.
    Generations {
        line: u32,
        place: u32,
    },
    /// No thread number follows.
    Tids {
        line: u32,
        place: u32,
    },
    /// The journal has so many entries of at most so many.
    Entries {
        count: u32,
        limit: u32,
    },
    /// There are so many transactions of at most so many.
    Transactions {
        count: u32,
        limit: u32,
    },
    /// A transaction of a line waits in the slot of a CPU.
    Waits {
        cpu: u16,
        number: u32,
        line: u32,
    },
    /// There are so many transactions.
    Numbered {
        count: u32,
    },
    /// The enclave was torn down.
    Gone {
        line: u32,
        place: u32,
    },
}

impl Tail {
    /// Returns whether the same is told, and no part of a text is.
    #[inline(always)]
    pub fn is_same(&self, other: &Tail) -> bool
        ensures { IsTrue result ↔ (is_part self.now ≡ false) × (self.now ≡ other.now) }
    {
        match (self, other) {
            (Tail::NoThread { tid }, Tail::NoThread { tid: t }) => { tid == t }
            (
                Tail::Dead { tid, line, place },
                Tail::Dead {
                    tid: t,
                    line: l,
                    place: p,
                },
            ) => { tid == t && line == l && place == p }
            (Tail::Unknown { tid }, Tail::Unknown { tid: t }) => { tid == t }
            (Tail::NeverPlaced { tid }, Tail::NeverPlaced { tid: t }) => { tid == t }
            (
                Tail::Off { tid, line, place },
                Tail::Off {
                    tid: t,
                    line: l,
                    place: p,
                },
            ) => { tid == t && line == l && place == p }
            (
                Tail::Runs { tid, line, place },
                Tail::Runs {
                    tid: t,
                    line: l,
                    place: p,
                },
            ) => { tid == t && line == l && place == p }
            (Tail::BadMask { cpus, mask }, Tail::BadMask { cpus: n, mask: m }) => {
                cpus == n && mask == m
            }
            (Tail::BadCpu { cpu, cpus }, Tail::BadCpu { cpu: k, cpus: n }) => {
                cpu == k && cpus == n
            }
            (
                Tail::Active {
                    refusal,
                    cpu,
                    generation,
                    line,
                    place,
                },
                Tail::Active {
                    refusal: f,
                    cpu: k,
                    generation: g,
                    line: l,
                    place: p,
                },
            ) => { refusal == f && cpu == k && generation == g && line == l && place == p }
            (
                Tail::Attaches {
                    refusal,
                    generation,
                    line,
                    place,
                },
                Tail::Attaches {
                    refusal: f,
                    generation: g,
                    line: l,
                    place: p,
                },
            ) => { refusal == f && generation == g && line == l && place == p }
            (
                Tail::Left {
                    refusal,
                    line,
                    place,
                },
                Tail::Left {
                    refusal: f,
                    line: l,
                    place: p,
                },
            ) => { refusal == f && line == l && place == p }
            (Tail::NoPage { generation }, Tail::NoPage { generation: g }) => { generation == g }
            (
                Tail::Page { generation, line },
                Tail::Page {
                    generation: g,
                    line: l,
                },
            ) => { generation == g && line == l }
            (
                Tail::Held { cpu, line, place },
                Tail::Held {
                    cpu: k,
                    line: l,
                    place: p,
                },
            ) => { cpu == k && line == l && place == p }
            (Tail::NeverTaken { cpu }, Tail::NeverTaken { cpu: k }) => { cpu == k }
            (
                Tail::Given { cpu, line, place },
                Tail::Given {
                    cpu: k,
                    line: l,
                    place: p,
                },
            ) => { cpu == k && line == l && place == p }
            (
                Tail::Spent { tid, line, place },
                Tail::Spent {
                    tid: t,
                    line: l,
                    place: p,
                },
            ) => { tid == t && line == l && place == p }
            (Tail::Generations { line, place }, Tail::Generations { line: l, place: p }) => {
                line == l && place == p
            }
            (Tail::Tids { line, place }, Tail::Tids { line: l, place: p }) => {
                line == l && place == p
            }
            (Tail::Entries { count, limit }, Tail::Entries { count: c, limit: x }) => {
                count == c && limit == x
            }
            (Tail::Transactions { count, limit }, Tail::Transactions { count: c, limit: x }) => {
                count == c && limit == x
            }
            (
                Tail::Waits { cpu, number, line },
                Tail::Waits {
                    cpu: k,
                    number: i,
                    line: l,
                },
            ) => { cpu == k && number == i && line == l }
            (Tail::Numbered { count }, Tail::Numbered { count: c }) => { count == c }
            (Tail::Gone { line, place }, Tail::Gone { line: l, place: p }) => {
                line == l && place == p
            }
            _ => false,
        }
    }
}
