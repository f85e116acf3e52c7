//! What the program may be asked for.

/// The fewest of the last lines that a report may show.
pub const LEAST_LINES: usize = 1;

/// The most of the last lines that a report may show, so that the memory for them has a bound.
pub const MOST_LINES: usize = 1_000;

/// How many of the last lines a report shows, if the arguments do not say: a screen shows them all.
pub const DEFAULT_LINES: usize = 10;

/// The fewest of whatever an option counts.
pub const LEAST_COUNT: usize = 1;

/// The most workers of `threads`.
pub const MOST_WORKERS: usize = 16;

/// The most threads that each worker creates.
pub const MOST_EACH: usize = 1_000;

/// The most ticks of a simulation.
pub const MOST_TICKS: usize = 1_000_000;

/// Which threads a picture has a line for. The others are counted there.
#[derive(Clone, Copy, PartialEq, Eq, Debug)]
pub enum Listed {
    /// A few.
    Few,
    /// The first, so many, of those that never ran, and then of the others by how long they waited.
    Most { count: usize },
    /// The one of this tid.
    One { tid: usize },
    All,
}

/// What the program is to do: with a script, but for the last four.
#[derive(Clone, Copy, PartialEq, Eq, Debug)]
pub enum Command {
    /// Run it, and write the lines of its replies to standard output.
    Run,
    /// Run it, and write each of its lines with its reply, and why what was refused or not placed was so, to standard output.
    Explain {
        /// As JSON Lines.
        json: bool,
    },
    /// Run it, and write a report of the run to standard output.
    Report {
        /// How many of the last of these lines the report shows, from [`LEAST_LINES`] to [`MOST_LINES`].
        last: usize,
    },
    /// Run it, and write the journal of all that happened to standard output.
    Journal {
        /// As JSON Lines.
        json: bool,
    },
    /// Run it, and write a picture of who ran where to standard output, as SVG.
    Timeline {
        /// The place in the journal of the first entry that is shown, counted from 0.
        from: usize,
        /// That of the last one, not below `from`.
        to: usize,
        /// Which threads have a line of their own.
        listed: Listed,
    },
    /// Run it, and write a table of the stays of its threads to standard output, each with the wait before it.
    Timehist {
        /// As JSON Lines.
        json: bool,
    },
    /// Run it, and write tables of how long threads waited and ran, of what became of slots, and of what CPUs were used for, to
    /// standard output.
    Latency {
        /// As JSON Lines.
        json: bool,
        /// With lines for each thread, too.
        threads: bool,
    },
    /// Run it, and write a trace of all that happened to standard output, as JSON.
    Trace,
    /// Answer the lines of a script as they come, each before the next is read, to standard output.
    Serve {
        /// With the reasons of what was refused or not placed.
        explained: bool,
    },
    /// Simulate the workload that a file has, and write what happened as a script to standard output.
    Simulate {
        /// How many ticks there are, from [`LEAST_COUNT`] to [`MOST_TICKS`]. Without a number the workload says it.
        ticks: Option<usize>,
    },
    /// Simulate it under each of some policies and by each of some seeds, and write a table of what came of it to standard
    /// output.
    Compare {
        /// How many ticks there are, as of `Simulate`.
        ticks: Option<usize>,
        /// As JSON Lines.
        json: bool,
        /// As CSV. Not both.
        csv: bool,
    },
    /// Run workers in threads of their own, and write how that ended to standard output.
    Threads {
        /// How many workers there are, from [`LEAST_COUNT`] to [`MOST_WORKERS`].
        workers: usize,
        /// How many threads each of them creates, from [`LEAST_COUNT`] to [`MOST_EACH`].
        each: usize,
        /// The journal of all that happened is written in place of the line.
        journal: bool,
    },
}

/// What the words of a command line say.
#[derive(Debug, Drop)]
pub struct Asked<'a> {
    pub command: Command,
    /// The file that has the script. Without one it is standard input that has it.
    pub file: Option<&'a str>,
    /// What each `--policy` says, in order.
    pub policies: Vec<&'a str>,
    /// What each `--seed` says, in order.
    pub seeds: Vec<u64>,
}
