ghost use Rattle.std.specs.Prelude.{◌≡◌, ◌+◌, ◌*◌, ◌<◌, ◌^◌};

/// Where the bars of the agents begin: above them are the heading, what the marks mean, and the axis.
pub(crate) const TOP: u64 = 164;

/// How high a row is: what is decided, the bars, and the letters below these.
pub(crate) const ROW: u64 = 52;

/// How far above the bars the middle of what is decided is.
pub(crate) const ABOVE: u64 = 8;

/// How high a bar is.
pub(crate) const BAR: u64 = 26;

/// How high a line of text is.
pub(crate) const LINE: u64 = 18;

/// Where the strip of the ring begins, which stands between the agents and the CPUs.
pub(crate) const RING: u64 = TOP + ROW;

/// Returns where the bars of a CPU begin.
pub(crate) fn row_of(cpu: u16) -> u64
    ensures value { result ≡ RING + ROW * (cpu + 1) }
    ensures bounded { result < 2 ^ 32 }
{
    RING + ROW * (u64::from(cpu) + 1)
}

/// Returns where the middle of what is decided of a CPU is.
pub(crate) fn decided_of(cpu: u16) -> u64
    ensures { result < 2 ^ 32 }
{
    row_of(cpu).saturating_sub(ABOVE)
}

/// Returns where the text below the rows begins.
pub(crate) fn foot_of(cpus: u16) -> u64
    ensures { result < 2 ^ 33 }
{
    row_of(cpus) + 16
}
