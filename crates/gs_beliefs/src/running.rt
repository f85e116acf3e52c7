ghost use Rattle.std.specs.Prelude.{◌≡◌};
ghost use Rattle.gs_beliefs.specs.Cpus.{raised_at, ticked};

/// The most ticks that are counted of a thread on its CPU, as many as 16 bits hold. Further ones are not
/// counted.
pub const MOST_TICKS: u16 = u16::MAX;

/// A thread that is believed to run, at this sequence number, for so many ticks of its CPU's timer.
///
/// Ticks are counted up to [`MOST_TICKS`].
#[derive(Clone, Copy, PartialEq, Eq, Debug)]
pub struct Running {
    pub tid: u32,
    pub tseq: u32,
    pub ticks: u16,
}

/// Returns a belief after one tick more.
pub(crate) fn ticked(believed: Option<Running>) -> Option<Running>
    ensures { result ≡ ticked believed }
{
    let running = believed?;
    Some(Running {
        ticks: running.ticks.saturating_add(1).min(MOST_TICKS),
        ..running
    })
}

/// Gives a thread this number, if it runs there.
#[inline(always)]
pub(crate) fn raise_at(believed: &mut Option<Running>, tid: u32, tseq: u32)
    ensures { believed.new ≡ raised_at tid tseq believed.old }
{
    if let Some(running) = believed
        && running.tid == tid
    {
        running.tseq = tseq;
    }
}
