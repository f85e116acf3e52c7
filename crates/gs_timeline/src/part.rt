ghost use Rattle.std.specs.Prelude.{◌≡◌, ◌<◌, ◌≤◌, ◌*◌, ◌-◌, ◌&&◌, nat_le, nat_lt};
ghost use Rattle.gs_timeline.specs.Places.{behind, meets, scale_of, x_of};
ghost use Rattle.gs_timeline.specs.declared.part.TheConstants.{MOST_SINGLE, WIDEST};

/// The most entries of which each has a pixel of its own: a browser still opens a picture of this size. If there are
/// more, several share a pixel.
pub const MOST_SINGLE: usize = 100_000;

/// How wide the entries of a part are together if they are few, in units of the picture.
const ROOM: usize = 1_600;

/// The most that an entry is wide.
const WIDEST: usize = 60;

/// Where the first entry begins.
pub(crate) const LEFT: u64 = 150;

/// How much room is behind the last entry: for the words of what happened there.
pub(crate) const EDGE: u64 = 230;

/// The entries that a picture shows, how wide each is, and the script's lines that added them.
#[derive(Clone, Copy)]
pub(crate) struct Part<'a> {
    lines: &'a [usize],
    first: usize,
    count: usize,
    unit: usize,
    sharing: usize,
    ghost unit_bound: { unit ≤ WIDEST },
    ghost sharing_bound: { 0 < sharing },
    ghost narrow: { count ≤ sharing * MOST_SINGLE },
}

impl<'a> Part<'a> {
    /// Makes the part from entry `from` to entry `to`, that one too, of so many entries, which these lines added.
    #[tactic(auto, using(crate::proofs::Shared::shared_by))]
    pub(crate) fn new(entries: usize, lines: &'a [usize], from: usize, to: usize) -> Part<'a>
        ensures { record { first = result.first; count = result.count; sharing = result.sharing; unit = result.unit } ≡ scale_of entries from to }
    {
        let behind = entries.min(to.saturating_add(1));
        let count = behind.saturating_sub(from);
        let unit = (ROOM / count.max(1)).clamp(1, WIDEST);
        let sharing = count.saturating_sub(1) / MOST_SINGLE + 1;
        Part {
            lines,
            first: from,
            count,
            unit,
            sharing,
        }
    }

    /// Returns the place of the first entry.
    pub(crate) fn first(&self) -> usize {
        self.first
    }

    /// Returns the place behind the last entry.
    pub(crate) fn behind(&self) -> usize
        ensures { result ≡ behind self.now.first self.now.count }
    {
        self.first.saturating_add(self.count)
    }

    /// Returns how many entries it has.
    pub(crate) fn count(&self) -> usize {
        self.count
    }

    /// Returns how wide an entry is, or 1 if several share a pixel.
    pub(crate) fn unit(&self) -> usize {
        self.unit
    }

    /// Returns how many entries share a pixel, or 1 if each has one.
    pub(crate) fn sharing(&self) -> usize {
        self.sharing
    }

    /// Returns whether an entry is shown.
    pub(crate) fn has(&self, place: usize) -> bool
        ensures { result ≡ (nat_le self.now.first place && nat_lt place (behind self.now.first self.now.count)) }
    {
        place >= self.first && place < self.behind()
    }

    /// Returns whether what happens before the entry of this place, and behind the one before that, is shown.
    pub(crate) fn meets(&self, place: usize) -> bool
        ensures { result ≡ meets self.now.first self.now.count place }
    {
        place >= self.first && place <= self.behind()
    }

    /// Returns the line of the script that added an entry.
    pub(crate) fn line(&self, place: usize) -> Option<usize> {
        self.lines.get(place).copied()
    }

    /// Returns how many of the entries from one on and before another are shown.
    pub(crate) fn shown(&self, from: usize, to: usize) -> usize {
        to.min(self.behind()).saturating_sub(from.max(self.first))
    }

    /// Returns where an entry begins. Those before the part begin where it does, and those behind where it ends.
    #[tactic(auto, using(crate::proofs::Shared::units_fit, crate::proofs::Shared::places_fit))]
    pub(crate) fn x(&self, place: usize) -> u64
        ensures { result ≡ x_of self.now.first self.now.count self.now.sharing self.now.unit place }
    {
        let before = place.saturating_sub(self.first).min(self.count);
        let units = before / self.sharing * self.unit;
        LEFT + units as u64
    }

    /// Returns how wide the entries from one on and before another are.
    pub(crate) fn width(&self, from: usize, to: usize) -> u64
        ensures { result ≡ x_of self.now.first self.now.count self.now.sharing self.now.unit to - x_of self.now.first self.now.count self.now.sharing self.now.unit from }
    {
        self.x(to).saturating_sub(self.x(from))
    }

    /// Returns how many entries are between two numbers of the axis, so that these do not touch.
    pub(crate) fn step(&self) -> usize
        ensures { 0 < result }
    {
        match self.unit {
            30.. => 1,
            12..30 => 5,
            6..12 => 10,
            2..6 => 50,
            _ => self.sharing.saturating_mul(100),
        }
    }
}
