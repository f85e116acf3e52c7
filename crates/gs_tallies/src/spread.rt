ghost use Rattle.std.specs.Prelude.{◌≡◌, ◌+◌, ◌*◌, ◌<◌, ◌≤◌, IfSome, IfNone, [], length};
ghost use Rattle.std.specs.List.Sorted.{IsNonDecreasing};
ghost use Rattle.gs_tallies.specs.Spreads.{IsPercentile, IsSpread, percent_of};

/// How some numbers are spread: percentiles by the nearest rank.
#[derive(Clone, Copy, PartialEq, Eq, Debug)]
pub struct Spread {
    pub half: usize,
    pub ninety: usize,
    pub ninety_nine: usize,
    pub all: usize,
}

/// How many of a hundred numbers a percentile is of.
#[derive(Clone, Copy)]
enum Percent {
    Half,
    Ninety,
    NinetyNine,
    All,
}

/// Returns the rank of a percentile of so many numbers, counted from 1.
fn rank_of(count: usize, percent: Percent) -> usize
    requires { 0 < count }
    ensures some { 0 < result }
    ensures within { result ≤ count }
    ensures enough { percent_of percent * count ≤ 100 * result }
    ensures least { 100 * result < percent_of percent * count + 100 }
{
    match percent {
        Percent::Half => count - count / 2,
        Percent::Ninety => count - count / 10,
        Percent::NinetyNine => count - count / 100,
        Percent::All => count,
    }
}

/// Returns the percentile by the nearest rank of numbers that rise: the least of them that so many of a hundred do not
/// exceed.
fn percentile(rising: &[usize], percent: Percent) -> usize
    requires some { 0 < length rising.now }
    requires rising { IsNonDecreasing rising.now }
    ensures { IsPercentile (percent_of percent) rising.now result }
{
    let rank = rank_of(rising.len(), percent);
    rising[rank - 1]
}

/// Returns how numbers are spread that rise.
fn spread_in(rising: &[usize]) -> Spread
    requires some { 0 < length rising.now }
    requires rising { IsNonDecreasing rising.now }
    ensures { IsSpread rising.now result }
{
    Spread {
        half: percentile(rising, Percent::Half),
        ninety: percentile(rising, Percent::Ninety),
        ninety_nine: percentile(rising, Percent::NinetyNine),
        all: percentile(rising, Percent::All),
    }
}

/// Returns how numbers are spread, or `None` if there are none. It sorts them.
pub(crate) fn spread_of(numbers: &mut [usize]) -> Option<Spread>
    ensures some { IfSome result (IsSpread numbers.old) }
    ensures none { IfNone result (numbers.old ≡ []) }
{
    if numbers.is_empty() {
        return None;
    }
    numbers.sort_unstable();
    Some(spread_in(numbers))
}
