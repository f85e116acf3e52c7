//! How fairly threads ran.

ghost use Rattle.std.specs.Prelude.{◌≡◌};
ghost use Rattle.gs_compare.specs.Shares.{least_of, total_of, worst_share};

/// Returns the least of some numbers, or the most that 64 bits hold, if there are none.
fn least_of(numbers: &[usize]) -> usize
    ensures { result ≡ least_of numbers.now }
{
    let mut least = usize::MAX;
    for number in numbers {
        least = least.min(*number);
    }
    least
}

/// Returns the sum of some numbers. It stops at the most that 64 bits hold.
pub(crate) fn sum_of(numbers: &[usize]) -> usize
    ensures { result ≡ total_of numbers.now }
{
    let mut total: usize = 0;
    for number in numbers {
        total = total.saturating_add(*number);
    }
    total
}

/// Returns the share of its fair time that the worst of some threads got, in percent, by how long each ran. Fair is the mean
/// of what they ran. Without any time it is none.
pub(crate) fn worst_share(rans: &[usize]) -> Option<usize>
    ensures { result ≡ worst_share rans.now }
{
    let total = sum_of(rans);
    if total == 0 {
        return None;
    }
    let whole = least_of(rans).saturating_mul(rans.len());
    Some(whole.saturating_mul(100) / total)
}
