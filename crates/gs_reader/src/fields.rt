//! The ranges of a message's fields.

ghost use Rattle.std.specs.Prelude.{◌≡◌, ◌+◌, ◌≤◌, length, slice_index};
ghost use Rattle.std.specs.Bool.{OnTrue};
ghost use Rattle.gs_layout.specs.Reading.{least};
ghost use Rattle.gs_reader.specs.Reading.{cpu_fits, fields_fit, flags_fit, more_fits, name_fits, numbers_fit, sizes_fit};

use gs_layout::{
    CLASS_AT, CPU_AT, FLAGS_AT, Kind, MASK_AT, MOST_NAME_LEN, NAME_AT, NAME_LEN_AT, NO_CPU, Name,
    TID_AT, TSEQ_AT, are_numbers, are_zeros, creation_len, u16_at, u32_at, u128_at,
};
use gs_status::MOST_CPUS;

fn numbers_fit(kind: Kind, tid: u32, tseq: u32) -> bool
    ensures { result ≡ numbers_fit kind tid tseq }
{
    match kind {
        Kind::TimerTick => tid == 0 && tseq == 0,
        _ => are_numbers(tid, tseq),
    }
}

fn cpu_fits(kind: Kind, cpu: u16) -> bool
    ensures { result ≡ cpu_fits kind cpu }
{
    match kind {
        Kind::Created | Kind::Wakeup => cpu == NO_CPU,
        Kind::Dead | Kind::Affinity => cpu < MOST_CPUS || cpu == NO_CPU,
        _ => cpu < MOST_CPUS,
    }
}

fn flags_fit(kind: Kind, cpu: u16, flags: u16) -> bool
    ensures { result ≡ flags_fit kind cpu flags }
{
    match kind {
        Kind::Created => flags < 2,
        Kind::Affinity => flags == 0 || (flags == 1 && cpu != NO_CPU),
        _ => flags == 0,
    }
}

fn sizes_fit(text: &[u8]) -> bool
    requires { NAME_AT ≤ length text.now }
    ensures value { result ≡ sizes_fit text.now }
    ensures room { OnTrue result (NAME_AT + slice_index text.now NAME_LEN_AT ≤ length text.now) }
{
    let name_len = text[NAME_LEN_AT] as usize;
    u128_at(text, MASK_AT) != 0
        && text[CLASS_AT] < 2
        && name_len <= MOST_NAME_LEN
        && creation_len(name_len) == text.len()
}

fn name_fits(text: &[u8]) -> bool
    requires start { NAME_AT ≤ length text.now }
    requires room { NAME_AT + slice_index text.now NAME_LEN_AT ≤ length text.now }
    ensures { result ≡ name_fits text.now }
{
    let end = NAME_AT + text[NAME_LEN_AT] as usize;
    Name::is_name(&text[NAME_AT..end]) && are_zeros(&text[end..])
}

fn more_fits(kind: Kind, text: &[u8]) -> bool
    requires { least kind ≤ length text.now }
    ensures { result ≡ more_fits kind text.now }
{
    match kind {
        Kind::Created => sizes_fit(text) && name_fits(text),
        Kind::Affinity => u128_at(text, MASK_AT) != 0,
        _ => true,
    }
}

/// Returns whether each field of a message of this kind is in its range.
pub(crate) fn fields_fit(kind: Kind, text: &[u8]) -> bool
    requires { least kind ≤ length text.now }
    ensures { result ≡ fields_fit kind text.now }
{
    let cpu = u16_at(text, CPU_AT);
    numbers_fit(kind, u32_at(text, TID_AT), u32_at(text, TSEQ_AT))
        && cpu_fits(kind, cpu)
        && flags_fit(kind, cpu, u16_at(text, FLAGS_AT))
        && more_fits(kind, text)
}
