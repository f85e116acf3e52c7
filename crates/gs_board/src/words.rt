//! The words of a board, and what they say.

ghost use Rattle.std.specs.Prelude.{◌≡◌, ◌^◌, ◌<◌, unwrap_or};
ghost use Rattle.gs_board.specs.Words.{high_word, low_word, role_in, shown_role};

use gs_status::Mask;

/// What [`Shown::cpu`] is if no agent is active. It is no CPU's number.
pub const NOBODY: u16 = 65_535;

/// How many numbers two bytes have, as many as a CPU's.
const CPU_NUMBERS: u64 = 65_536;

/// How many words of 64 bits there are.
const WORDS: u128 = 1 << 64;

/// What a seat read on the board.
#[derive(Clone, Copy, PartialEq, Eq, Debug)]
pub struct Shown {
    /// The generation that was given last.
    pub generation: u32,
    /// The CPU of the active agent, or [`NOBODY`] if none is active.
    pub cpu: u16,
    /// The CPUs that the other class holds.
    pub taken: Mask,
}

/// Returns the word of a generation and of the active agent's CPU, if one is active.
pub(crate) fn role_word(generation: u32, cpu: Option<u16>) -> u64
    ensures says { role_in result ≡ (generation, unwrap_or cpu NOBODY) }
    ensures narrow { result < 2 ^ 48 }
{
    u64::from(generation) * CPU_NUMBERS + u64::from(cpu.unwrap_or(NOBODY))
}

/// Returns the word of the CPUs below 64 that are taken.
pub(crate) fn low_word(taken: Mask) -> u64
    ensures { result ≡ low_word taken }
{
    (taken.bits() % WORDS) as u64
}

/// Returns the word of the CPUs from 64 on that are taken.
pub(crate) fn high_word(taken: Mask) -> u64
    ensures { result ≡ high_word taken }
{
    (taken.bits() / WORDS) as u64
}

/// Returns what three words say.
pub(crate) fn unpack(role: u64, low: u64, high: u64) -> Shown
    requires { role < 2 ^ 48 }
    ensures role { shown_role result ≡ role_in role }
    ensures low { low_word result.taken ≡ low }
    ensures high { high_word result.taken ≡ high }
{
    Shown {
        generation: (role / CPU_NUMBERS) as u32,
        cpu: (role % CPU_NUMBERS) as u16,
        taken: Mask::new(u128::from(high) * WORDS + u128::from(low)),
    }
}
