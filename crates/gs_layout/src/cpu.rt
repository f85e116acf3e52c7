//! A CPU, or none, as a number of two bytes.

ghost use Rattle.std.specs.Prelude.{◌≡◌};
ghost use Rattle.gs_layout.specs.Reading.{cpu_numbered};
ghost use Rattle.gs_layout.specs.Spelling.{cpu_number};

/// The number that stands for no CPU in the bytes of a message or a slot. It is the greatest of two bytes,
/// so that it is no CPU's.
pub const NO_CPU: u16 = 65_535;

/// Returns the CPU of this number, or `None` if it is [`NO_CPU`].
pub fn cpu_numbered(number: u16) -> Option<u16>
    ensures { result ≡ cpu_numbered number }
{
    match number {
        NO_CPU => None,
        cpu => Some(cpu),
    }
}

/// Returns the number of a CPU, or [`NO_CPU`] for none.
pub fn cpu_number(cpu: Option<u16>) -> u16
    ensures { result ≡ cpu_number cpu }
{
    cpu.unwrap_or(NO_CPU)
}
