//! The flags of a transaction, and the one byte that a slot has for them.

ghost use Rattle.std.specs.Prelude.{◌≡◌};
ghost use Rattle.gs_slots.specs.Flags.{are_flags, flags_byte, flags_in, single};

/// What a transaction asks for beside its thread and its CPU.
#[derive(Clone, Copy, PartialEq, Eq, Debug)]
pub struct Flags {
    /// Whether a thread that is on the CPU is to give way.
    pub preempt: bool,
    /// Whether it is placed only if all others of a commit that say so are placed.
    pub group: bool,
}

impl Flags {
    /// It asks for nothing.
    pub const NONE: Flags = Flags {
        preempt: false,
        group: false,
    };

    /// Returns the flags of a transaction that is not one of a group: a thread on the CPU is to give way, or not.
    pub fn single(preempt: bool) -> Flags
        ensures { result ≡ single preempt }
    {
        Flags {
            preempt,
            ..Flags::NONE
        }
    }
}

/// Returns the byte of flags: bit 0 says that a thread gives way, and bit 1 that the transaction is one of a group.
pub(crate) fn flags_byte(flags: Flags) -> u8
    ensures { result ≡ flags_byte flags }
{
    u8::from(flags.preempt) + 2 * u8::from(flags.group)
}

/// Returns whether a byte has no other bit than those.
pub(crate) fn are_flags(byte: u8) -> bool
    ensures { result ≡ are_flags byte }
{
    byte < 4
}

/// Returns the flags that a byte has. A group's is set if its bit is, or one above it.
pub(crate) fn flags_in(byte: u8) -> Flags
    ensures { result ≡ flags_in byte }
{
    Flags {
        preempt: byte % 2 == 1,
        group: 2 <= byte,
    }
}
