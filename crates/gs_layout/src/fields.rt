//! The fields of a message, read where they stand in its bytes.

ghost use Rattle.std.specs.Prelude.{◌≡◌, ◌+◌, ◌<◌, ◌≤◌, length, option_copied, true, slice_index};
ghost use Rattle.gs_layout.specs.declared.message.Message.{Message};
ghost use Rattle.gs_layout.specs.declared.kind.Kind.TheVariants as kinds;
ghost use Rattle.gs_layout.specs.Message.{tseq_of};
ghost use Rattle.gs_layout.specs.Name.{is_name};
ghost use Rattle.gs_layout.specs.Reading.{Begins, IsMessage, change_with, class_numbered, facts_in, least, name_in};
ghost use Rattle.gs_layout.specs.Spelling.{class_of, cpu_of, flags_of, kind_of, mask_of, name_of, tid_of};

use crate::cpu::cpu_numbered;
use crate::facts::{Class, Facts};
use crate::kind::Kind;
use crate::message::{Change, Message};
use crate::name::Name;
use crate::number::{u16_at, u32_at, u128_at};
use crate::wire::{
    CLASS_AT, CPU_AT, FLAGS_AT, KIND_AT, MASK_AT, NAME_AT, NAME_LEN_AT, TID_AT, TSEQ_AT,
};
use gs_status::Mask;

/// Returns the kind of the message that the bytes begin with.
pub fn kind_of(bytes: &[u8]) -> Kind
    requires { IsMessage bytes.now }
    ensures { (m : Message) → Begins bytes.now m → result ≡ kind_of m }
{
    Kind::numbered(u16_at(bytes, KIND_AT)).unwrap()
}

/// Returns the thread that the message is about, 0 for a tick.
pub fn tid_of(bytes: &[u8]) -> u32
    requires { IsMessage bytes.now }
    ensures { (m : Message) → Begins bytes.now m → result ≡ tid_of m }
{
    u32_at(bytes, TID_AT)
}

/// Returns the message's sequence number, 0 for a tick.
pub fn tseq_of(bytes: &[u8]) -> u32
    requires { IsMessage bytes.now }
    ensures { (m : Message) → Begins bytes.now m → result ≡ tseq_of m }
{
    u32_at(bytes, TSEQ_AT)
}

/// Returns the CPU that the thread was on just before, or the CPU of a tick.
pub fn cpu_of(bytes: &[u8]) -> Option<u16>
    requires { IsMessage bytes.now }
    ensures { (m : Message) → Begins bytes.now m → result ≡ cpu_of m }
{
    cpu_numbered(u16_at(bytes, CPU_AT))
}

/// Returns the message's flags. Bit 0 of a creation says that the thread is runnable. Bit 0 of a new mask
/// says that the thread was taken off its CPU. All else is 0.
pub fn flags_of(bytes: &[u8]) -> u16
    requires { IsMessage bytes.now }
    ensures { (m : Message) → Begins bytes.now m → result ≡ flags_of m }
{
    u16_at(bytes, FLAGS_AT)
}

/// Returns the mask of a creation or of a new mask, or `None` for any other kind.
pub fn mask_of(bytes: &[u8]) -> Option<Mask>
    requires { IsMessage bytes.now }
    ensures { (m : Message) → Begins bytes.now m → result ≡ mask_of m }
{
    match kind_of(bytes) {
        Kind::Created | Kind::Affinity => Some(Mask::new(u128_at(bytes, MASK_AT))),
        _ => None,
    }
}

/// Returns the class of a creation, or `None` for any other kind.
pub fn class_of(bytes: &[u8]) -> Option<Class>
    requires { IsMessage bytes.now }
    ensures { (m : Message) → Begins bytes.now m → result ≡ class_of m }
{
    match kind_of(bytes) {
        Kind::Created => Some(class_at(bytes)),
        _ => None,
    }
}

/// Lends the name of a creation, where it stands in the bytes, or returns `None` for any other kind.
pub fn name_of(bytes: &[u8]) -> Option<&[u8]>
    requires { IsMessage bytes.now }
    ensures { (m : Message) → Begins bytes.now m → option_copied result ≡ name_of m }
{
    match kind_of(bytes) {
        Kind::Created => Some(name_at(bytes)),
        _ => None,
    }
}

fn class_at(bytes: &[u8]) -> Class
    requires { CLASS_AT < length bytes.now }
    ensures { result ≡ class_numbered (slice_index bytes.now CLASS_AT) }
{
    Class::numbered(bytes[CLASS_AT])
}

fn name_at(bytes: &[u8]) -> &[u8]
    requires start { NAME_LEN_AT < length bytes.now }
    requires end { NAME_AT + slice_index bytes.now NAME_LEN_AT ≤ length bytes.now }
    ensures { result.now ≡ name_in bytes.now }
{
    let len = bytes[NAME_LEN_AT] as usize;
    &bytes[NAME_AT..NAME_AT + len]
}

fn facts_at(bytes: &[u8]) -> Facts
    requires start { NAME_AT ≤ length bytes.now }
    requires end { NAME_AT + slice_index bytes.now NAME_LEN_AT ≤ length bytes.now }
    requires name { is_name (name_in bytes.now) ≡ true }
    ensures { result ≡ facts_in bytes.now }
{
    Facts {
        runnable: u16_at(bytes, FLAGS_AT) == 1,
        mask: Mask::new(u128_at(bytes, MASK_AT)),
        class: class_at(bytes),
        name: Name::new(name_at(bytes)).unwrap(),
    }
}

fn change_at(kind: Kind, bytes: &[u8]) -> Change
    requires long { least kind ≤ length bytes.now }
    requires end { kind ≡ kinds.Created → NAME_AT + slice_index bytes.now NAME_LEN_AT ≤ length bytes.now }
    requires name { kind ≡ kinds.Created → is_name (name_in bytes.now) ≡ true }
    ensures { result ≡ change_with kind bytes.now }
{
    let cpu = u16_at(bytes, CPU_AT);
    match kind {
        Kind::Created => Change::Created {
            facts: facts_at(bytes),
        },
        Kind::Blocked => Change::Blocked { cpu },
        Kind::Preempted => Change::Preempted { cpu },
        Kind::Yield => Change::Yield { cpu },
        Kind::Dead => Change::Dead {
            cpu: cpu_numbered(cpu),
        },
        Kind::Affinity => Change::Affinity {
            cpu: cpu_numbered(cpu),
            off: u16_at(bytes, FLAGS_AT) == 1,
            mask: Mask::new(u128_at(bytes, MASK_AT)),
        },
        Kind::Wakeup | Kind::TimerTick => Change::Wakeup,
    }
}

/// Returns the message that the bytes begin with.
pub fn message_of(bytes: &[u8]) -> Message
    requires { IsMessage bytes.now }
    ensures { (m : Message) → Begins bytes.now m → result ≡ m }
{
    match kind_of(bytes) {
        Kind::TimerTick => Message::TimerTick {
            cpu: u16_at(bytes, CPU_AT),
        },
        kind => Message::Thread {
            tid: u32_at(bytes, TID_AT),
            tseq: u32_at(bytes, TSEQ_AT),
            change: change_at(kind, bytes),
        },
    }
}
