//! A message as bytes.

ghost use Rattle.std.specs.Prelude.{◌≡◌, ◌+◌, ◌≤◌, ◌++◌, ◌∷◌, length, drop};
ghost use Rattle.gs_layout.specs.Class.{class_number};
ghost use Rattle.gs_layout.specs.Header.{numbered};
ghost use Rattle.gs_layout.specs.Spelling.{facts_bytes, flags_of, header_of, more_of, name_bytes, round_up, size_of, spelling};

use crate::cpu::cpu_number;
use crate::facts::{Class, Facts};
use crate::message::{Change, Message};
use crate::name::{MOST_NAME_LEN, Name};
use crate::wire::{
    AFFINITY_LEN, ALIGNMENT, CLASS_AT, CPU_AT, FLAGS_AT, HEADER_LEN, KIND_AT, MASK_LEN,
    MIDDLE_NAME_LEN, NAME_AT, SHORT_NAME_LEN, TID_AT, TSEQ_AT,
};
use byteorder::{ByteOrder, LittleEndian};

/// How many bytes the class of a creation and the length of its name have.
const SIZES_LEN: usize = NAME_AT - CLASS_AT;

/// How many bytes the longest creations have from their names on.
const LONG_NAME_LEN: usize = MIDDLE_NAME_LEN + ALIGNMENT;

/// The numbers of a message's header.
#[derive(Clone, Copy)]
struct Header {
    len: u16,
    kind: u16,
    tid: u32,
    tseq: u32,
    cpu: u16,
    flags: u16,
}

/// Returns how many bytes a creation has whose name has this many: 40, 48 or 56.
pub fn creation_len(name_len: usize) -> usize
    requires { name_len ≤ MOST_NAME_LEN }
    ensures { result ≡ round_up (NAME_AT + name_len) }
{
    (NAME_AT + name_len + (ALIGNMENT - 1)) / ALIGNMENT * ALIGNMENT
}

fn flags(message: &Message) -> u16
    ensures { result ≡ flags_of message.now }
{
    match message {
        Message::Thread {
            change: Change::Created { facts },
            ..
        } => u16::from(facts.runnable),
        Message::Thread {
            change: Change::Affinity { off, .. },
            ..
        } => u16::from(*off),
        _ => 0,
    }
}

fn size(message: &Message) -> u16
    ensures { result ≡ size_of message.now }
{
    match message {
        Message::Thread {
            change: Change::Created { facts },
            ..
        } => creation_len(facts.name.as_bytes().len()) as u16,
        Message::Thread {
            change: Change::Affinity { .. },
            ..
        } => AFFINITY_LEN as u16,
        _ => HEADER_LEN as u16,
    }
}

/// Returns how many bytes the message has: 16 to 56, a multiple of 8.
#[tactic(auto, using(crate::proofs::Spelled::spelled_length))]
pub fn message_len(message: &Message) -> usize
    ensures { result ≡ length (spelling message.now) }
{
    size(message) as usize
}

#[inline(always)]
fn header_of(message: &Message) -> Header
    ensures { numbered result ≡ header_of message.now }
{
    Header {
        len: size(message),
        kind: message.kind().number(),
        tid: message.tid(),
        tseq: message.tseq(),
        cpu: cpu_number(message.cpu()),
        flags: flags(message),
    }
}

/// Writes the header of a message.
#[inline(always)]
fn write_header(header: &Header, out: &mut [u8])
    requires { HEADER_LEN ≤ length out.old }
    ensures { out.new ≡ numbered header.now ++ drop HEADER_LEN out.old }
{
    LittleEndian::write_u16(out, header.len);
    LittleEndian::write_u16(&mut out[KIND_AT..], header.kind);
    LittleEndian::write_u32(&mut out[TID_AT..], header.tid);
    LittleEndian::write_u32(&mut out[TSEQ_AT..], header.tseq);
    LittleEndian::write_u16(&mut out[CPU_AT..], header.cpu);
    LittleEndian::write_u16(&mut out[FLAGS_AT..], header.flags);
}

/// Writes a name and the zeros behind it. How many bytes these are is known in each arm, so that none takes a call.
fn write_name(name: &Name, out: &mut [u8])
    requires { length (name_bytes name.now) ≤ length out.old }
    ensures { out.new ≡ name_bytes name.now ++ drop (length (name_bytes name.now)) out.old }
{
    let mut padded = [0; LONG_NAME_LEN];
    padded[..MOST_NAME_LEN].copy_from_slice(name.as_padded());
    match creation_len(name.as_bytes().len()) - NAME_AT {
        SHORT_NAME_LEN => out[..SHORT_NAME_LEN].copy_from_slice(&padded[..SHORT_NAME_LEN]),
        MIDDLE_NAME_LEN => out[..MIDDLE_NAME_LEN].copy_from_slice(&padded[..MIDDLE_NAME_LEN]),
        _ => out[..LONG_NAME_LEN].copy_from_slice(&padded),
    }
}

/// Writes a class, the length of a name, the name and the zeros behind it.
fn write_class(class: Class, name: &Name, out: &mut [u8])
    requires { SIZES_LEN + length (name_bytes name.now) ≤ length out.old }
    ensures { out.new ≡ (class_number class ∷ length name.now ∷ name_bytes name.now) ++ drop (length (class_number class ∷ length name.now ∷ name_bytes name.now)) out.old }
{
    out[..SIZES_LEN].copy_from_slice(&[class.number(), name.as_bytes().len() as u8]);
    write_name(name, &mut out[SIZES_LEN..]);
}

fn write_facts(facts: &Facts, out: &mut [u8])
    requires { length (facts_bytes facts.now) ≤ length out.old }
    ensures { out.new ≡ facts_bytes facts.now ++ drop (length (facts_bytes facts.now)) out.old }
{
    LittleEndian::write_u128(out, facts.mask.bits());
    write_class(facts.class, &facts.name, &mut out[MASK_LEN..]);
}

/// Writes the bytes behind the header.
fn write_more(message: &Message, out: &mut [u8])
    requires { length (more_of message.now) ≤ length out.old }
    ensures { out.new ≡ more_of message.now ++ drop (length (more_of message.now)) out.old }
{
    match message {
        Message::Thread {
            change: Change::Created { facts },
            ..
        } => write_facts(facts, out),
        Message::Thread {
            change: Change::Affinity { mask, .. },
            ..
        } => LittleEndian::write_u128(out, mask.bits()),
        _ => {}
    }
}

/// Writes the message at the front of `out` and leaves the rest as it was. Returns how many bytes it wrote,
/// which is [`message_len`] of the message.
///
/// # Examples
///
/// Whether a message has this spelling, and the rest of the buffer is left as it was:
///
/// ```
/// let len = message_len(message);
/// if room > MOST || len > room {
///     return false;
/// }
/// let out = &mut buffer[..room];
/// encode_message(message, out) == len
///     && &out[..len] == spelling
///     && out[len..].iter().all(|byte| *byte == UNWRITTEN)
/// ```
#[inline(always)]
pub fn encode_message(message: &Message, out: &mut [u8]) -> usize
    requires { length (spelling message.now) ≤ length out.old }
    ensures count { result ≡ length (spelling message.now) }
    ensures written { out.new ≡ spelling message.now ++ drop (length (spelling message.now)) out.old }
{
    write_header(&header_of(message), out);
    write_more(message, &mut out[HEADER_LEN..]);
    message_len(message)
}
