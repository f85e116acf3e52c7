//! The words that every part of the enclave speaks: threads' facts, messages, refusals and
//! outcomes, with the bytes of a message.
#![tactic(auto)]

mod cpu;
mod encode;
mod facts;
mod fields;
mod kind;
mod known;
mod law;
mod message;
mod name;
mod number;
mod outcome;
mod parcel;
mod record;
mod refusal;
mod spellable;
mod wire;

pub use cpu::{NO_CPU, cpu_number, cpu_numbered};
pub use encode::{creation_len, encode_message, message_len};
pub use facts::{Class, Facts};
pub use fields::{
    class_of, cpu_of, flags_of, kind_of, mask_of, message_of, name_of, tid_of, tseq_of,
};
pub use kind::Kind;
pub use known::{Known, Word};
pub use law::one_spelling;
pub use message::{Change, MOST_TIDS, Message};
pub use name::{MOST_NAME_LEN, Name};
pub use number::{are_zeros, u16_at, u32_at, u64_at, u128_at};
pub use outcome::{OUTCOMES, Outcome};
pub use parcel::Parcel;
pub use record::Record;
pub use refusal::Refusal;
pub use spellable::{are_numbers, is_cpu_or_none, is_tid};
pub use wire::{
    AFFINITY_LEN, ALIGNMENT, CLASS_AT, CPU_AT, FLAGS_AT, FRONT_LEN, HEADER_LEN, KIND_AT,
    LEAST_CREATION_LEN, LEAST_PAD_LEN, LEN_AT, MASK_AT, MASK_LEN, MIDDLE_NAME_LEN,
    MOST_MESSAGE_LEN, MOST_PAD_LEN, NAME_AT, NAME_LEN_AT, PAD, SHORT_NAME_LEN, TID_AT, TSEQ_AT,
};
