//! What a single value says.
ghost use Rattle.std.specs.Prelude.{◌≡◌, ◌≤◌, ◌<◌, ◌-◌, IfOk, true, false};
ghost use Rattle.toml.specs.View.{view};
ghost use Rattle.gs_status.specs.Masks.{has_none, has_past};
ghost use Rattle.gs_workload.specs.Values.{number_said, span_said, mask_said, name_said, class_said, flag_said, leaving_said, change_name_said, is_thread_name};

use crate::fault::{Kind, Reason};
use crate::workload::{Leaving, Span};
use gs_layout::{Class, Name};
use gs_status::Mask;
use toml::Value;

/// Which change of the agent is named.
#[derive(Clone, Copy)]
pub(crate) enum ChangeName {
    HandOff,
    Crash,
    Replace,
}

/// A number from `least` to `most`.
pub(crate) fn number(value: &Value, least: u32, most: u32) -> Result<u32, Reason>
    ensures exact { result ≡ number_said least most (view value.now) }
    ensures low { IfOk result (λ n. least ≤ n) }
    ensures high { IfOk result (λ n. n ≤ most) }
{
    let Some(number) = value.as_integer() else {
        return Err(Reason::NotOfKind { kind: Kind::Number });
    };
    match u32::try_from(number) {
        Ok(number) if least <= number && number <= most => Ok(number),
        _ => Err(Reason::OutOfRange { least, most }),
    }
}

/// A number, or a list of the least and the most one.
pub(crate) fn span(value: &Value, least: u32, most: u32) -> Result<Span, Reason>
    ensures exact { result ≡ span_said least most (view value.now) }
    ensures low { IfOk result (λ s. least ≤ s.least) }
    ensures order { IfOk result (λ s. s.least ≤ s.most) }
    ensures high { IfOk result (λ s. s.most ≤ most) }
{
    let Some(pair) = value.as_array() else {
        let number = number(value, least, most)?;
        return Ok(Span {
            least: number,
            most: number,
        });
    };
    let [first, second] = pair.as_slice() else {
        return Err(Reason::NotOfKind { kind: Kind::Span });
    };
    let first = number(first, least, most)?;
    let second = number(second, least, most)?;
    if second < first {
        return Err(Reason::Reversed);
    }
    Ok(Span {
        least: first,
        most: second,
    })
}

/// The CPUs of a list, at least one, each below `cpus`.
pub(crate) fn mask(value: &Value, cpus: u16) -> Result<Mask, Reason>
    requires some { 1 ≤ cpus }
    requires few { cpus ≤ 128 }
    ensures exact { result ≡ mask_said cpus (view value.now) }
    ensures some { IfOk result (λ mask. has_none mask ≡ false) }
    ensures within { IfOk result (λ mask. has_past mask cpus ≡ false) }
{
    let Some(list) = value.as_array() else {
        return Err(Reason::NotOfKind { kind: Kind::Cpus });
    };
    let mut bits = 0u128;
    for item in list {
        let cpu = number(item, 0, cpus as u32 - 1)?;
        bits |= 1 << cpu;
    }
    if bits == 0 {
        return Err(Reason::NoCpu);
    }
    Ok(Mask::new(bits))
}

/// A name of a thread.
pub(crate) fn name(value: &Value) -> Result<Name, Reason>
    ensures exact { result ≡ name_said (view value.now) }
    ensures name { IfOk result (λ name. is_thread_name name ≡ true) }
{
    let Some(text) = value.as_str() else {
        return Err(Reason::NotOfKind { kind: Kind::Text });
    };
    if text.is_empty() || text == "-" {
        return Err(Reason::NoName);
    }
    match Name::new(text.as_bytes()) {
        Some(name) => Ok(name),
        None => Err(Reason::NoName),
    }
}

/// A class: 0 or 1.
pub(crate) fn class(value: &Value) -> Result<Class, Reason>
    ensures { result ≡ class_said (view value.now) }
{
    let number = number(value, 0, 1)?;
    Ok(Class::numbered(number as u8))
}

/// True or false.
pub(crate) fn flag(value: &Value) -> Result<bool, Reason>
    ensures { result ≡ flag_said (view value.now) }
{
    match value.as_bool() {
        Some(flag) => Ok(flag),
        None => Err(Reason::NotOfKind { kind: Kind::Flag }),
    }
}

/// How a burst ends.
pub(crate) fn leaving(value: &Value) -> Result<Leaving, Reason>
    ensures { result ≡ leaving_said (view value.now) }
{
    let Some(text) = value.as_str() else {
        return Err(Reason::NotOfKind { kind: Kind::Text });
    };
    match text {
        "block" => Ok(Leaving::Block),
        "yield" => Ok(Leaving::Yield),
        "die" => Ok(Leaving::Die),
        _ => Err(Reason::OtherWord),
    }
}

/// A word for a change of the agent.
pub(crate) fn change_name(value: &Value) -> Result<ChangeName, Reason>
    ensures { result ≡ change_name_said (view value.now) }
{
    let Some(text) = value.as_str() else {
        return Err(Reason::NotOfKind { kind: Kind::Text });
    };
    match text {
        "hand-off" => Ok(ChangeName::HandOff),
        "crash" => Ok(ChangeName::Crash),
        "replace" => Ok(ChangeName::Replace),
        _ => Err(Reason::OtherWord),
    }
}
