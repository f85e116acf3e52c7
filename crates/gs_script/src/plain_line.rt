//! Lines in their plainest form, read in one pass over their bytes: a word, and one space before each word behind it.

ghost use Rattle.std.specs.Prelude.{◌≡◌, ◌<◌, ◌++◌, ◌∷◌, [], codes, false, true, IfSome, Ok, if◌then◌else◌, vec_capacity, vec_len};
ghost use Rattle.gs_script.specs.Rows as rows;
ghost use Rattle.gs_script.specs.Rows.{number_between, reads};
ghost use Rattle.gs_script.specs.Plain.{StartsWith};
ghost use Rattle.gs_core.specs.declared.event.Event.TheVariants as kinds;
ghost use Rattle.gs_script.specs.Held.{Adds, AddsIf, AddsReadIf};

use crate::cursor::{
    behind, flags_first, line_end, mask_last, mask_spaced, number_first, number_last,
    number_spaced, rest_of_line, u16_last, u32_last,
};
use crate::named_policy::NamedPolicy;
use crate::word::name_spelled;
use gs_core::Event;
use gs_kernel::{Command, ThreadEvent};
use gs_layout::{Class, Facts};
use gs_status::Mask;

/// What is left behind a line that was read. `None` says nothing of the line, and no event is added then.
type Left<'a> = Option<Option<&'a [u8]>>;

type Events<P> = Vec<Event<P>>;

/// The event that the kernel is told this.
#[inline(always)]
fn of_kernel<P>(command: Command) -> Event<P>
    ensures { result ≡ kinds.Kernel command }
{
    Event::Kernel { command }
}

/// Whether a thread is runnable, and the space behind the word that says it.
#[inline(always)]
fn runnable_spaced(text: &[u8]) -> Option<(bool, &[u8])>
    ensures { IfSome result (λ p. StartsWith (λ word. word ≡ (if p.0 then codes "r" else codes "b")) text.now (32 ∷ p.1.now)) }
{
    match text {
        [b'r', b' ', rest @ ..] => Some((true, rest)),
        [b'b', b' ', rest @ ..] => Some((false, rest)),
        _ => None,
    }
}

/// The number of a class, and the space behind it.
#[inline(always)]
fn class_spaced(text: &[u8]) -> Option<(u8, &[u8])>
    ensures { IfSome result (λ p. StartsWith (λ digits. number_between 0 1 digits ≡ Ok p.0) text.now (32 ∷ p.1.now)) }
{
    match text {
        [b'0', b' ', rest @ ..] => Some((0, rest)),
        [b'1', b' ', rest @ ..] => Some((1, rest)),
        _ => None,
    }
}

/// A creation, out of line.
#[inline(never)]
fn create<'a, P: Copy>(text: &'a [u8], events: &mut Events<P>) -> Left<'a>
    requires { vec_len events.old < vec_capacity events.old }
    ensures { AddsReadIf (reads rows.create) text.now events.old.items events.new.items result }
{
    let (mask, rest) = mask_spaced(text)?;
    let (class, rest) = class_spaced(rest)?;
    let (runnable, rest) = runnable_spaced(rest)?;
    let (word, left) = rest_of_line(rest)?;
    let name = name_spelled(word)?;
    let facts = Facts {
        mask: Mask::new(mask),
        runnable,
        class: Class::numbered(class),
        name,
    };
    events.push_reserved(of_kernel(Command::Create { facts }));
    Some(left)
}

/// A creation. The place for what `create` returns is cleared here, and so for no other line.
#[inline(always)]
fn creation<'a, P: Copy>(text: &'a [u8], events: &mut Events<P>) -> Left<'a>
    requires { vec_len events.old < vec_capacity events.old }
    ensures { AddsReadIf (reads rows.create) text.now events.old.items events.new.items result }
{
    create(text, events)
}

/// What happens to the thread of a number.
#[inline(always)]
fn to_thread<'a, P: Copy>(text: &'a [u8], event: ThreadEvent, events: &mut Events<P>) -> Left<'a>
    requires { vec_len events.old < vec_capacity events.old }
    ensures { AddsReadIf (reads (rows.to_thread [] event)) text.now events.old.items events.new.items result }
{
    let (tid, left) = u32_last(text)?;
    events.push_reserved(of_kernel(Command::Thread { tid, event }));
    Some(left)
}

/// What stands behind the first word of an affinity. The compiler folds a comparison of eight bytes at most.
#[inline(always)]
fn behind_affinity(text: &[u8]) -> Option<&[u8]>
    ensures { IfSome result (λ rest. text.now ≡ codes "affinity " ++ rest.now) }
{
    behind(behind(text, b"affinit")?, b"y ")
}

/// What stands behind the first word of a creation. Bytes are compared one by one, since a call would be made else.
#[inline(always)]
fn behind_create(text: &[u8]) -> Option<&[u8]>
    ensures { IfSome result (λ rest. text.now ≡ codes "create " ++ rest.now) }
{
    match text {
        [b'c', b'r', b'e', b'a', b't', b'e', b' ', rest @ ..] => Some(rest),
        _ => None,
    }
}

/// What stands behind the first word of a death, compared in the same way.
#[inline(always)]
fn behind_die(text: &[u8]) -> Option<&[u8]>
    ensures { IfSome result (λ rest. text.now ≡ codes "die " ++ rest.now) }
{
    match text {
        [b'd', b'i', b'e', b' ', rest @ ..] => Some(rest),
        _ => None,
    }
}

/// What stands behind the first word of a commit, compared in the same way.
#[inline(always)]
fn behind_commit(text: &[u8]) -> Option<&[u8]>
    ensures { IfSome result (λ rest. text.now ≡ codes "commit " ++ rest.now) }
{
    match text {
        [b'c', b'o', b'm', b'm', b'i', b't', b' ', rest @ ..] => Some(rest),
        _ => None,
    }
}

/// What stands behind the first word of a stamp, compared in the same way.
#[inline(always)]
fn behind_stamp(text: &[u8]) -> Option<&[u8]>
    ensures { IfSome result (λ rest. text.now ≡ codes "stamp " ++ rest.now) }
{
    match text {
        [b's', b't', b'a', b'm', b'p', b' ', rest @ ..] => Some(rest),
        _ => None,
    }
}

/// What stands behind the first word of a drain, compared in the same way.
#[inline(always)]
fn behind_drain(text: &[u8]) -> Option<&[u8]>
    ensures { IfSome result (λ rest. text.now ≡ codes "drain " ++ rest.now) }
{
    match text {
        [b'd', b'r', b'a', b'i', b'n', b' ', rest @ ..] => Some(rest),
        _ => None,
    }
}

/// What stands behind the word of a decision, compared in the same way.
#[inline(always)]
fn behind_decide(text: &[u8]) -> Option<&[u8]>
    ensures { IfSome result (λ rest. text.now ≡ codes "decide" ++ rest.now) }
{
    match text {
        [b'd', b'e', b'c', b'i', b'd', b'e', rest @ ..] => Some(rest),
        _ => None,
    }
}

/// An affinity.
#[inline(always)]
fn affinity<'a, P: Copy>(text: &'a [u8], events: &mut Events<P>) -> Left<'a>
    requires { vec_len events.old < vec_capacity events.old }
    ensures { AddsReadIf (reads rows.affinity) text.now events.old.items events.new.items result }
{
    let (tid, rest) = number_spaced(text, u32::MAX as u64)?;
    let (mask, left) = mask_last(rest)?;
    let event = ThreadEvent::Affinity {
        mask: Mask::new(mask),
    };
    let tid = tid as u32;
    events.push_reserved(of_kernel(Command::Thread { tid, event }));
    Some(left)
}

/// A stamp.
#[inline(always)]
fn stamp<'a, P: Copy>(text: &'a [u8], events: &mut Events<P>) -> Left<'a>
    requires { vec_len events.old < vec_capacity events.old }
    ensures { AddsReadIf (reads rows.stamp) text.now events.old.items events.new.items result }
{
    let (cpu, rest) = number_spaced(text, u16::MAX as u64)?;
    let (tid, rest) = number_first(rest, u32::MAX as u64)?;
    let (flags, rest) = flags_first(rest);
    let left = line_end(rest)?;
    let cpu = cpu as u16;
    let tid = tid as u32;
    events.push_reserved(Event::Stamp { cpu, tid, flags });
    Some(left)
}

/// Adds the event of a text's first line, if that is a frequent one in its plainest form, and returns what is left
/// behind the line. `None` says nothing of the line, and nothing is added then.
#[inline(always)]
fn add_plain<'a, P: NamedPolicy>(text: &'a [u8], events: &mut Events<P>) -> Left<'a>
    requires { vec_len events.old < vec_capacity events.old }
    ensures { AddsIf P.naming text.now events.old.items events.new.items result }
{
    match text.first()? {
        b'a' => affinity(behind_affinity(text)?, events),
        b'b' => to_thread(behind(text, b"block ")?, ThreadEvent::Block, events),
        b'c' => match behind_commit(text) {
            Some(rest) => {
                let (mask, left) = mask_last(rest)?;
                let mask = Mask::new(mask);
                events.push_reserved(Event::Commit { mask });
                Some(left)
            }
            None => creation(behind_create(text)?, events),
        },
        b'd' => match text.get(1)? {
            b'r' => {
                let (max, left) = u32_last(behind_drain(text)?)?;
                events.push_reserved(Event::Drain { max });
                Some(left)
            }
            b'e' => {
                let left = line_end(behind_decide(text)?)?;
                events.push_reserved(Event::Decide);
                Some(left)
            }
            _ => to_thread(behind_die(text)?, ThreadEvent::Die, events),
        },
        b'g' => {
            let (cpu, left) = u16_last(behind(text, b"give ")?)?;
            events.push_reserved(of_kernel(Command::Give { cpu }));
            Some(left)
        }
        b'h' => {
            let (cpu, left) = u16_last(behind(text, b"handoff ")?)?;
            events.push_reserved(of_kernel(Command::HandOff { cpu }));
            Some(left)
        }
        b'l' => {
            let (number, left) = u32_last(behind(text, b"late ")?)?;
            events.push_reserved(Event::Late { number });
            Some(left)
        }
        b'p' => {
            let (max, left) = u16_last(behind(text, b"page ")?)?;
            events.push_reserved(Event::Page { max });
            Some(left)
        }
        b's' => match behind_stamp(text) {
            Some(rest) => stamp(rest, events),
            None => {
                let left = line_end(behind(text, b"state")?)?;
                events.push_reserved(Event::State);
                Some(left)
            }
        },
        b't' => match behind(text, b"tick ") {
            Some(rest) => {
                let (cpu, left) = u16_last(rest)?;
                events.push_reserved(of_kernel(Command::Tick { cpu }));
                Some(left)
            }
            None => {
                let (cpu, left) = u16_last(behind(text, b"take ")?)?;
                events.push_reserved(of_kernel(Command::Take { cpu }));
                Some(left)
            }
        },
        b'u' => {
            let left = line_end(behind(text, b"unread")?)?;
            events.push_reserved(Event::Unread);
            Some(left)
        }
        b'v' => {
            let left = line_end(behind(text, b"view")?)?;
            events.push_reserved(Event::View);
            Some(left)
        }
        b'w' => to_thread(behind(text, b"wake ")?, ThreadEvent::Wake, events),
        b'y' => to_thread(behind(text, b"yield ")?, ThreadEvent::Yield, events),
        _ => None,
    }
}

/// Adds the event of a text's first line, if that is a frequent one in its plainest form. Then puts what is left behind the line into a
/// place, and returns true. Or it changes nothing, and says nothing of the line.
#[inline(never)]
pub(crate) fn pass_plain<'a, P: NamedPolicy>(
    text: &'a [u8],
    left: &mut Option<&'a [u8]>,
    events: &mut Events<P>,
) -> bool
    requires { vec_len events.old < vec_capacity events.old }
    ensures read { result ≡ true → Adds P.naming text.now left.new events.old.items events.new.items }
    ensures unread { result ≡ false → events.new.items ≡ events.old.items }
    ensures kept { result ≡ false → left.new ≡ left.old }
{
    match add_plain(text, events) {
        Some(rest) => {
            *left = rest;
            true
        }
        None => false,
    }
}
