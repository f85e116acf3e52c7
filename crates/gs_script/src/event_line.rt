ghost use Rattle.std.specs.Prelude.{◌≡◌, ◌≤◌, ◌∷◌, [], IfOk};
ghost use Rattle.gs_script.specs.Rows as rows;
ghost use Rattle.gs_script.specs.Rows.{shown, reads, event_of};

use crate::fault::Reason;
use crate::named_policy::NamedPolicy;
use crate::policy_word::has_name_of;
use crate::word::{mask as mask_number, name, number};
use gs_core::Event;
use gs_kernel::{Command, ThreadEvent};
use gs_layout::{Class, Facts};
use gs_slots::Flags;
use gs_status::Mask;

/// A number of 16 bits: of a CPU, also of one that is not there.
fn u16_number(word: &str) -> Result<u16, Reason>
    ensures { result ≡ rows.number_between 0 u16.MAX word.now }
{
    Ok(number(word, 0, u16::MAX as u64)? as u16)
}

/// A number of 32 bits: a thread's.
fn u32_number(word: &str) -> Result<u32, Reason>
    ensures { result ≡ rows.number_between 0 u32.MAX word.now }
{
    Ok(number(word, 0, u32::MAX as u64)? as u32)
}

/// A number up to `most` that is all that stands behind a line's first word.
fn only_number(words: &[&str], most: u64) -> Result<u64, Reason>
    ensures exact { result ≡ rows.one_number most (shown words.now) }
    ensures high { IfOk result (λ n. n ≤ most) }
{
    let [word] = words else {
        return Err(Reason::BadCount);
    };
    number(word, 0, most)
}

/// The same of 16 bits: a CPU, or how many threads a page has.
fn only_u16(words: &[&str]) -> Result<u16, Reason>
    ensures { result ≡ rows.one_number u16.MAX (shown words.now) }
{
    Ok(only_number(words, u16::MAX as u64)? as u16)
}

/// The same of 32 bits: a thread, a transaction, or how many messages are taken in.
fn only_u32(words: &[&str]) -> Result<u32, Reason>
    ensures { result ≡ rows.one_number u32.MAX (shown words.now) }
{
    Ok(only_number(words, u32::MAX as u64)? as u32)
}

/// A mask that is all that stands behind a line's first word.
fn only_mask(words: &[&str]) -> Result<u128, Reason>
    ensures { result ≡ rows.one_number u128.MAX (shown words.now) }
{
    let [word] = words else {
        return Err(Reason::BadCount);
    };
    mask_number(word)
}

fn read_class(word: &str) -> Result<Class, Reason>
    ensures { result ≡ rows.class_in word.now }
{
    match number(word, 0, 1)? {
        0 => Ok(Class::Zero),
        _ => Ok(Class::One),
    }
}

/// Whether a word says that a thread is runnable.
fn is_runnable(word: &str) -> Result<bool, Reason>
    ensures { result ≡ rows.runnable_in word.now }
{
    match word {
        "r" => Ok(true),
        "b" => Ok(false),
        _ => Err(Reason::BadWord),
    }
}

/// The flags that a word behind a stamp names.
fn stamp_flags(word: &str) -> Result<Flags, Reason>
    ensures { result ≡ rows.flags_in word.now }
{
    let (preempt, group) = match word {
        "p" => (true, false),
        "g" => (false, true),
        "pg" => (true, true),
        _ => return Err(Reason::BadWord),
    };
    Ok(Flags { preempt, group })
}

/// A line whose first word says all.
fn alone<P: Copy>(words: &[&str], event: Event<P>) -> Result<Event<P>, Reason>
    ensures { result ≡ reads (rows.alone [] event) (shown words.now) }
{
    match words {
        [] => Ok(event),
        _ => Err(Reason::BadCount),
    }
}

/// A creation of a thread with these facts.
fn create_of<P>(mask: &str, class: &str, state: &str, text: &str) -> Result<Event<P>, Reason>
    ensures { result ≡ reads rows.create (mask.now ∷ class.now ∷ state.now ∷ text.now ∷ []) }
{
    let mask = Mask::new(mask_number(mask)?);
    let class = read_class(class)?;
    let runnable = is_runnable(state)?;
    let name = name(text.as_bytes())?;
    let facts = Facts {
        runnable,
        mask,
        class,
        name,
    };
    Ok(Event::Kernel {
        command: Command::Create { facts },
    })
}

#[tactic(auto, using(crate::proofs::Places::four_places))]
fn create<P>(words: &[&str]) -> Result<Event<P>, Reason>
    ensures { result ≡ reads rows.create (shown words.now) }
{
    match words {
        [mask, class, state, text] => create_of(mask, class, state, text),
        _ => Err(Reason::BadCount),
    }
}

/// What happens to the thread of a number.
fn to_thread<P>(words: &[&str], event: ThreadEvent) -> Result<Event<P>, Reason>
    ensures { result ≡ reads (rows.to_thread [] event) (shown words.now) }
{
    let tid = only_u32(words)?;
    Ok(Event::Kernel {
        command: Command::Thread { tid, event },
    })
}

#[tactic(auto, using(crate::proofs::Places::two_places))]
fn affinity<P>(words: &[&str]) -> Result<Event<P>, Reason>
    ensures { result ≡ reads rows.affinity (shown words.now) }
{
    let [tid, mask] = words else {
        return Err(Reason::BadCount);
    };
    let tid = u32_number(tid)?;
    let mask = Mask::new(mask_number(mask)?);
    Ok(Event::Kernel {
        command: Command::Thread {
            tid,
            event: ThreadEvent::Affinity { mask },
        },
    })
}

fn take<P>(words: &[&str]) -> Result<Event<P>, Reason>
    ensures { result ≡ reads rows.take (shown words.now) }
{
    let cpu = only_u16(words)?;
    Ok(Event::Kernel {
        command: Command::Take { cpu },
    })
}

fn give<P>(words: &[&str]) -> Result<Event<P>, Reason>
    ensures { result ≡ reads rows.give (shown words.now) }
{
    let cpu = only_u16(words)?;
    Ok(Event::Kernel {
        command: Command::Give { cpu },
    })
}

fn tick<P>(words: &[&str]) -> Result<Event<P>, Reason>
    ensures { result ≡ reads rows.tick (shown words.now) }
{
    let cpu = only_u16(words)?;
    Ok(Event::Kernel {
        command: Command::Tick { cpu },
    })
}

fn handoff<P>(words: &[&str]) -> Result<Event<P>, Reason>
    ensures { result ≡ reads rows.handoff (shown words.now) }
{
    let cpu = only_u16(words)?;
    Ok(Event::Kernel {
        command: Command::HandOff { cpu },
    })
}

fn activate<P>(words: &[&str]) -> Result<Event<P>, Reason>
    ensures { result ≡ reads rows.activate (shown words.now) }
{
    let cpu = only_u16(words)?;
    Ok(Event::Kernel {
        command: Command::Activate { cpu },
    })
}

/// The beginning of a new agent: by the policy that the words name, or by that of the one before.
#[tactic(auto, using(crate::proofs::Policies::begins_again, crate::proofs::Policies::begins_named, crate::proofs::Policies::begins_unnamed, crate::proofs::Policies::begins_long))]
fn begin<P: NamedPolicy>(words: &[&str]) -> Result<Event<P>, Reason>
    ensures { result ≡ reads (rows.begin P.naming) (shown words.now) }
{
    if words.is_empty() {
        return Ok(Event::Kernel {
            command: Command::Begin,
        });
    }
    if !has_name_of(P::forms(), words.len()) {
        return Err(Reason::BadCount);
    }
    let policy = P::from_words(words)?;
    Ok(Event::Begin { policy })
}

fn page<P>(words: &[&str]) -> Result<Event<P>, Reason>
    ensures { result ≡ reads rows.page (shown words.now) }
{
    let max = only_u16(words)?;
    Ok(Event::Page { max })
}

fn drain<P>(words: &[&str]) -> Result<Event<P>, Reason>
    ensures { result ≡ reads rows.drain (shown words.now) }
{
    let max = only_u32(words)?;
    Ok(Event::Drain { max })
}

/// A stamp by itself, for a CPU that has to be free.
fn stamp_plain<P>(cpu: &str, tid: &str) -> Result<Event<P>, Reason>
    ensures { result ≡ reads rows.stamp (cpu.now ∷ tid.now ∷ []) }
{
    let cpu = u16_number(cpu)?;
    let tid = u32_number(tid)?;
    Ok(Event::Stamp {
        cpu,
        tid,
        flags: Flags::NONE,
    })
}

/// A stamp with a flag behind it.
fn stamp_flagged<P>(cpu: &str, tid: &str, flag: &str) -> Result<Event<P>, Reason>
    ensures { result ≡ reads rows.stamp (cpu.now ∷ tid.now ∷ flag.now ∷ []) }
{
    let cpu = u16_number(cpu)?;
    let tid = u32_number(tid)?;
    let flags = stamp_flags(flag)?;
    Ok(Event::Stamp { cpu, tid, flags })
}

#[tactic(auto, using(crate::proofs::Places::two_places, crate::proofs::Places::three_places))]
fn stamp<P>(words: &[&str]) -> Result<Event<P>, Reason>
    ensures { result ≡ reads rows.stamp (shown words.now) }
{
    match words {
        [cpu, tid] => stamp_plain(cpu, tid),
        [cpu, tid, flag] => stamp_flagged(cpu, tid, flag),
        _ => Err(Reason::BadCount),
    }
}

fn commit<P>(words: &[&str]) -> Result<Event<P>, Reason>
    ensures { result ≡ reads rows.commit (shown words.now) }
{
    let mask = Mask::new(only_mask(words)?);
    Ok(Event::Commit { mask })
}

fn late<P>(words: &[&str]) -> Result<Event<P>, Reason>
    ensures { result ≡ reads rows.late (shown words.now) }
{
    let number = only_u32(words)?;
    Ok(Event::Late { number })
}

/// What an event line of these words says.
pub(crate) fn event<P: NamedPolicy>(words: &[&str]) -> Result<Event<P>, Reason>
    ensures { result ≡ event_of P.naming (shown words.now) }
{
    let Some((first, words)) = words.split_first() else {
        return Err(Reason::BadWord);
    };
    match *first {
        "create" => create(words),
        "block" => to_thread(words, ThreadEvent::Block),
        "wake" => to_thread(words, ThreadEvent::Wake),
        "yield" => to_thread(words, ThreadEvent::Yield),
        "die" => to_thread(words, ThreadEvent::Die),
        "affinity" => affinity(words),
        "take" => take(words),
        "give" => give(words),
        "tick" => tick(words),
        "handoff" => handoff(words),
        "crash" => alone(words, Event::Crash),
        "leave" => alone(
            words,
            Event::Kernel {
                command: Command::Leave,
            },
        ),
        "begin" => begin(words),
        "page" => page(words),
        "activate" => activate(words),
        "drain" => drain(words),
        "stamp" => stamp(words),
        "decide" => alone(words, Event::Decide),
        "commit" => commit(words),
        "late" => late(words),
        "view" => alone(words, Event::View),
        "state" => alone(words, Event::State),
        "unread" => alone(words, Event::Unread),
        _ => Err(Reason::BadWord),
    }
}
