ghost use Rattle.std.specs.Prelude.{◌≡◌, ◌≤◌, ◌++◌, OnOk, codes, length};
ghost use Rattle.gs_lines.specs.Lines.{class_text, facts_text, known_text, line, live_lines, live_text, name_text, runnable_text, view_lines, view_text};

use crate::message_line::end_with_cpu;
use gs_dump::DumpRecord;
use gs_layout::{Class, Facts, Known, Name};
use gs_text::Sheet as Text;
use std::alloc::AllocError;

/// Whether a thread may run, and the word before its mask.
fn runnable_word(runnable: bool) -> &'static str
    ensures word { result.now ≡ runnable_text runnable ++ codes " mask " }
    ensures short { length result.now ≤ 7 }
{
    if runnable { "r mask " } else { "b mask " }
}

/// A class, between the words before it and behind it.
fn class_words(class: Class) -> &'static str
    ensures words { result.now ≡ codes " class " ++ class_text class ++ codes " name " }
    ensures short { length result.now ≤ 14 }
{
    match class {
        Class::Zero => " class 0 name ",
        Class::One => " class 1 name ",
    }
}

/// Returns a name as text: its bytes are ASCII.
#[tactic(auto, using(crate::proofs::Names::name_is_utf8))]
pub fn name_str(name: &Name) -> &str
    ensures { result.now ≡ name.now }
{
    str::from_utf8(name.as_bytes()).unwrap()
}

/// Adds a name, or `-` for the empty one.
#[tactic(auto, using(crate::proofs::Names::name_text_some, crate::proofs::Names::name_is_utf8, crate::proofs::Names::name_taken))]
#[inline(always)]
fn write_name(out: &mut Text, name: &Name) -> Result<(), AllocError>
    ensures { OnOk result (out.new ≡ out.old ++ name_text name.now) }
{
    let bytes = name.as_bytes();
    if bytes.is_empty() {
        return out.push_str("-");
    }
    out.append_first(name.as_padded(), bytes.len())
}

/// Adds a thread's facts: whether it may run, its mask, its class and its name. It fails only if out of
/// memory.
#[inline(always)]
pub fn write_facts(out: &mut Text, facts: &Facts) -> Result<(), AllocError>
    ensures { OnOk result (out.new ≡ out.old ++ facts_text facts.now) }
{
    out.push_mask(
        runnable_word(facts.runnable),
        facts.mask.bits(),
        class_words(facts.class),
    )?;
    write_name(out, &facts.name)
}

/// Adds a word and what is known of a thread.
#[inline(always)]
fn write_known(out: &mut Text, word: &str, tid: u32, known: &Known) -> Result<(), AllocError>
    ensures { OnOk result (out.new ≡ out.old ++ word.now ++ codes " " ++ known_text tid known.now) }
{
    out.push_word_two(word, " ", tid as u64, " seq ", known.tseq as u64, " ")?;
    write_facts(out, &known.facts)
}

/// Adds the line of what the agent knows of a thread.
fn write_known_line(out: &mut Text, known: &(u32, Known)) -> Result<(), AllocError>
    ensures { OnOk result (out.new ≡ out.old ++ line (view_text known.now)) }
{
    let (tid, known) = known;
    write_known(out, "view", *tid, known)?;
    out.end_line()
}

/// Adds the lines of what the agent knows, in increasing order of tid.
pub(crate) fn write_view(out: &mut Text, view: &[(u32, Known)]) -> Result<(), AllocError>
    ensures { OnOk result (out.new ≡ out.old ++ view_lines view.now) }
{
    for known in view {
        write_known_line(out, known)?;
    }
    Ok(())
}

/// Adds the line of a thread that lives.
fn write_live(out: &mut Text, thread: &DumpRecord) -> Result<(), AllocError>
    ensures { OnOk result (out.new ≡ out.old ++ line (live_text thread.now)) }
{
    write_known(out, "state", thread.tid, &thread.known)?;
    end_with_cpu(out, thread.cpu)
}

/// Adds the lines of threads that live, in increasing order of tid.
pub(crate) fn write_threads(out: &mut Text, threads: &[DumpRecord]) -> Result<(), AllocError>
    ensures { OnOk result (out.new ≡ out.old ++ live_lines threads.now) }
{
    for thread in threads {
        write_live(out, thread)?;
    }
    Ok(())
}
