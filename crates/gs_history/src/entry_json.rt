ghost use Rattle.std.specs.Prelude.{◌≡◌, ◌++◌, IfOk, OnOk, Some, codes, decimal};
ghost use Rattle.std.specs.Str.{IsUtf8};
ghost use Rattle.json.specs.Print.{quoted};
ghost use Rattle.serde_json.specs.Data.{boolean};
ghost use Rattle.serde_json.specs.Written.{compact_text};
ghost use Rattle.gs_lines.specs.Lines.{line};
ghost use Rattle.gs_history.specs.Json.{json_lines};
ghost use Rattle.gs_history.specs.Pieces.{changed_pieces, cpu_piece, created_pieces, entry_pieces, held_pieces, left_pieces, affinity_pieces, place_piece, placed_pieces, posted_pieces, thread_piece, woken_pieces};

use gs_journal::{Entry, Journal};
use gs_layout::{Change, Facts, Message, Name};
use gs_lines::{Text, name_str};
use gs_status::Mask;
use itoa::Buffer;
use json::Writer;
use std::alloc::{AllocError, Global};

/// What stands in the object of a message behind the place.
const BLOCKED: &str = ",\"kind\":\"posted\",\"message\":\"blocked\"";

const PREEMPTED: &str = ",\"kind\":\"posted\",\"message\":\"preempted\"";

const YIELDED: &str = ",\"kind\":\"posted\",\"message\":\"yielded\"";

const DEAD: &str = ",\"kind\":\"posted\",\"message\":\"dead\"";

/// Room for a name or a mask in quotation marks.
const QUOTED_LEN: usize = 42;

/// Returns a text in quotation marks, as JSON has it.
fn quoted_text(alloc: Global, text: &str) -> Result<Vec<u8>, AllocError>
    ensures is { IfOk result (λ bytes. bytes.items ≡ quoted text.now) }
    ensures utf8 { IfOk result (λ bytes. IsUtf8 bytes.items) }
{
    let mut writer = Writer::new(Vec::with_capacity(alloc, QUOTED_LEN)?);
    writer.string(text)?;
    Ok(writer.into_inner())
}

/// Lends bytes that are text, as text.
fn as_text(bytes: &[u8]) -> &str
    requires { IsUtf8 bytes.now }
    ensures { result.now ≡ bytes.now }
{
    str::from_utf8(bytes).unwrap()
}

/// Adds a text in quotation marks.
fn write_quoted(alloc: Global, out: &mut Text, text: &str) -> Result<(), AllocError>
    ensures { OnOk result (out.new ≡ out.old ++ quoted text.now) }
{
    let bytes = quoted_text(alloc, text)?;
    out.push_str(as_text(&bytes))
}

/// Adds a name in quotation marks.
fn write_name(alloc: Global, out: &mut Text, name: &Name) -> Result<(), AllocError>
    ensures { OnOk result (out.new ≡ out.old ++ quoted name.now) }
{
    write_quoted(alloc, out, name_str(name))
}

/// Adds a mask in quotation marks, since many readers of JSON round a number above 2^53.
fn write_mask(alloc: Global, out: &mut Text, mask: Mask) -> Result<(), AllocError>
    ensures { OnOk result (out.new ≡ out.old ++ quoted (decimal mask)) }
{
    let mut buffer = Buffer::new();
    write_quoted(alloc, out, buffer.format(mask.bits()))
}

/// Adds a flag.
fn write_flag(out: &mut Text, flag: bool) -> Result<(), AllocError>
    ensures { OnOk result (out.new ≡ out.old ++ compact_text (boolean flag)) }
{
    out.push_str(if flag { "true" } else { "false" })
}

/// Begins an object with a CPU, or null for none.
fn write_cpu(out: &mut Text, cpu: Option<u16>) -> Result<(), AllocError>
    ensures { OnOk result (out.new ≡ out.old ++ cpu_piece cpu) }
{
    match cpu {
        Some(cpu) => out.push_number("{\"cpu\":", cpu as u64),
        None => out.push_str("{\"cpu\":null"),
    }
}

/// Adds the place of an entry.
fn write_place(out: &mut Text, place: usize) -> Result<(), AllocError>
    ensures { OnOk result (out.new ≡ out.old ++ place_piece place) }
{
    out.push_number(",\"entry\":", place as u64)
}

/// Begins an object with the place of an entry.
fn write_first_place(out: &mut Text, place: usize) -> Result<(), AllocError>
    ensures { OnOk result (out.new ≡ out.old ++ codes "{\"entry\":" ++ decimal place) }
{
    out.push_number("{\"entry\":", place as u64)
}

/// Ends an object with the number and the tid of a thread.
fn write_thread(out: &mut Text, tid: u32, tseq: u32) -> Result<(), AllocError>
    ensures { OnOk result (out.new ≡ out.old ++ thread_piece tid tseq) }
{
    out.push_number(",\"seq\":", tseq as u64)?;
    out.push_number(",\"tid\":", tid as u64)?;
    out.push_str("}")
}

/// Adds a creation.
fn write_created(
    alloc: Global,
    out: &mut Text,
    place: usize,
    tid: u32,
    tseq: u32,
    facts: &Facts,
) -> Result<(), AllocError>
    ensures { OnOk result (out.new ≡ out.old ++ created_pieces place tid tseq facts.now) }
{
    out.push_number("{\"class\":", facts.class.number() as u64)?;
    write_place(out, place)?;
    out.push_str(",\"kind\":\"posted\",\"mask\":")?;
    write_mask(alloc, out, facts.mask)?;
    out.push_str(",\"message\":\"created\",\"name\":")?;
    write_name(alloc, out, &facts.name)?;
    out.push_str(",\"runnable\":")?;
    write_flag(out, facts.runnable)?;
    write_thread(out, tid, tseq)
}

/// Adds a message about a thread, with the CPU that it was on, and words behind the place.
fn write_left(
    out: &mut Text,
    place: usize,
    tid: u32,
    tseq: u32,
    cpu: Option<u16>,
    words: &str,
) -> Result<(), AllocError>
    ensures { OnOk result (out.new ≡ out.old ++ left_pieces place tid tseq cpu words.now) }
{
    write_cpu(out, cpu)?;
    write_place(out, place)?;
    out.push_str(words)?;
    write_thread(out, tid, tseq)
}

/// Adds a change of a thread's mask.
fn write_affinity(
    alloc: Global,
    out: &mut Text,
    place: usize,
    tid: u32,
    tseq: u32,
    cpu: Option<u16>,
    off: bool,
    mask: Mask,
) -> Result<(), AllocError>
    ensures { OnOk result (out.new ≡ out.old ++ affinity_pieces place tid tseq cpu off mask) }
{
    write_cpu(out, cpu)?;
    write_place(out, place)?;
    out.push_str(",\"kind\":\"posted\",\"mask\":")?;
    write_mask(alloc, out, mask)?;
    out.push_str(",\"message\":\"affinity\",\"off\":")?;
    write_flag(out, off)?;
    write_thread(out, tid, tseq)
}

/// Adds a wake-up.
fn write_woken(out: &mut Text, place: usize, tid: u32, tseq: u32) -> Result<(), AllocError>
    ensures { OnOk result (out.new ≡ out.old ++ woken_pieces place tid tseq) }
{
    write_first_place(out, place)?;
    out.push_str(",\"kind\":\"posted\",\"message\":\"woken\"")?;
    write_thread(out, tid, tseq)
}

/// Adds a message about a thread.
fn write_changed(
    alloc: Global,
    out: &mut Text,
    place: usize,
    tid: u32,
    tseq: u32,
    change: &Change,
) -> Result<(), AllocError>
    ensures { OnOk result (out.new ≡ out.old ++ changed_pieces place tid tseq change.now) }
{
    match change {
        Change::Created { facts } => write_created(alloc, out, place, tid, tseq, facts),
        Change::Wakeup => write_woken(out, place, tid, tseq),
        Change::Blocked { cpu } => write_left(out, place, tid, tseq, Some(*cpu), BLOCKED),
        Change::Preempted { cpu } => write_left(out, place, tid, tseq, Some(*cpu), PREEMPTED),
        Change::Yield { cpu } => write_left(out, place, tid, tseq, Some(*cpu), YIELDED),
        Change::Dead { cpu } => write_left(out, place, tid, tseq, *cpu, DEAD),
        Change::Affinity { cpu, off, mask } => {
            write_affinity(alloc, out, place, tid, tseq, *cpu, *off, *mask)
        }
    }
}

/// Adds an entry that has a CPU and its place, and then words.
fn write_held(out: &mut Text, place: usize, cpu: u16, words: &str) -> Result<(), AllocError>
    ensures { OnOk result (out.new ≡ out.old ++ held_pieces place cpu words.now) }
{
    write_cpu(out, Some(cpu))?;
    write_place(out, place)?;
    out.push_str(words)
}

/// Adds a message.
fn write_posted(
    alloc: Global,
    out: &mut Text,
    place: usize,
    message: &Message,
) -> Result<(), AllocError>
    ensures { OnOk result (out.new ≡ out.old ++ posted_pieces place message.now) }
{
    match message {
        Message::Thread { tid, tseq, change } => {
            write_changed(alloc, out, place, *tid, *tseq, change)
        }
        Message::TimerTick { cpu } => write_held(
            out,
            place,
            *cpu,
            ",\"kind\":\"posted\",\"message\":\"tick\"}",
        ),
    }
}

/// Adds a placing.
fn write_placed(
    out: &mut Text,
    place: usize,
    tid: u32,
    tseq: u32,
    cpu: u16,
    generation: u32,
) -> Result<(), AllocError>
    ensures { OnOk result (out.new ≡ out.old ++ placed_pieces place tid tseq cpu generation) }
{
    write_cpu(out, Some(cpu))?;
    write_place(out, place)?;
    out.push_number(",\"generation\":", generation as u64)?;
    out.push_str(",\"kind\":\"placed\"")?;
    write_thread(out, tid, tseq)
}

/// Adds an agent that became active.
fn write_role(out: &mut Text, place: usize, generation: u32, cpu: u16) -> Result<(), AllocError>
    ensures { OnOk result (out.new ≡ out.old ++ entry_pieces place (Entry.Role generation cpu)) }
{
    write_cpu(out, Some(cpu))?;
    write_place(out, place)?;
    out.push_number(",\"generation\":", generation as u64)?;
    out.push_str(",\"kind\":\"role\"}")
}

/// Adds an agent that began to attach.
fn write_begin(out: &mut Text, place: usize, generation: u32) -> Result<(), AllocError>
    ensures { OnOk result (out.new ≡ out.old ++ entry_pieces place (Entry.Begin generation)) }
{
    write_first_place(out, place)?;
    out.push_number(",\"generation\":", generation as u64)?;
    out.push_str(",\"kind\":\"begin\"}")
}

/// Adds an agent that is gone.
fn write_gone(out: &mut Text, place: usize) -> Result<(), AllocError>
    ensures { OnOk result (out.new ≡ out.old ++ entry_pieces place Entry.Left) }
{
    write_first_place(out, place)?;
    out.push_str(",\"kind\":\"left\"}")
}

/// Adds a tear-down.
fn write_torn(out: &mut Text, place: usize) -> Result<(), AllocError>
    ensures { OnOk result (out.new ≡ out.old ++ entry_pieces place Entry.Torn) }
{
    write_first_place(out, place)?;
    out.push_str(",\"kind\":\"torn\"}")
}

/// Adds an entry, by its place in the journal.
fn write_entry(alloc: Global, out: &mut Text, place: usize, entry: &Entry) -> Result<(), AllocError>
    ensures { OnOk result (out.new ≡ out.old ++ entry_pieces place entry.now) }
{
    match entry {
        Entry::Posted { message } => write_posted(alloc, out, place, message),
        Entry::Placed {
            tid,
            tseq,
            cpu,
            generation,
        } => write_placed(out, place, *tid, *tseq, *cpu, *generation),
        Entry::Role { generation, cpu } => write_role(out, place, *generation, *cpu),
        Entry::Begin { generation } => write_begin(out, place, *generation),
        Entry::Left => write_gone(out, place),
        Entry::Taken { cpu } => write_held(out, place, *cpu, ",\"kind\":\"taken\"}"),
        Entry::Given { cpu } => write_held(out, place, *cpu, ",\"kind\":\"given\"}"),
        Entry::Torn => write_torn(out, place),
    }
}

/// Adds the line of an entry, by its place in the journal.
fn write_line(alloc: Global, out: &mut Text, place: usize, entry: &Entry) -> Result<(), AllocError>
    ensures { OnOk result (out.new ≡ out.old ++ line (entry_pieces place entry.now)) }
{
    write_entry(alloc, out, place, entry)?;
    out.end_line()
}

/// Returns a journal as JSON Lines: a JSON object for each entry, in order, its keys sorted. `entry` is the entry's
/// place, counted from 0, and `kind` what kind of entry it is. Of a posted message `message` is what happened.
///
/// # Errors
///
/// `AllocError` if out of memory.
pub fn json_text(alloc: Global, journal: &Journal) -> Result<Vec<u8>, AllocError>
    ensures { IfOk result (λ bytes. bytes.items ≡ json_lines journal.now.entries) }
{
    let mut out = Text::new(alloc);
    for place in 0..journal.len() {
        write_line(alloc, &mut out, place, &journal.entry(place))?;
    }
    Ok(out.into_bytes())
}
