//! The tracks of a trace, and what they are called.

ghost use Rattle.std.specs.Prelude.{◌≡◌};
ghost use Rattle.gs_perfetto.specs.Events.{cpu_track};

use gs_timeline::Text;
use std::alloc::AllocError;

/// The processes that the tracks are of. The number of a track has to follow.
const CPUS: &str = ",\"pid\":1,\"tid\":";

const AGENTS: &str = ",\"pid\":2,\"tid\":";

const SLOTS: &str = ",\"pid\":3,\"tid\":";

const QUEUES: &str = ",\"pid\":4,\"tid\":";

/// How the events of these begin, up to the number of a track. They are a slice with its length, its beginning, its end, and what happens
/// at once, on its track or everywhere.
pub(crate) const CPU_SLICE: &str = ",\n{\"ph\":\"X\",\"pid\":1,\"tid\":";

pub(crate) const CPU_BEGIN: &str = ",\n{\"ph\":\"B\",\"pid\":1,\"tid\":";

pub(crate) const CPU_END: &str = ",\n{\"ph\":\"E\",\"pid\":1,\"tid\":";

pub(crate) const EVERYWHERE: &str = ",\n{\"ph\":\"i\",\"s\":\"g\",\"pid\":1,\"tid\":";

pub(crate) const AGENT_BEGIN: &str = ",\n{\"ph\":\"B\",\"pid\":2,\"tid\":";

pub(crate) const AGENT_END: &str = ",\n{\"ph\":\"E\",\"pid\":2,\"tid\":";

pub(crate) const AGENT_INSTANT: &str = ",\n{\"ph\":\"i\",\"pid\":2,\"tid\":";

pub(crate) const SLOT_SLICE: &str = ",\n{\"ph\":\"X\",\"pid\":3,\"tid\":";

pub(crate) const SLOT_BEGIN: &str = ",\n{\"ph\":\"B\",\"pid\":3,\"tid\":";

pub(crate) const SLOT_END: &str = ",\n{\"ph\":\"E\",\"pid\":3,\"tid\":";

pub(crate) const SLOT_INSTANT: &str = ",\n{\"ph\":\"i\",\"pid\":3,\"tid\":";

/// The beginning of the way of a transaction, on the track of the agent that is active, up to the time.
pub(crate) const WAY_BEGIN: &str =
    ",\n{\"ph\":\"s\",\"cat\":\"way\",\"name\":\"way\",\"pid\":2,\"tid\":401,\"ts\":";

/// Its end, up to the track of a slot.
pub(crate) const WAY_END: &str =
    ",\n{\"ph\":\"f\",\"bp\":\"e\",\"cat\":\"way\",\"name\":\"way\",\"pid\":3,\"tid\":";

/// What is counted, up to the time.
pub(crate) const RING: &str = ",\n{\"ph\":\"C\",\"pid\":4,\"name\":\"ring\",\"ts\":";

pub(crate) const WAITING: &str = ",\n{\"ph\":\"C\",\"pid\":4,\"name\":\"run queue\",\"ts\":";

/// The tracks of the first CPU and of the first slot. Those of the others follow.
const FIRST_CPU: u64 = 1;

const FIRST_SLOT: u64 = 201;

/// The track of the agent that is active, and of the one that attaches.
pub(crate) const ACTIVE: u64 = 401;

pub(crate) const ATTACHING: u64 = 402;

/// The track that names the process of what is counted.
const COUNTED: u64 = 501;

/// Returns the track of a CPU.
pub(crate) fn cpu_track(cpu: u16) -> u64
    ensures { result ≡ cpu_track cpu }
{
    FIRST_CPU + u64::from(cpu)
}

/// Returns the track of the slot of a CPU.
pub(crate) fn slot_track(cpu: u16) -> u64 {
    FIRST_SLOT + u64::from(cpu)
}

/// Tells a fact about a process or a track, up to its value: which fact, and of which process and track.
fn begin_fact(out: &mut Text, fact: &str, process: &str, track: u64) -> Result<(), AllocError>
    ensures { out.new.settled ≡ out.old.settled }
{
    out.push_str(",\n{\"ph\":\"M\",\"name\":\"")?;
    out.push_str(fact)?;
    out.push_str("\"")?;
    out.push_number(process, track)
}

/// Tells what a process is called.
fn name_process(out: &mut Text, process: &str, track: u64, name: &str) -> Result<(), AllocError>
    ensures { out.new.settled ≡ out.old.settled }
{
    begin_fact(out, "process_name", process, track)?;
    out.push_str(",\"args\":{\"name\":\"")?;
    out.push_str(name)?;
    out.push_str("\"}}")
}

/// Tells where a track stands among those of its process.
fn sort_track(out: &mut Text, process: &str, track: u64) -> Result<(), AllocError>
    ensures { out.new.settled ≡ out.old.settled }
{
    begin_fact(out, "thread_sort_index", process, track)?;
    out.push_number(",\"args\":{\"sort_index\":", track)?;
    out.push_str("}}")
}

/// Tells what a track is called, and where it stands.
fn name_track(out: &mut Text, process: &str, track: u64, name: &str) -> Result<(), AllocError>
    ensures { out.new.settled ≡ out.old.settled }
{
    begin_fact(out, "thread_name", process, track)?;
    out.push_str(",\"args\":{\"name\":\"")?;
    out.push_str(name)?;
    out.push_str("\"}}")?;
    sort_track(out, process, track)
}

/// Tells what the track of a CPU is called, and where it stands: words, and the CPU.
fn name_track_of(
    out: &mut Text,
    process: &str,
    track: u64,
    words: &str,
    cpu: u16,
) -> Result<(), AllocError>
    ensures { out.new.settled ≡ out.old.settled }
{
    begin_fact(out, "thread_name", process, track)?;
    out.push_str(",\"args\":{\"name\":\"")?;
    out.push_number(words, u64::from(cpu))?;
    out.push_str("\"}}")?;
    sort_track(out, process, track)
}

/// Tells what all processes and tracks are called. Nothing stands before it but what begins the list.
pub(crate) fn write_tracks(out: &mut Text, cpus: u16) -> Result<(), AllocError>
    ensures { out.new.settled ≡ out.old.settled }
{
    out.push_str(
        "{\"ph\":\"M\",\"name\":\"process_name\",\"pid\":1,\"args\":{\"name\":\"CPUs\"}}",
    )?;
    name_process(out, AGENTS, ACTIVE, "agents")?;
    name_process(out, SLOTS, FIRST_SLOT, "slots")?;
    name_process(out, QUEUES, COUNTED, "queues")?;
    name_track(out, AGENTS, ACTIVE, "active")?;
    name_track(out, AGENTS, ATTACHING, "attaching")?;
    for cpu in 0..cpus {
        name_track_of(out, CPUS, cpu_track(cpu), "CPU ", cpu)?;
        name_track_of(out, SLOTS, slot_track(cpu), "slot of CPU ", cpu)?;
    }
    Ok(())
}
