//! How what is told of a refusal in few bytes is put into words.

ghost use Rattle.std.specs.Prelude.{◌≡◌, ◌≤◌, ◌+◌, ◌++◌, ◌∷◌, [], List, ℕ, Some, codes, false, length};
ghost use Rattle.gs_replies.specs.declared.reply.Reply.TheVariants as replies;
ghost use Rattle.gs_lines.specs.Lines.{reply_lines};
ghost use Rattle.gs_journal.specs.declared.entry.Entry.TheVariants as entries;
ghost use Rattle.gs_sentences.specs.Shared.{agent_text};
ghost use Rattle.gs_sentences.specs.Tails.{at, is_part, tail_text};

use crate::landed::put_full;
use crate::refused::{
    put_bad_cpu, put_bad_mask, put_given_on, put_last_of, put_never_placed, put_never_taken,
    put_off_since, put_page, put_runs_since, put_spent_since, put_stamped, put_transactions,
    put_unknown, put_waits,
};
use crate::sentence::{SENTENCE_LEN, Sentence};
use crate::shared::{put_agent_since, put_died, put_held_since, put_never, put_torn_on};
use crate::tail::Tail;
use crate::words::Words;
use gs_journal::Entry;
use gs_layout::Refusal;
use gs_status::Mask;

/// The most bytes that are told of a refusal behind a script's line.
pub const TAIL_LEN: usize = 440;

/// Returns the line of a refusal.
#[inline(always)]
fn refused_line(refusal: Refusal) -> &'static str
    ensures value { result.now ≡ reply_lines (replies.Refused refusal) }
    ensures short { length result.now ≤ 32 }
{
    match refusal {
        Refusal::NoThread => "refused 1 NoThread\n",
        Refusal::NotRunning => "refused 2 NotRunning\n",
        Refusal::NotBlocked => "refused 3 NotBlocked\n",
        Refusal::EmptyMask => "refused 4 EmptyMask\n",
        Refusal::BadCpu => "refused 5 BadCpu\n",
        Refusal::AgentThere => "refused 6 AgentThere\n",
        Refusal::CpuTaken => "refused 7 CpuTaken\n",
        Refusal::NotTaken => "refused 8 NotTaken\n",
        Refusal::NotActive => "refused 9 NotActive\n",
        Refusal::StillAttached => "refused 10 StillAttached\n",
        Refusal::NotAttaching => "refused 11 NotAttaching\n",
        Refusal::SeqSpent => "refused 12 SeqSpent\n",
        Refusal::GenSpent => "refused 13 GenSpent\n",
        Refusal::TidsSpent => "refused 14 TidsSpent\n",
        Refusal::HistoryFull => "refused 15 HistoryFull\n",
        Refusal::SlotOpen => "refused 16 SlotOpen\n",
        Refusal::NoSuchTransaction => "refused 17 NoSuchTransaction\n",
        Refusal::Gone => "refused 18 Gone\n",
        Refusal::OutOfMemory => "refused 19 OutOfMemory\n",
    }
}

/// Puts the line of a refusal in front of the line of its reason.
#[inline(always)]
fn put_refusal(to: &mut Sentence, refusal: Refusal)
    requires { length to.old + 34 ≤ SENTENCE_LEN }
    ensures value { to.new ≡ reply_lines (replies.Refused refusal) ++ codes "  " ++ to.old }
    ensures short { length to.new ≤ length to.old + 34 }
{
    to.put("  ");
    to.put(refused_line(refusal));
}

/// Puts which agent there is, by the entry that says so, if that refuses an event.
fn put_agent(to: &mut Sentence, refusal: Refusal, entry: &Entry, line: u32, place: u32)
    requires { length to.old + 434 ≤ SENTENCE_LEN }
    ensures value { to.new ≡ reply_lines (replies.Refused refusal) ++ codes "  " ++ agent_text (at line place entry.now) ++ to.old }
    ensures short { length to.new ≤ length to.old + 434 }
{
    put_agent_since(to, entry, line as usize, place as usize);
    put_refusal(to, refusal);
}

/// Puts that an agent is active, if that refuses an event.
#[inline(never)]
fn put_active(to: &mut Sentence, refusal: Refusal, cpu: u16, generation: u32, line: u32, place: u32)
    requires { length to.old + 434 ≤ SENTENCE_LEN }
    ensures value { to.new ≡ reply_lines (replies.Refused refusal) ++ codes "  " ++ agent_text (at line place (entries.Role generation cpu)) ++ to.old }
    ensures short { length to.new ≤ length to.old + 434 }
{
    put_agent(to, refusal, &Entry::Role { generation, cpu }, line, place);
}

/// Puts that an agent attaches, if that refuses an event.
#[inline(never)]
fn put_attaches(to: &mut Sentence, refusal: Refusal, generation: u32, line: u32, place: u32)
    requires { length to.old + 434 ≤ SENTENCE_LEN }
    ensures value { to.new ≡ reply_lines (replies.Refused refusal) ++ codes "  " ++ agent_text (at line place (entries.Begin generation)) ++ to.old }
    ensures short { length to.new ≤ length to.old + 434 }
{
    put_agent(to, refusal, &Entry::Begin { generation }, line, place);
}

/// Puts that there is no agent, if that refuses an event.
#[inline(never)]
fn put_left(to: &mut Sentence, refusal: Refusal, line: u32, place: u32)
    requires { length to.old + 434 ≤ SENTENCE_LEN }
    ensures value { to.new ≡ reply_lines (replies.Refused refusal) ++ codes "  " ++ agent_text (at line place entries.Left) ++ to.old }
    ensures short { length to.new ≤ length to.old + 434 }
{
    put_agent(to, refusal, &Entry::Left, line, place);
}

/// Puts what is told behind the line of an event that was refused: the reply, and the reason in a line of its own.
pub fn put_tail(to: &mut Sentence, tail: &Tail)
    requires room { length to.old + TAIL_LEN ≤ SENTENCE_LEN }
    requires told { is_part tail.now ≡ false }
    ensures value { (text : List ℕ) → to.new ≡ tail_text text tail.now ++ to.old }
    ensures short { length to.new ≤ length to.old + TAIL_LEN }
{
    to.put("\n");
    match tail {
        Tail::Part { .. } => {}
        Tail::NoThread { tid } => {
            put_never(to, *tid);
            put_refusal(to, Refusal::NoThread);
        }
        Tail::Dead { tid, line, place } => {
            put_died(to, *tid, *line as usize, *place as usize);
            put_refusal(to, Refusal::NoThread);
        }
        Tail::Unknown { tid } => {
            put_unknown(to, *tid);
            put_refusal(to, Refusal::NoThread);
        }
        Tail::NeverPlaced { tid } => {
            put_never_placed(to, *tid);
            put_refusal(to, Refusal::NotRunning);
        }
        Tail::Off { tid, line, place } => {
            put_off_since(to, *tid, *line as usize, *place as usize);
            put_refusal(to, Refusal::NotRunning);
        }
        Tail::Runs { tid, line, place } => {
            put_runs_since(to, *tid, *line as usize, *place as usize);
            put_refusal(to, Refusal::NotBlocked);
        }
        Tail::BadMask { cpus, mask } => {
            put_bad_mask(to, Mask::new(*mask as u128), *cpus);
            put_refusal(to, Refusal::EmptyMask);
        }
        Tail::BadCpu { cpu, cpus } => {
            put_bad_cpu(to, *cpu, *cpus);
            put_refusal(to, Refusal::BadCpu);
        }
        Tail::Active {
            refusal,
            cpu,
            generation,
            line,
            place,
        } => put_active(to, *refusal, *cpu, *generation, *line, *place),
        Tail::Attaches {
            refusal,
            generation,
            line,
            place,
        } => put_attaches(to, *refusal, *generation, *line, *place),
        Tail::Left {
            refusal,
            line,
            place,
        } => put_left(to, *refusal, *line, *place),
        Tail::NoPage { generation } => {
            put_page(to, *generation, None);
            put_refusal(to, Refusal::NotAttaching);
        }
        Tail::Page { generation, line } => {
            put_page(to, *generation, Some(*line as usize));
            put_refusal(to, Refusal::NotAttaching);
        }
        Tail::Held { cpu, line, place } => {
            put_held_since(to, *cpu, *line as usize, *place as usize);
            put_refusal(to, Refusal::CpuTaken);
        }
        Tail::NeverTaken { cpu } => {
            put_never_taken(to, *cpu);
            put_refusal(to, Refusal::NotTaken);
        }
        Tail::Given { cpu, line, place } => {
            put_given_on(to, *cpu, *line as usize, *place as usize);
            put_refusal(to, Refusal::NotTaken);
        }
        Tail::Spent { tid, line, place } => {
            put_spent_since(to, *tid, *line as usize, *place as usize);
            put_refusal(to, Refusal::SeqSpent);
        }
        Tail::Generations { line, place } => {
            put_last_of(
                to,
                Words::NoGenerationFollowsThat,
                *line as usize,
                *place as usize,
            );
            put_refusal(to, Refusal::GenSpent);
        }
        Tail::Tids { line, place } => {
            put_last_of(to, Words::NoTidFollowsThat, *line as usize, *place as usize);
            put_refusal(to, Refusal::TidsSpent);
        }
        Tail::Entries { count, limit } => {
            put_full(to, *count as usize, *limit);
            put_refusal(to, Refusal::HistoryFull);
        }
        Tail::Transactions { count, limit } => {
            put_stamped(to, *count as usize, *limit);
            put_refusal(to, Refusal::HistoryFull);
        }
        Tail::Waits { cpu, number, line } => {
            put_waits(to, *cpu, *number as usize, *line as usize);
            put_refusal(to, Refusal::SlotOpen);
        }
        Tail::Numbered { count } => {
            put_transactions(to, *count as usize);
            put_refusal(to, Refusal::NoSuchTransaction);
        }
        Tail::Gone { line, place } => {
            put_torn_on(to, *line as usize, *place as usize);
            put_refusal(to, Refusal::Gone);
        }
    }
}
