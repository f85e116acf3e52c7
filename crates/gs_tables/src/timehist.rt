//! A table with a line for each turn.

ghost use Rattle.std.specs.Prelude.{◌≡◌, ◌++◌, IfOk, OnOk};
ghost use Rattle.gs_tables.specs.Timehist.{class_json, head_pieces, heading, line_of, object_of, place_pieces, rest_pieces, row_of, rows, table_of, times_pieces, turn_pieces};

use crate::column::push_count;
use gs_layout::Class;
use gs_lines::{Text, class_word, push_column};
use gs_trace::Notation;
use gs_turns::Turn;
use std::alloc::{AllocError, Global};

/// The names of the columns.
const HEADING: &str =
    "    entry    line  cpu    tid class   waited  ticks      ran  ticks  ended\n";

/// Adds the names of the columns.
#[tactic(auto, unfolding(crate::specs::Timehist::heading))]
fn push_heading(out: &mut Text) -> Result<(), AllocError>
    ensures { OnOk result (out.new ≡ out.old ++ heading) }
{
    out.push_str(HEADING)
}

/// Returns the line that added an entry, or 0 if none is noted.
fn line_of(lines: &[usize], place: usize) -> usize
    ensures { result ≡ line_of lines.now place }
{
    match lines.get(place) {
        Some(line) => *line,
        None => 0,
    }
}

/// Adds a turn as a line of columns.
fn push_row(out: &mut Text, lines: &[usize], turn: &Turn) -> Result<(), AllocError>
    ensures { OnOk result (out.new ≡ out.old ++ row_of lines.now turn.now) }
{
    let stay = &turn.stay;
    push_count(out, 8, stay.from)?;
    push_count(out, 7, line_of(lines, stay.from))?;
    push_count(out, 4, stay.cpu as usize)?;
    push_count(out, 6, stay.tid as usize)?;
    push_column(out, 5, class_word(turn.class))?;
    push_count(out, 8, turn.waited())?;
    push_count(out, 6, turn.waited_ticks)?;
    push_count(out, 8, turn.ran())?;
    push_count(out, 6, turn.ran_ticks)?;
    out.push_str("  ")?;
    out.push_str(turn.ending.name())?;
    out.end_line()
}

/// Returns a class as JSON: its number, or null for none.
pub(crate) fn class_json(class: Option<Class>) -> &'static str
    ensures { result.now ≡ class_json class }
{
    match class {
        Some(Class::Zero) => "0",
        Some(Class::One) => "1",
        None => "null",
    }
}

/// Adds a time to an object, behind words: how many entries it is, and how many ticks.
pub(crate) fn push_times(
    out: &mut Text,
    words: &str,
    entries: usize,
    ticks: usize,
) -> Result<(), AllocError>
    ensures { OnOk result (out.new ≡ out.old ++ times_pieces words.now entries ticks) }
{
    out.push_number(words, entries as u64)?;
    out.push_number(",\"ticks\":", ticks as u64)?;
    out.push_str("}")
}

/// Begins the object of a turn: with its class, its CPU and why it ended.
fn push_head(out: &mut Text, turn: &Turn) -> Result<(), AllocError>
    ensures { OnOk result (out.new ≡ out.old ++ head_pieces turn.now) }
{
    out.push_str("{\"class\":")?;
    out.push_str(class_json(turn.class))?;
    out.push_number(",\"cpu\":", turn.stay.cpu as u64)?;
    out.push_str(",\"ended\":\"")?;
    out.push_str(turn.ending.name())
}

/// Goes on with the entry that began it, and the line that added that.
fn push_place(out: &mut Text, line: usize, turn: &Turn) -> Result<(), AllocError>
    ensures { OnOk result (out.new ≡ out.old ++ place_pieces line turn.now) }
{
    out.push_number("\",\"entry\":", turn.stay.from as u64)?;
    out.push_number(",\"line\":", line as u64)
}

/// Ends it, with how long the thread ran and waited, and the line.
fn push_rest(out: &mut Text, turn: &Turn) -> Result<(), AllocError>
    ensures { OnOk result (out.new ≡ out.old ++ rest_pieces turn.now) }
{
    push_times(out, ",\"ran\":{\"entries\":", turn.ran(), turn.ran_ticks)?;
    out.push_number(",\"tid\":", turn.stay.tid as u64)?;
    push_times(
        out,
        ",\"waited\":{\"entries\":",
        turn.waited(),
        turn.waited_ticks,
    )?;
    out.push_str("}\n")
}

/// Adds a turn as an object, one a line, piece by piece.
fn push_pieces(out: &mut Text, line: usize, turn: &Turn) -> Result<(), AllocError>
    ensures { OnOk result (out.new ≡ out.old ++ turn_pieces line turn.now) }
{
    push_head(out, turn)?;
    push_place(out, line, turn)?;
    push_rest(out, turn)
}

/// Adds a turn as an object, one a line.
#[tactic(auto, using(crate::proofs::Whole::whole_turn))]
fn push_object(out: &mut Text, lines: &[usize], turn: &Turn) -> Result<(), AllocError>
    ensures { OnOk result (out.new ≡ out.old ++ object_of lines.now turn.now) }
{
    let line = line_of(lines, turn.stay.from);
    push_pieces(out, line, turn)
}

/// Returns the turns as lines of columns, below their names.
fn table_text(alloc: Global, lines: &[usize], turns: &[Turn]) -> Result<Text, AllocError>
    ensures { IfOk result (λ text. text ≡ heading ++ rows (row_of lines.now) turns.now) }
{
    let mut out = Text::new(alloc);
    push_heading(&mut out)?;
    for turn in turns {
        push_row(&mut out, lines, turn)?;
    }
    Ok(out)
}

/// Returns the turns as objects, one a line.
fn objects_text(alloc: Global, lines: &[usize], turns: &[Turn]) -> Result<Text, AllocError>
    ensures { IfOk result (λ text. text ≡ rows (object_of lines.now) turns.now) }
{
    let mut out = Text::new(alloc);
    for turn in turns {
        push_object(&mut out, lines, turn)?;
    }
    Ok(out)
}

/// Returns the table of these turns, with the script's line of each. The lines are those that added each entry.
pub(crate) fn timehist(
    alloc: Global,
    notation: Notation,
    lines: &[usize],
    turns: &[Turn],
) -> Result<Vec<u8>, AllocError>
    ensures { IfOk result (λ bytes. bytes.items ≡ table_of notation lines.now turns.now) }
{
    match notation {
        Notation::Lines => Ok(table_text(alloc, lines, turns)?.into_bytes()),
        Notation::Json => Ok(objects_text(alloc, lines, turns)?.into_bytes()),
    }
}
