//! The rows of threads that were never placed, and that no slot names: but for class and tid all are the same.

ghost use Rattle.std.specs.Prelude.{◌≡◌, ◌++◌, OnOk};
ghost use Rattle.gs_tallies.specs.Threads.{idle};
ghost use Rattle.gs_trace.specs.declared.form.Notation.TheVariants as Notation;
ghost use Rattle.gs_tables.specs.Idle.{class_column, front_json};
ghost use Rattle.gs_tables.specs.Latency.{account_row};

use crate::column::digits;
use gs_layout::Class;
use gs_lines::{Text, blanks};
use gs_trace::Notation;
use std::alloc::AllocError;

/// The line in entries, behind the tid.
const IN_ENTRIES: &str =
    "       0         0        0 entries         0         0        -        -        -        -\n";

/// The line in ticks, behind the tid.
const IN_TICKS: &str =
    "       0         0        0   ticks         0         0        -        -        -        -\n";

/// The object of a thread of class 0, up to its tid.
const FRONT_ZERO: &str =
    "{\"class\":0,\"migrated\":0,\"preempted\":0,\"ran\":{\"entries\":0,\"ticks\":0},\"stays\":0,\"tid\":";

/// The object of a thread of class 1, up to its tid.
const FRONT_ONE: &str =
    "{\"class\":1,\"migrated\":0,\"preempted\":0,\"ran\":{\"entries\":0,\"ticks\":0},\"stays\":0,\"tid\":";

/// The object, behind the tid.
const REST: &str =
    ",\"waited\":{\"entries\":0,\"ticks\":0},\"waits\":{\"entries\":null,\"ticks\":null}}\n";

/// Returns the column with a class.
fn class_column(class: Class) -> &'static str
    ensures { result.now ≡ class_column class }
{
    match class {
        Class::Zero => "     0",
        Class::One => "     1",
    }
}

/// Returns the object up to the tid.
fn front(class: Class) -> &'static str
    ensures { result.now ≡ front_json class }
{
    match class {
        Class::Zero => FRONT_ZERO,
        Class::One => FRONT_ONE,
    }
}

/// Adds the two lines of a thread.
fn push_lines(out: &mut Text, class: Class, tid: usize) -> Result<(), AllocError>
    ensures { OnOk result (out.new ≡ out.old ++ account_row Notation.Lines (idle class tid)) }
{
    let class = class_column(class);
    let blanks = blanks(6, digits(tid));
    out.push_str(class)?;
    out.push_between(blanks, tid as u64, IN_ENTRIES)?;
    out.push_str(class)?;
    out.push_between(blanks, tid as u64, IN_TICKS)
}

/// Adds what tells of the waits of a thread, line by line or as an object.
pub(crate) fn push_idle(
    notation: Notation,
    out: &mut Text,
    class: Class,
    tid: usize,
) -> Result<(), AllocError>
    ensures { OnOk result (out.new ≡ out.old ++ account_row notation (idle class tid)) }
{
    match notation {
        Notation::Lines => push_lines(out, class, tid),
        Notation::Json => out.push_between(front(class), tid as u64, REST),
    }
}
