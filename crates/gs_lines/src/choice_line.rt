ghost use Rattle.std.specs.Prelude.{◌≡◌, ◌≤◌, ◌++◌, OnOk, length};
ghost use Rattle.gs_lines.specs.Lines.{choice_lines, choice_text, decided_text, line, preempt_text};

use gs_policy::Choice;
use gs_text::Sheet as Text;
use std::alloc::AllocError;

/// The end of a choice's line: whether its thread takes the CPU from somebody.
fn choice_end(preempt: bool) -> &'static str
    ensures name { result.now ≡ line (preempt_text preempt) }
    ensures short { length result.now ≤ 9 }
{
    if preempt { " preempt\n" } else { "\n" }
}

/// Adds the line of a choice, by its transaction's number.
fn write_choice(out: &mut Text, number: u64, choice: &Choice) -> Result<(), AllocError>
    ensures { OnOk result (out.new ≡ out.old ++ line (choice_text number choice.now)) }
{
    let Choice { cpu, tid, preempt } = *choice;
    out.push_two("stamped ", number, " cpu ", cpu as u64)?;
    out.push_between(" thread ", tid as u64, choice_end(preempt))
}

/// Adds the lines of choices, whose numbers are `first` and those that follow it.
fn write_choices(out: &mut Text, first: u32, choices: &[Choice]) -> Result<(), AllocError>
    ensures { OnOk result (out.new ≡ out.old ++ choice_lines first choices.now) }
{
    for (i, choice) in choices.iter().enumerate() {
        write_choice(out, first as u64 + i as u64, choice)?;
    }
    Ok(())
}

/// Adds the lines of a decision: one, and one for each choice, whose transactions have the numbers from `first` on. It fails
/// only if out of memory.
pub fn write_decided(out: &mut Text, first: u32, choices: &[Choice]) -> Result<(), AllocError>
    ensures { OnOk result (out.new ≡ out.old ++ line (decided_text choices.now) ++ choice_lines first choices.now) }
{
    out.push_between("decided ", choices.len() as u64, "\n")?;
    write_choices(out, first, choices)
}
