//! A table of columns.

ghost use Rattle.std.specs.Prelude.{◌≡◌, ◌≤◌, ◌++◌, IfOk, OnOk, false};
ghost use Rattle.std.specs.List.{flat_map};
ghost use Rattle.gs_compare.specs.Lines.{cell_words, key_words, lines_text, names_line, no_key_words, policy_column, policy_width, row_line, statistics_line, statistics_words, three_words};

use crate::column::{THREE_WIDTH, WIDTH, push_number};
use crate::row::{Cell, Row};
use gs_lines::{Text, class_word, push_column};
use gs_script::NamedPolicy;
use std::alloc::{AllocError, Global};

/// The names of the first two columns.
const KEY_WORDS: &str = " class      measure";

/// As many spaces.
const NO_KEY_WORDS: &str = "                   ";

/// The names of the three columns of a policy.
const THREE_WORDS: &str = "       median        least         most";

/// Returns how many places a policy of this name has: those of one column, which is as wide as the name, or of three, if there are
/// several seeds.
fn policy_width(several: bool, name: &str) -> usize
    ensures value { result ≡ policy_width several name.now }
    ensures most { result ≤ THREE_WIDTH }
{
    if several {
        return THREE_WIDTH;
    }
    name.len().max(WIDTH).min(THREE_WIDTH)
}

/// Adds the name of a policy, at the right end of its columns.
fn push_policy<P: NamedPolicy>(
    alloc: Global,
    out: &mut Text,
    several: bool,
    policy: &P,
) -> Result<(), AllocError>
    ensures { OnOk result (out.new ≡ out.old ++ policy_column P.naming several policy.now) }
{
    let words = policy.words(alloc)?;
    push_column(out, policy_width(several, words.as_str()), words.as_str())
}

/// Adds the names of policies, above their columns.
fn push_policies<P: NamedPolicy>(
    alloc: Global,
    out: &mut Text,
    several: bool,
    policies: &[P],
) -> Result<(), AllocError>
    ensures { OnOk result (out.new ≡ out.old ++ flat_map (policy_column P.naming several) policies.now) }
{
    for policy in policies {
        push_policy(alloc, out, several, policy)?;
    }
    Ok(())
}

/// Adds the names of the first two columns.
#[tactic(auto, unfolding(crate::specs::Lines::key_words))]
fn push_key_words(out: &mut Text) -> Result<(), AllocError>
    ensures { OnOk result (out.new ≡ out.old ++ key_words) }
{
    out.push_str(KEY_WORDS)
}

/// Adds as many spaces.
#[tactic(auto, unfolding(crate::specs::Lines::no_key_words))]
fn push_no_key_words(out: &mut Text) -> Result<(), AllocError>
    ensures { OnOk result (out.new ≡ out.old ++ no_key_words) }
{
    out.push_str(NO_KEY_WORDS)
}

/// Adds the line with the names of the policies.
fn push_names<P: NamedPolicy>(
    alloc: Global,
    out: &mut Text,
    several: bool,
    policies: &[P],
) -> Result<(), AllocError>
    ensures { OnOk result (out.new ≡ out.old ++ names_line P.naming several policies.now) }
{
    push_key_words(out)?;
    push_policies(alloc, out, several, policies)?;
    out.end_line()
}

/// Adds the names of the three columns of a policy.
#[tactic(auto, unfolding(crate::specs::Lines::three_words))]
fn push_three(out: &mut Text) -> Result<(), AllocError>
    ensures { OnOk result (out.new ≡ out.old ++ three_words) }
{
    out.push_str(THREE_WORDS)
}

/// Adds the names of the three columns of each policy.
fn push_statistics<P>(out: &mut Text, policies: &[P]) -> Result<(), AllocError>
    ensures { OnOk result (out.new ≡ out.old ++ statistics_words policies.now) }
{
    for _policy in policies {
        push_three(out)?;
    }
    Ok(())
}

/// Adds the line that says what the columns of each policy have, if there are several seeds.
fn push_statistics_line<P>(out: &mut Text, several: bool, policies: &[P]) -> Result<(), AllocError>
    ensures { OnOk result (out.new ≡ out.old ++ statistics_line several policies.now) }
{
    if !several {
        return Ok(());
    }
    push_no_key_words(out)?;
    push_statistics(out, policies)?;
    out.end_line()
}

/// Adds what a measure came to under a policy, by one seed: below the policy's name.
fn push_value<P: NamedPolicy>(
    alloc: Global,
    out: &mut Text,
    cell: &Cell<P>,
) -> Result<(), AllocError>
    ensures { OnOk result (out.new ≡ out.old ++ cell_words P.naming false cell.now) }
{
    let words = cell.policy.words(alloc)?;
    push_number(out, policy_width(false, words.as_str()), cell.median())
}

/// Adds what a measure came to under a policy.
fn push_cell<P: NamedPolicy>(
    alloc: Global,
    out: &mut Text,
    several: bool,
    cell: &Cell<P>,
) -> Result<(), AllocError>
    ensures { OnOk result (out.new ≡ out.old ++ cell_words P.naming several cell.now) }
{
    if !several {
        return push_value(alloc, out, cell);
    }
    push_number(out, WIDTH, cell.median())?;
    push_number(out, WIDTH, cell.least())?;
    push_number(out, WIDTH, cell.most())
}

/// Adds what a measure came to under each policy.
fn push_cells<P: NamedPolicy>(
    alloc: Global,
    out: &mut Text,
    several: bool,
    cells: &[Cell<P>],
) -> Result<(), AllocError>
    ensures { OnOk result (out.new ≡ out.old ++ flat_map (cell_words P.naming several) cells.now) }
{
    for cell in cells {
        push_cell(alloc, out, several, cell)?;
    }
    Ok(())
}

/// Adds the line of a measure.
fn push_row<P: NamedPolicy>(
    alloc: Global,
    out: &mut Text,
    several: bool,
    row: &Row<P>,
) -> Result<(), AllocError>
    ensures { OnOk result (out.new ≡ out.old ++ row_line P.naming several row.now) }
{
    push_column(out, 5, class_word(row.key.class))?;
    push_column(out, WIDTH, row.key.measure.name())?;
    push_cells(alloc, out, several, &row.cells)?;
    out.end_line()
}

/// Adds the lines of all measures.
fn push_rows<P: NamedPolicy>(
    alloc: Global,
    out: &mut Text,
    several: bool,
    rows: &[Row<P>],
) -> Result<(), AllocError>
    ensures { OnOk result (out.new ≡ out.old ++ flat_map (row_line P.naming several) rows.now) }
{
    for row in rows {
        push_row(alloc, out, several, row)?;
    }
    Ok(())
}

/// Returns a table of columns, of so many seeds.
///
/// # Errors
///
/// `AllocError` if out of memory.
pub(crate) fn lines_of<P: NamedPolicy>(
    alloc: Global,
    seeds: usize,
    policies: &[P],
    rows: &[Row<P>],
) -> Result<Vec<u8>, AllocError>
    ensures { IfOk result (λ bytes. bytes.items ≡ lines_text P.naming seeds policies.now rows.now) }
{
    let several = seeds > 1;
    let mut out = Text::new(alloc);
    push_names(alloc, &mut out, several, policies)?;
    push_statistics_line(&mut out, several, policies)?;
    push_rows(alloc, &mut out, several, rows)?;
    Ok(out.into_bytes())
}
