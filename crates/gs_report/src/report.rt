ghost use Rattle.std.specs.Prelude.{◌≡◌, List, [], ◌∷◌, ◌++◌, IfOk, OnOk, map, string_bytes};
ghost use Rattle.serde_json.specs.View.{view};
ghost use Rattle.serde_json.specs.Data.{string};
ghost use Rattle.serde_json.specs.Written.{compact_text};
ghost use Rattle.gs_replies.specs.declared.reply.Reply as replies;
ghost use Rattle.gs_lines.specs.Lines.{line};
ghost use Rattle.gs_report.specs.Report.{report_data, report_of, value_of, ReadsAs, ReportsOn};

use crate::counts::Counts;
use crate::last_lines::last_lines;
use circular_buffer::HeapCircularBuffer;
use gs_core::Reply;
use gs_lines::{Text, write_reply};
use serde_json::{Value, json};
use std::alloc::{AllocError, Global};

/// The texts as JSON strings, in order.
fn strings(alloc: Global, texts: &HeapCircularBuffer<&str>) -> Result<Vec<Value>, AllocError>
    ensures { IfOk result (λ values. map view values.items ≡ map string (map (λ text. text.now) texts.now.items)) }
{
    let mut values = Vec::new(alloc);
    for text in texts {
        values.push(Value::try_from_str(alloc, text)?)?;
    }
    Ok(values)
}

/// A report as JSON.
fn report_value(
    alloc: Global,
    counts: Counts,
    texts: &HeapCircularBuffer<&str>,
) -> Result<Value, AllocError>
    ensures { IfOk result (λ value. view value ≡ report_data counts (map (λ text. text.now) texts.now.items)) }
{
    let last = strings(alloc, texts)?;
    json!(in alloc; {
        "events": counts.events,
        "last": last,
        "placed": counts.placed,
        "refused": counts.refused,
        "torn": counts.torn,
        "unplaced": counts.unplaced,
    })
}

/// The line of a report.
fn report_line(
    alloc: Global,
    counts: Counts,
    texts: &HeapCircularBuffer<&str>,
) -> Result<String, AllocError>
    ensures text { IfOk result (λ report. string_bytes report ≡ line (compact_text (report_data counts (map (λ text. text.now) texts.now.items)))) }
    ensures reads { IfOk result (λ report. ReadsAs (string_bytes report) (report_data counts (map (λ text. text.now) texts.now.items))) }
{
    let value = report_value(alloc, counts, texts)?;
    let mut report = value.to_string(alloc)?;
    report.push('\n')?;
    Ok(report)
}

/// A report that grows with a run, by one reply after another.
#[derive(Drop)]
pub struct Report {
    counts: Counts,
    text: Text,
}

impl Report {
    /// Makes a report of no reply.
    pub fn new(alloc: Global) -> Report
        ensures { ReportsOn result [] }
    {
        Report {
            counts: Counts::new(),
            text: Text::new(alloc),
        }
    }

    /// Takes in one more reply. It fails only if out of memory, or if a count would not fit.
    pub fn add(&mut self, reply: &Reply) -> Result<(), AllocError>
        ensures { OnOk result ((rs : List replies.Reply) → ReportsOn self.old rs → ReportsOn self.new (rs ++ reply.now ∷ [])) }
    {
        let Some(counts) = self.counts.with(reply) else {
            return Err(AllocError);
        };
        write_reply(&mut self.text, reply)?;
        self.counts = counts;
        Ok(())
    }

    /// Returns the report as a line of JSON: what is counted of the replies, and the last `last` of their
    /// lines.
    ///
    /// It fails only if out of memory.
    pub fn to_line(&self, alloc: Global, last: usize) -> Result<String, AllocError>
        ensures text { IfOk result (λ report. (rs : List replies.Reply) → ReportsOn self.now rs → string_bytes report ≡ report_of last rs) }
        ensures reads { IfOk result (λ report. (rs : List replies.Reply) → ReportsOn self.now rs → ReadsAs (string_bytes report) (value_of last rs)) }
    {
        let texts = last_lines(alloc, self.text.as_str(), last)?;
        report_line(alloc, self.counts, &texts)
    }
}
