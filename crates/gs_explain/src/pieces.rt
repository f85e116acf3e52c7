//! A text with rows that are told between, and how it goes to a writer.

ghost use Rattle.std.specs.Prelude.{◌≡◌, ◌<◌, ◌≤◌, ◌++◌, ◌∷◌, [], ℕ, List, codes, decimal, drop, false, length, take, true, IfOk, OnOk, OnErr};
ghost use Rattle.std.specs.Io.KnownBytes.{Appends};
ghost use Rattle.std.specs.List.{All};
ghost use Rattle.gs_script.specs.Words.{is_text};
ghost use Rattle.gs_sentences.specs.Parts.{part};
ghost use Rattle.gs_explain.specs.Retold.{IsBegun, IsWithin, Moves, piece_text, retold};
ghost use Rattle.gs_explain.specs.Rows.{heading};
ghost use Rattle.gs_sentences.specs.Tails.{is_part, tail_text};

use crate::piece::{MOST_LINE_LEN, Piece};
use gs_sentences::{Sentence, TAIL_LEN, Tail, put_tail};
use gs_text::{WriteFailed, write_out};
use std::alloc::{AllocError, Global};
use std::io::Write;
use std::marker::Model;

/// What is gathered in a block is written whenever there are more bytes of it than so many.
const BLOCK_LEN: usize = 61_440;

/// Bytes that are more than so many are written at once, and not gathered.
const LONG_LEN: usize = 4_096;

/// So many bytes a block has at most.
const MOST_LEN: usize = BLOCK_LEN + LONG_LEN;

/// Writes a block, and takes its bytes away.
#[inline(never)]
fn send<W: Write>(block: &mut Vec<u8>, writer: &mut W) -> Result<(), WriteFailed>
    ensures empty { OnOk result (block.new.items ≡ []) }
    ensures sent { OnOk result (Appends (W.contents writer.old) (W.contents writer.new) block.old.items) }
    ensures begun { OnErr result (IsBegun (W.contents writer.old) (W.contents writer.new) block.old.items) }
{
    write_out(writer, block.as_slice())?;
    block.clear();
    Ok(())
}

/// Adds bytes to a block, and writes it if it is full then.
#[inline(always)]
fn add<W: Write>(block: &mut Vec<u8>, writer: &mut W, bytes: &[u8]) -> Result<(), WriteFailed>
    requires { 0 < length bytes.now }
    ensures moved { OnOk result (Moves (W.contents writer.old) block.old.items bytes.now (W.contents writer.new) block.new.items) }
    ensures begun { OnErr result (IsBegun (W.contents writer.old) (W.contents writer.new) (block.old.items ++ bytes.now)) }
{
    block.extend_from_slice(bytes)?;
    if BLOCK_LEN < block.len() {
        send(block, writer)?;
    }
    Ok(())
}

/// Writes what a block has, and bytes behind that.
#[inline(never)]
fn add_long<W: Write>(block: &mut Vec<u8>, writer: &mut W, bytes: &[u8]) -> Result<(), WriteFailed>
    requires { 0 < length bytes.now }
    ensures moved { OnOk result (Moves (W.contents writer.old) block.old.items bytes.now (W.contents writer.new) block.new.items) }
    ensures begun { OnErr result (IsBegun (W.contents writer.old) (W.contents writer.new) (block.old.items ++ bytes.now)) }
{
    send(block, writer)?;
    write_out(writer, bytes)?;
    Ok(())
}

/// Adds bytes to a block, or writes them at once if they are many.
#[inline(always)]
fn add_any<W: Write>(block: &mut Vec<u8>, writer: &mut W, bytes: &[u8]) -> Result<(), WriteFailed>
    requires { 0 < length bytes.now }
    ensures moved { OnOk result (Moves (W.contents writer.old) block.old.items bytes.now (W.contents writer.new) block.new.items) }
    ensures begun { OnErr result (IsBegun (W.contents writer.old) (W.contents writer.new) (block.old.items ++ bytes.now)) }
{
    if LONG_LEN < bytes.len() {
        add_long(block, writer, bytes)
    } else {
        add(block, writer, bytes)
    }
}

/// Adds the part of a text from one place to another, of which there is none if that is not behind it.
#[inline(always)]
fn add_until<W: Write>(
    block: &mut Vec<u8>,
    writer: &mut W,
    text: &[u8],
    done: usize,
    at: usize,
) -> Result<(), WriteFailed>
    requires { at ≤ length text.now }
    ensures moved { OnOk result (Moves (W.contents writer.old) block.old.items (part done at text.now) (W.contents writer.new) block.new.items) }
    ensures begun { OnErr result (IsBegun (W.contents writer.old) (W.contents writer.new) (block.old.items ++ part done at text.now)) }
{
    if done < at {
        add_any(block, writer, &text[done..at])?;
    }
    Ok(())
}

/// A row that is put together, and what was told last behind a script's line: where the next row tells the same, it is not put together
/// again. Clauses see the bytes of the row.
#[derive(Drop)]
struct Row {
    bytes: Sentence,
    /// What was told last. It tells of a part of a text if nothing was.
    tail: Tail,
    /// How many bytes that has.
    len: usize,
}

impl Model for Row {
    ghost use Rattle.std.specs.Prelude.{List, ℕ};
    ghost use Rattle.gs_explain.specs.Retold.{Ends};

    ghost Value = { List ℕ };

    ghost view = { λ r. r.bytes };

    ghost invariant = { λ r. Ends r.tail r.len r.bytes };
}

impl Row {
    /// Makes an empty one.
    #[inline(always)]
    fn new() -> Row
        ensures { result ≡ [] }
    {
        Row {
            bytes: Sentence::new(),
            tail: Tail::Part { from: 0, to: 0 },
            len: 0,
        }
    }

    /// Puts what is told behind the line of an event that was refused, in the place of all.
    #[inline(always)]
    fn put_tail(&mut self, tail: &Tail)
        requires { is_part tail.now ≡ false }
        ensures value { (text : List ℕ) → self.new ≡ tail_text text tail.now }
        ensures short { length self.new ≤ TAIL_LEN }
    {
        if self.tail.is_same(tail) {
            self.bytes.keep_last(self.len);
        } else {
            self.bytes.clear();
            put_tail(&mut self.bytes, tail);
            self.tail = *tail;
            self.len = self.bytes.len();
        }
    }

    /// Makes it empty.
    #[inline(always)]
    fn clear(&mut self)
        ensures { self.new ≡ [] }
    {
        self.bytes.clear();
        self.tail = Tail::Part { from: 0, to: 0 };
    }

    /// Puts a script's line in front, with its number.
    #[inline(always)]
    #[tactic(auto, using(gs_script::proofs::Texts::text_is_utf8))]
    fn put_heading(&mut self, number: u32, line: &[u8])
        requires text { is_text line.now ≡ true }
        requires short { length line.now ≤ MOST_LINE_LEN }
        requires room { length self.old ≤ TAIL_LEN }
        ensures { self.new ≡ heading (number, line.now) ++ self.old }
    {
        self.bytes.put("\n");
        self.bytes.put_bytes(line);
        self.bytes.put(": ");
        self.bytes.put_number(number as u64);
        self.bytes.put("line ");
    }
}

/// Adds the row of an event that was refused.
#[inline(always)]
fn add_refused<W: Write>(
    block: &mut Vec<u8>,
    writer: &mut W,
    row: &mut Row,
    piece: &Piece<'_>,
) -> Result<(), WriteFailed>
    requires text { is_text piece.now.line.now ≡ true }
    requires short { length piece.now.line.now ≤ MOST_LINE_LEN }
    requires told { is_part piece.now.tail ≡ false }
    ensures moved { (text : List ℕ) → OnOk result (Moves (W.contents writer.old) block.old.items (piece_text piece.now text) (W.contents writer.new) block.new.items) }
    ensures begun { (text : List ℕ) → OnErr result (IsBegun (W.contents writer.old) (W.contents writer.new) (block.old.items ++ piece_text piece.now text)) }
{
    row.put_tail(&piece.tail);
    row.put_heading(piece.number, piece.line);
    add(block, writer, row.bytes.as_bytes())
}

/// Adds a script's line, and behind it what a text has.
#[inline(always)]
fn add_part<W: Write>(
    block: &mut Vec<u8>,
    writer: &mut W,
    row: &mut Row,
    number: u32,
    line: &[u8],
    bytes: &[u8],
) -> Result<(), WriteFailed>
    requires text { is_text line.now ≡ true }
    requires short { length line.now ≤ MOST_LINE_LEN }
    requires some { 0 < length bytes.now }
    ensures moved { OnOk result (Moves (W.contents writer.old) block.old.items (heading (number, line.now) ++ bytes.now) (W.contents writer.new) block.new.items) }
    ensures begun { OnErr result (IsBegun (W.contents writer.old) (W.contents writer.new) (block.old.items ++ (heading (number, line.now) ++ bytes.now))) }
{
    row.clear();
    row.put_heading(number, line);
    add(block, writer, row.bytes.as_bytes())?;
    add_any(block, writer, bytes)?;
    Ok(())
}

/// Adds a row.
#[inline(always)]
fn add_piece<W: Write>(
    block: &mut Vec<u8>,
    writer: &mut W,
    row: &mut Row,
    text: &[u8],
    piece: &Piece<'_>,
) -> Result<(), WriteFailed>
    requires { IsWithin (length text.now) piece.now }
    ensures moved { OnOk result (Moves (W.contents writer.old) block.old.items (piece_text piece.now text.now) (W.contents writer.new) block.new.items) }
    ensures begun { OnErr result (IsBegun (W.contents writer.old) (W.contents writer.new) (block.old.items ++ piece_text piece.now text.now)) }
{
    match piece.tail {
        Tail::Part { from, to } => add_part(
            block,
            writer,
            row,
            piece.number,
            piece.line,
            &text[from as usize..to as usize],
        ),
        _ => add_refused(block, writer, row, piece),
    }
}

/// Makes an empty block, with room for all that it has before it is written.
pub(crate) fn new_block(alloc: Global) -> Result<Vec<u8>, AllocError>
    ensures { IfOk result (λ block. block.items ≡ []) }
{
    Vec::with_capacity(alloc, MOST_LEN)
}

/// Writes a text with rows between, in blocks, for which an empty one is given.
///
/// # Errors
///
/// `WriteFailed` if a write fails or takes no byte, or out of memory: a beginning was written, short of the whole.
pub(crate) fn write_retold<W: Write>(
    text: &[u8],
    pieces: &[Piece<'_>],
    block: Vec<u8>,
    writer: &mut W,
) -> Result<(), WriteFailed>
    requires within { All (IsWithin (length text.now)) pieces.now }
    requires empty { block.items ≡ [] }
    ensures sent { OnOk result (Appends (W.contents writer.old) (W.contents writer.new) (retold 0 pieces.now text.now)) }
    ensures begun { OnErr result (IsBegun (W.contents writer.old) (W.contents writer.new) (retold 0 pieces.now text.now)) }
{
    let mut block = block;
    let mut row = Row::new();
    let mut done = 0;
    for piece in pieces {
        let at = piece.at as usize;
        add_until(&mut block, writer, text, done, at)?;
        add_piece(&mut block, writer, &mut row, text, piece)?;
        done = at;
    }
    send(&mut block, writer)?;
    write_out(writer, &text[done..])?;
    Ok(())
}
