//! A row that is told at the end, and not kept as text.

ghost use Rattle.std.specs.Prelude.{◌≡◌, ◌≤◌, IfSome, length, true};
ghost use Rattle.gs_script.specs.Unread.{said_line};

use gs_script::SaidLine;
use gs_sentences::Tail;

/// Lines of more bytes than so many are told as text.
pub(crate) const MOST_LINE_LEN: usize = 96;

/// A row that is told behind the first bytes of a text, so many: a script's line, and what is told behind it.
#[derive(Clone, Copy)]
pub(crate) struct Piece<'a> {
    pub(crate) line: &'a [u8],
    pub(crate) tail: Tail,
    pub(crate) at: u32,
    pub(crate) number: u32,
}

impl<'a> Piece<'a> {
    /// Makes one, or returns `None` if a number is too large, or the line too long.
    #[inline(always)]
    pub(crate) fn new(at: usize, said: &SaidLine<'a>, tail: Tail) -> Option<Piece<'a>>
        ensures at { IfSome result (λ p. p.at ≡ at) }
        ensures said { IfSome result (λ p. (p.number, p.line.now) ≡ said_line said.now) }
        ensures tail { IfSome result (λ p. p.tail ≡ tail) }
        ensures short { IfSome result (λ p. length p.line.now ≤ MOST_LINE_LEN) }
    {
        if said.bytes.len() > MOST_LINE_LEN {
            return None;
        }
        Some(Piece {
            line: said.bytes,
            tail,
            at: u32::try_from(at).ok()?,
            number: u32::try_from(said.number).ok()?,
        })
    }
}
