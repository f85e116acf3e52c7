ghost use Rattle.std.specs.Prelude.{◌≡◌, ◌≤◌, ◌+◌, [], ◌∷◌, ◌++◌, length, MatchOption};
ghost use Rattle.std.specs.Borrow.{sem};
ghost use Rattle.gs_slots.specs.Lending.{LendsNext, LendsParts};

use crate::wire::SLOT_LEN;

/// Slots of a region that are lent, in increasing order of CPU.
///
/// Take it apart to go on with `rest`: a slot's bytes and the rest behind it, or two parts, are lent
/// together.
#[derive(Drop)]
pub struct Slots<'a> {
    /// The bytes of the slots.
    pub rest: &'a mut [[u8; SLOT_LEN]],
    /// The CPU of the first of them.
    pub first: u16,
}

impl<'a> Slots<'a> {
    /// Makes slots whose first is that of a CPU.
    pub fn over(rest: &'a mut [[u8; SLOT_LEN]], first: u16) -> Slots<'a>
        ensures same_reference { result.rest.ghost_name ≡ rest.entry.ghost_name }
        ensures slots { result.rest.now ≡ rest.old }
        ensures first { result.first ≡ first }
    {
        Slots { rest, first }
    }

    /// Lends the bytes of the first slot, and the rest behind it, whose first CPU is one above. Returns
    /// `None` if none is left. The slots that were lent before stay lent.
    pub fn next(rest: &mut [[u8; SLOT_LEN]]) -> Option<(&mut [u8; SLOT_LEN], &mut [[u8; SLOT_LEN]])>
        ensures* writes_back { sem 𝓛 (LendsNext rest.entry result) }
        ensures parts { MatchOption result (rest.old ≡ []) (λ p. rest.old ≡ p.0.now ∷ p.1.now) }
    {
        rest.split_first_mut()
    }

    /// Lends the slots of the CPUs below `cpu`, and those from there on. The first of `rest` is that of CPU
    /// `first`.
    pub fn split(
        rest: &mut [[u8; SLOT_LEN]],
        first: u16,
        cpu: u16,
    ) -> (&mut [[u8; SLOT_LEN]], &mut [[u8; SLOT_LEN]])
        requires low { first ≤ cpu }
        requires high { cpu ≤ first + length rest.old }
        ensures* writes_back { sem 𝓛 (LendsParts rest.entry result) }
        ensures whole { rest.old ≡ result.0.now ++ result.1.now }
        ensures below { first + length result.0.now ≡ cpu }
    {
        let count = (cpu - first) as usize;
        rest.split_at_mut(count)
    }
}
