ghost use Rattle.std.specs.Prelude.{◌≡◌, option_copied};
ghost use Rattle.gs_layout.specs.declared.kind.Kind.{Kind};
ghost use Rattle.gs_layout.specs.declared.message.Change.{Change};
ghost use Rattle.gs_layout.specs.declared.message.Message.{Message};
ghost use Rattle.gs_layout.specs.Message.{tseq_of};
ghost use Rattle.gs_layout.specs.Reading.{message_in};
ghost use Rattle.gs_reader.specs.RefHeld.{IsRef};
ghost use Rattle.gs_reader.specs.Taking.{takes_own_off};
ghost use Rattle.gs_layout.specs.Spelling.{IsSpellable, class_of, cpu_of, flags_of, kind_of, mask_of, name_of, spelling, tid_of};

use crate::facts::facts_at;
use gs_layout::{Class, Facts, Kind, Message, Parcel};
use gs_status::Mask;
use std::marker::Model;

/// A message where it stands in its bytes. Clauses see it as the message.
///
/// # Examples
///
/// All that a message tells:
///
/// ```
/// let kind = message.kind();
/// let tid = message.tid();
/// let tseq = message.tseq();
/// let cpu = message.cpu();
/// let flags = message.flags();
/// let mask = message.mask().map(|mask| mask.bits());
/// let class = message.class().map(|class| class.number());
/// let name = message.name();
/// ```
#[derive(Drop)]
pub struct MessageRef<'a> {
    bytes: &'a [u8],
}

impl<'a> Model for MessageRef<'a> {
    ghost use Rattle.gs_layout.specs.declared.message.Message.{Message};
    ghost use Rattle.gs_layout.specs.Reading.{message_in};

    ghost Value = { Message };

    ghost use Rattle.gs_reader.specs.RefHeld.{IsRef};

    ghost view = { λ r. message_in r.bytes.now };

    ghost invariant = { λ r. IsRef r.bytes.now };
}

impl<'a> MessageRef<'a> {
    /// Returns the message whose spelling these bytes are.
    pub(crate) fn over(bytes: &'a [u8]) -> MessageRef<'a>
        requires { IsRef bytes.now }
        ensures { result ≡ message_in bytes.now }
    {
        MessageRef { bytes }
    }

    /// Returns the message whose spelling all of these bytes are. It looks at none of them, so it is for
    /// bytes that are known to be one, as a ring knows of those that it wrote. For any other bytes there is
    /// [`read_one`](crate::read_one).
    pub fn spelled(bytes: &'a [u8]) -> MessageRef<'a>
        requires { (m : Message) × IsSpellable m × (bytes.now ≡ spelling m) }
        ensures { (m : Message) → IsSpellable m → bytes.now ≡ spelling m → result ≡ m }
    {
        MessageRef::over(bytes)
    }

    /// Lends the bytes of the message, which are its spelling.
    pub fn as_bytes(&self) -> &'a [u8]
        ensures value { result.now ≡ spelling self.now }
        ensures spellable { IsSpellable self.now }
    {
        self.bytes
    }

    /// Returns the kind of the message.
    pub fn kind(&self) -> Kind
        ensures { result ≡ kind_of self.now }
    {
        gs_layout::kind_of(self.bytes)
    }

    /// Returns the thread that it is about, 0 for a tick.
    pub fn tid(&self) -> u32
        ensures { result ≡ tid_of self.now }
    {
        gs_layout::tid_of(self.bytes)
    }

    /// Returns its sequence number, 0 for a tick.
    pub fn tseq(&self) -> u32
        ensures { result ≡ tseq_of self.now }
    {
        gs_layout::tseq_of(self.bytes)
    }

    /// Returns the CPU that the thread was on just before, or the CPU of a tick.
    pub fn cpu(&self) -> Option<u16>
        ensures { result ≡ cpu_of self.now }
    {
        gs_layout::cpu_of(self.bytes)
    }

    /// Returns the flags. Bit 0 of a creation says that the thread is runnable. Bit 0 of a new mask says that
    /// the thread was taken off its CPU. All else is 0.
    pub fn flags(&self) -> u16
        ensures { result ≡ flags_of self.now }
    {
        gs_layout::flags_of(self.bytes)
    }

    /// Returns whether it takes its own thread off the CPU. A tick has none.
    pub fn takes_off_cpu(&self) -> bool
        ensures { result ≡ takes_own_off self.now }
    {
        self.takes_off_as(self.kind())
    }

    /// Returns the same, of a message of this kind.
    #[inline(always)]
    pub fn takes_off_as(&self, kind: Kind) -> bool
        requires { kind ≡ kind_of self.now }
        ensures { result ≡ takes_own_off self.now }
    {
        kind.takes_off_cpu(self.flags() & 1 == 1)
    }

    /// Returns the mask of a creation or of a new mask, or `None` for any other kind.
    pub fn mask(&self) -> Option<Mask>
        ensures { result ≡ mask_of self.now }
    {
        gs_layout::mask_of(self.bytes)
    }

    /// Returns the class of a creation, or `None` for any other kind.
    pub fn class(&self) -> Option<Class>
        ensures { result ≡ class_of self.now }
    {
        gs_layout::class_of(self.bytes)
    }

    /// Lends the name of a creation, where it stands in the bytes, or returns `None` for any other kind.
    pub fn name(&self) -> Option<&'a [u8]>
        ensures { option_copied result ≡ name_of self.now }
    {
        gs_layout::name_of(self.bytes)
    }

    /// Returns the facts that a creation tells, with a name of their own. They are read from the bytes, and no message is
    /// made. The message is a creation.
    #[inline(always)]
    pub fn facts(&self) -> Facts
        requires { kind_of self.now ≡ Kind.Created }
        ensures { self.now ≡ Message.Thread (tid_of self.now) (tseq_of self.now) (Change.Created result) }
    {
        facts_at(self.bytes)
    }

    /// Returns the message itself, with a name of its own.
    pub fn message(&self) -> Message
        ensures { result ≡ self.now }
    {
        gs_layout::message_of(self.as_bytes())
    }

    /// Returns the message in a parcel, where it stands there.
    pub fn in_parcel(parcel: &'a Parcel) -> MessageRef<'a>
        ensures { result ≡ parcel.now }
    {
        MessageRef::over(parcel.as_bytes())
    }
}
