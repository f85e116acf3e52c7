ghost use Rattle.std.specs.Prelude.{◌≡◌};
ghost use Rattle.gs_layout.specs.declared.message.Message.{Message};
ghost use Rattle.gs_layout.specs.Spelling.{IsSpellable, spelling};
ghost use Rattle.gs_reader.specs.RefHeld.{IsRef};
ghost use Rattle.gs_ring.specs.Spelled.{ref_prop};

use gs_reader::MessageRef;

/// A message that waits in a ring, where it lies. It is read once it is asked for.
#[derive(Clone, Copy)]
pub struct Peeked<'a> {
    bytes: &'a [u8],
    ghost whole: { IsRef bytes.now } by { ref_prop bytes.now },
}

impl<'a> Peeked<'a> {
    ghost use Rattle.gs_ring.specs.Peek.{message_of};

    /// Wraps the message whose bytes these are.
    #[tactic(auto, unfolding(crate::specs::Peek::message_of))]
    pub fn new(bytes: &'a [u8]) -> Peeked<'a>
        requires { (m : Message) × IsSpellable m × (bytes.now ≡ spelling m) }
        ensures { (m : Message) → IsSpellable m → bytes.now ≡ spelling m → message_of result ≡ m }
    {
        Peeked { bytes }
    }

    /// Lends the message.
    pub fn message(&self) -> MessageRef<'a>
        ensures { result ≡ message_of self.now }
    {
        MessageRef::spelled(self.bytes)
    }
}
