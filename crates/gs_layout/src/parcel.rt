ghost use Rattle.std.specs.Prelude.{◌≡◌};
ghost use Rattle.gs_layout.specs.Spelling.{IsSpellable, spelling};

use crate::encode::encode_message;
use crate::fields::message_of;
use crate::message::Message;
use crate::wire::MOST_MESSAGE_LEN;
use std::marker::Model;

/// One encoded message. Clauses see it as the message.
#[derive(Clone, Copy)]
pub struct Parcel {
    bytes: [u8; MOST_MESSAGE_LEN],
    len: u8,
}

impl Model for Parcel {
    ghost use Rattle.gs_layout.specs.declared.message.Message.{Message};

    ghost Value = { Message };

    ghost use Rattle.gs_layout.specs.Reading.{message_in};
    ghost use Rattle.gs_layout.specs.ParcelHeld.{IsParcel, parcel_of, parcel_of-message};

    ghost view = { λ p. message_in p.bytes };

    ghost invariant = { IsParcel };

    ghost inverse = { parcel_of };

    ghost inverse_ok = { parcel_of-message };
}

impl Parcel {
    /// Encodes the message.
    pub fn new(message: &Message) -> Parcel
        requires { IsSpellable message.now }
        ensures { result ≡ message.now }
    {
        let mut bytes = [0; MOST_MESSAGE_LEN];
        let len = encode_message(message, &mut bytes);
        Parcel {
            bytes,
            len: len as u8,
        }
    }

    /// Lends the bytes of the message: 16 to 56, a multiple of 8.
    pub fn as_bytes(&self) -> &[u8]
        ensures value { result.now ≡ spelling self.now }
        ensures spellable { IsSpellable self.now }
    {
        &self.bytes[..self.len as usize]
    }

    /// Returns the message itself.
    pub fn message(&self) -> Message
        ensures { result ≡ self.now }
    {
        message_of(self.as_bytes())
    }
}
