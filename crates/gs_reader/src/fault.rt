use thiserror::Error;

/// Why bytes do not begin with a message or a PAD: the first of these that applies. The order is `Short` for
/// fewer than 4 bytes, `BadKind`, `BadLength`, `Short` for fewer bytes than the length says, `BadField`.
#[derive(Clone, Copy, PartialEq, Eq, Debug, Error)]
pub enum ReadFault {
    #[error("fewer than 4 bytes, or fewer than the length says")]
    Short,
    #[error("the kind is not from 1 to 9")]
    BadKind,
    #[error("the length is not one of the kind's")]
    BadLength,
    #[error("a field is out of its range, or a byte that no field names is not zero")]
    BadField,
}
