//! Where the parts of a message stand in its bytes, and how long each is. The writer, the reader, the ring and
//! the definitions take them from here.

/// The length of each message and PAD is a multiple of this.
pub const ALIGNMENT: usize = 8;
/// Where the length of a message, or of a PAD, stands.
pub const LEN_AT: usize = 0;
/// Where the kind of a message, or of a PAD, stands, behind its length.
pub const KIND_AT: usize = 2;
/// How many bytes the length and the kind have. Behind them a PAD has zeros.
pub const FRONT_LEN: usize = 4;
/// Where the thread that a message is about stands.
pub const TID_AT: usize = FRONT_LEN;
/// Where a message's sequence number stands.
pub const TSEQ_AT: usize = 8;
/// Where the CPU stands that the thread was on, or that ticked.
pub const CPU_AT: usize = 12;
/// Where the flags of a message stand.
pub const FLAGS_AT: usize = 14;
/// How many bytes the header of a message has. All messages but creations and new masks end there.
pub const HEADER_LEN: usize = 16;
/// Where the mask of a creation or of a new mask begins.
pub const MASK_AT: usize = HEADER_LEN;
/// How many bytes a mask has.
pub const MASK_LEN: usize = 16;
/// How many bytes a new mask has.
pub const AFFINITY_LEN: usize = MASK_AT + MASK_LEN;
/// Where the class of a creation stands.
pub const CLASS_AT: usize = AFFINITY_LEN;
/// Where the length of a creation's name stands.
pub const NAME_LEN_AT: usize = 33;
/// Where the name of a creation begins.
pub const NAME_AT: usize = 34;
/// The fewest bytes that a creation has: one whose name is empty.
pub const LEAST_CREATION_LEN: usize = 40;
/// How many bytes the shortest creations have from their names on: the name, and zeros behind it.
pub const SHORT_NAME_LEN: usize = LEAST_CREATION_LEN - NAME_AT;
/// How many those have that are longer by [`ALIGNMENT`]. The longest have as many more once more.
pub const MIDDLE_NAME_LEN: usize = SHORT_NAME_LEN + ALIGNMENT;
/// The most bytes that a message has: a creation whose name is as long as a name may be.
pub const MOST_MESSAGE_LEN: usize = 56;
/// The kind of a PAD: bytes in a ring that are passed over.
pub const PAD: u16 = 9;
/// The fewest bytes that a PAD has.
pub const LEAST_PAD_LEN: usize = ALIGNMENT;
/// The most bytes that a PAD has: a multiple of [`ALIGNMENT`] that is less than [`MOST_MESSAGE_LEN`].
pub const MOST_PAD_LEN: usize = 48;
