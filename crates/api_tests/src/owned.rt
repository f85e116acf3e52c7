//! What tests own is let go here.

/// Drops a value. A proof goes through all that a value drops once for its type, and not in each function that
/// owns one.
pub(crate) fn let_go<T: Drop>(_value: T) {}
