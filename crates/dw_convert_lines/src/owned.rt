//! What is owned, and let go of.

/// Drops a value. What owns much is handed on to be dropped, so that its owner's proof doesn't go
/// through all that it owns.
pub(crate) fn drop<T: Drop>(_value: T) {}
