//! The numbers that the calls answer.

/// Done.
pub(crate) const DONE: i32 = 0;

/// There is no memory left: `-ENOMEM`.
pub(crate) const NO_MEMORY: i32 = -12;

/// The bytes aren't what the call is for: `-EINVAL`.
pub(crate) const INVALID: i32 = -22;

/// The output is too short: `-ENOSPC`.
pub(crate) const NO_ROOM: i32 = -28;

/// The object has no property with the key: `-ENOENT`.
pub(crate) const MISSING: i32 = -2;

/// The value under the key is of another type: `-EPROTO`.
pub(crate) const OTHER: i32 = -71;

/// No common value is sought for the values under the key: `-ENOTSUP`.
pub(crate) const UNSUPPORTED: i32 = -95;

/// No value under the key is admitted by both: `-ENODATA`.
pub(crate) const DISJOINT: i32 = -61;

/// The nesting depth is above 1000, the levels that are looked into: `-ELOOP`.
pub(crate) const TOO_DEEP: i32 = -40;

/// A size of the answer is 2^32 or more: `-EOVERFLOW`.
pub(crate) const PAST: i32 = -75;

/// The number of the first of two inputs.
pub(crate) const FIRST: u32 = 0;

/// The number of the second.
pub(crate) const SECOND: u32 = 1;
