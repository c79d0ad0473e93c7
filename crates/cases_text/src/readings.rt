//! What a reader gave: a value, or a fault.

use crate::answers::put_shown;
use crate::complain;
use std::alloc::AllocError;
use std::fmt::Display;

/// The value that was read; none where it was not, after its fault was added.
pub fn value_or_fault<T: Drop, E: Display + Drop>(
    out: &mut String,
    read: Result<Result<T, E>, AllocError>,
) -> Result<Option<T>, AllocError> {
    match read? {
        Ok(value) => Ok(Some(value)),
        Err(fault) => {
            put_shown(out, &fault)?;
            Ok(None)
        }
    }
}

/// The value that was read; another where it was not.
pub fn value_or<T: Drop, E: Drop>(
    read: Result<Result<T, E>, AllocError>,
    otherwise: T,
) -> Result<T, AllocError> {
    match read? {
        Ok(value) => Ok(value),
        Err(_) => Ok(otherwise),
    }
}

/// The value that was read; none where it was not.
pub fn value_if_any<T: Drop, E: Drop>(
    read: Result<Result<T, E>, AllocError>,
) -> Result<Option<T>, AllocError> {
    match read? {
        Ok(value) => Ok(Some(value)),
        Err(_) => Ok(None),
    }
}

/// Whether a text was read as this value.
pub fn is_read_as<T: PartialEq + Drop, E: Drop>(
    read: Result<Result<T, E>, AllocError>,
    value: &T,
) -> Result<bool, AllocError> {
    match read? {
        Ok(read) => Ok(read == *value),
        Err(_) => Ok(false),
    }
}

/// Adds a complaint, unless what was printed of a value was read as this value.
pub fn check_read<T: PartialEq + Drop, E: Drop>(
    out: &mut String,
    read: Result<Result<T, E>, AllocError>,
    value: &T,
) -> Result<(), AllocError> {
    let is_same = is_read_as(read, value)?;
    complain(out, is_same, ", which reads otherwise")
}
