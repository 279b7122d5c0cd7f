//! Arguments that are not read.

use crate::fault::Fault;
use std::alloc::AllocError;
use std::env::{Env, FillError};
use std::{io, str};

/// The length in bytes of the longest argument that a system passes, with its end.
const LONGEST: usize = 1 << 21;

/// The error where the system's arguments were not read: with the number of the first that is not
/// UTF-8, if there is one.
pub fn fault_of<R: Env + AllocGlobal>(rt: &R, error: io::Error) -> Fault {
    if error.kind() != io::ErrorKind::InvalidData {
        return Fault::of_system_call(error);
    }
    match first_not_utf8(rt) {
        Ok(Some(number)) => Fault::NotUtf8(number),
        Ok(None) => Fault::of_system_call(error),
        Err(refused) => Fault::from(refused),
    }
}

/// The number of the first argument that is not UTF-8; the name of the program has the number 0.
fn first_not_utf8<R: Env + AllocGlobal>(rt: &R) -> Result<Option<usize>, AllocError> {
    let mut buffer: Vec<u8> = Vec::from_elem(rt.alloc(), 0, LONGEST)?;
    for number in 0..usize::MAX {
        match is_utf8(rt, number, buffer.as_mut_slice()) {
            Some(true) => {}
            Some(false) => return Ok(Some(number)),
            None => break,
        }
    }
    Ok(None)
}

/// Whether the argument of this number is UTF-8, if there is one. One that is longer than the buffer
/// is passed over.
fn is_utf8<R: Env>(rt: &R, number: usize, buffer: &mut [u8]) -> Option<bool> {
    match rt.arg(number, buffer) {
        Ok(length) => Some(str::from_utf8(&buffer[..length]).is_ok()),
        Err(FillError::TooLong) => Some(true),
        Err(FillError::NotPresent) => None,
    }
}
