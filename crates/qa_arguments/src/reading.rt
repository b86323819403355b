//! The arguments that a program was started with.

use crate::fault::ArgumentsFault;
use std::rt::Env;
use std::{env, io};

/// Reads the arguments that the program was started with, behind its own name.
///
/// `Refused` comes where one of them, or the name, is not UTF-8, or they cannot be read.
pub fn read_arguments(rt: &(impl Env + AllocGlobal)) -> Result<Vec<String>, ArgumentsFault> {
    match env::args(rt) {
        Ok(arguments) => Ok(arguments.skip(1).collect(rt.alloc())?),
        Err(error) => match error.kind() {
            io::ErrorKind::OutOfMemory => Err(ArgumentsFault::OutOfMemory),
            _ => Err(ArgumentsFault::Refused),
        },
    }
}
