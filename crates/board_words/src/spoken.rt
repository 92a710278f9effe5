//! The words that a program was started with.

use crate::word::{NoMemory, Word};
use std::alloc::AllocError;
use std::env;
use std::io::ErrorKind;

/// The words after the program's name. Where one of them is not UTF-8 there are none, which is no command.
pub fn spoken_words(rt: &HostRuntime) -> Result<Vec<Word>, NoMemory> {
    let mut words = Vec::new(rt.alloc());
    let args = match env::args(rt) {
        Ok(args) => args,
        Err(error) if error.kind() == ErrorKind::OutOfMemory => return Err(AllocError),
        Err(_) => return Ok(words),
    };
    for arg in args.skip(1) {
        words.push(Word::of(rt.alloc(), arg.as_bytes())?)?;
    }
    Ok(words)
}
