//! The words of the command line.
use std::env;
use std::io::ErrorKind;

/// Why there are no words.
#[derive(Clone, Copy)]
pub enum NoWords {
    /// A word isn't UTF-8.
    NotText,
    /// Memory was refused.
    OutOfMemory,
}

/// The words after the program's name.
pub fn command_words(rt: &HostRuntime) -> Result<Vec<String>, NoWords> {
    match env::args(rt) {
        Ok(args) => match args.skip(1).collect(rt.alloc()) {
            Ok(words) => Ok(words),
            Err(_) => Err(NoWords::OutOfMemory),
        },
        Err(error) => match error.kind() {
            ErrorKind::OutOfMemory => Err(NoWords::OutOfMemory),
            _ => Err(NoWords::NotText),
        },
    }
}
