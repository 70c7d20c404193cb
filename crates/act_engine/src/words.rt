//! The words that a program is given.

use act_num::NoMemory;
use std::alloc::Global;
use std::env::Args;
use std::io;
use std::io::ErrorKind;

/// The words behind the program's name. There are none where one of them isn't UTF-8, so that they are of no command's form.
/// `NoMemory` where memory runs out for them.
pub fn words_behind_the_name(
    alloc: Global,
    given: io::Result<Args>,
) -> Result<Vec<String>, NoMemory> {
    match given {
        Ok(given) => gathered(alloc, given),
        Err(error) if error.kind() == ErrorKind::OutOfMemory => Err(NoMemory),
        Err(_) => Ok(Vec::new(alloc)),
    }
}

/// The words behind the first.
fn gathered(alloc: Global, given: Args) -> Result<Vec<String>, NoMemory> {
    let mut words = Vec::new(alloc);
    for word in given.skip(1) {
        words.push(word)?;
    }
    Ok(words)
}
