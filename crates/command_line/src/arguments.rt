use std::alloc::AllocError;
use std::env;
use std::io::ErrorKind;
use std::rt::Env;

/// The words after the program's name; none where one of them is no text. It fails for want of
/// memory.
pub fn words<R: Env + AllocGlobal>(rt: &R) -> Result<Vec<String>, AllocError> {
    let mut words = Vec::new(rt.alloc());
    let given = match env::args(rt) {
        Ok(given) => given,
        Err(fault) => {
            return match fault.kind() {
                ErrorKind::OutOfMemory => Err(AllocError),
                _ => Ok(words),
            };
        }
    };
    for word in given.skip(1) {
        words.push(word)?;
    }
    Ok(words)
}
