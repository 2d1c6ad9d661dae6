// What is said on standard error. Where nobody hears it, nothing else is lost.
use super::Stop;
use std::fmt::InlineText;
use std::io;

// Bytes of the system's words for an error that are kept, at most.
const WORDS: usize = 256;

// Says what failed and why, in the system's words.
pub(crate) fn fail<R: Eprint>(rt: &R, what: &str, error: io::Error) -> Stop {
    let text = InlineText::<WORDS>::of(error);
    let words = without_number(text.as_str());
    let _ = eprintln!(rt; "{what}: {words}");
    Stop::Said
}

// An error's text without the system's number, which std puts after it.
fn without_number(text: &str) -> &str {
    match text.split_once(" (os error ") {
        Some((words, _)) => words,
        None => text,
    }
}
