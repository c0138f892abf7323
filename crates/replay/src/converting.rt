// Stored span words: the number, and the word or 0.
use spans::TooFar;
use std::io;

pub fn print_converted(rt: &HostRuntime, answer: Result<u64, TooFar>) -> io::Result<()> {
    match answer {
        Ok(word) => print!(rt; "0 {word}"),
        Err(TooFar) => rt.write_all(b"21 0"),
    }
}
