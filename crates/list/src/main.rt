// Lists the tokens of a SecRule package, a file or standard input, as one JSON array and a line feed on standard output.
// What cannot be read or written is told on standard error, and the program's exit status stays 0: tools/list makes one.

#![tactic(auto)]

mod printing;
mod reading;

use std::env::FillError;
use std::fs::{self, File};
use std::io::{self, ErrorKind, Read};
use std::rt::Env;

// C's ENAMETOOLONG.
const NAME_TOO_LONG: i32 = 36;

// What failed, a colon and the error's text, without the number that std puts behind it.
fn tell(rt: &HostRuntime, what: &[u8], error: &io::Error) -> io::Result<()> {
    let text = format!(in rt.alloc(); "{error}")?;
    let len = text.find(" (os error ").unwrap_or(text.len());
    let told = rt.stderr();
    told.write_all(b"list: ")?;
    told.write_all(what)?;
    told.write_all(b": ")?;
    told.write_all(&text.as_bytes()[..len])?;
    told.write_all(b"\n")
}

// Room for the longest line. A function's result, so that the check need not count an array of this size one by one.
fn room() -> [u8; listing::LIST_LINE] {
    [0u8; listing::LIST_LINE]
}

// Reads to the end of the input, or one byte past the limit, which is enough to refuse it.
fn list_from<R: Read>(rt: &HostRuntime, from: &mut R, name: &[u8]) -> io::Result<()> {
    let mut input = [0u8; listing::LIST_LIMIT + 1];
    let n = match reading::read_all(from, &mut input) {
        Ok(n) => n,
        Err(error) => return tell(rt, name, &error),
    };
    let mut out = room();
    let len = printing::line_of(&input[..n], &mut out);
    match rt.stdout().write_all(&out[..len]) {
        Ok(()) => Ok(()),
        Err(error) => tell(rt, b"standard output", &error),
    }
}

// std opens files by names that are UTF-8.
fn open_read(rt: &HostRuntime, path: &[u8]) -> io::Result<File> {
    match str::from_utf8(path) {
        Ok(path) => fs::open(rt, path),
        Err(_) => Err(io::Error::from(ErrorKind::InvalidFilename)),
    }
}

fn list_file(rt: &HostRuntime, path: &[u8]) -> io::Result<()> {
    match open_read(rt, path) {
        Ok(mut file) => list_from(rt, &mut file, path),
        Err(error) => tell(rt, path, &error),
    }
}

fn main(rt: HostRuntime) -> io::Result<()> {
    let mut path = [0u8; 4096];
    let named = rt.arg(1, &mut path);
    if let Err(FillError::NotPresent) = named {
        return list_from(&rt, &mut rt.stdin(), b"standard input");
    }
    let mut second = [0u8; 1];
    let Err(FillError::NotPresent) = rt.arg(2, &mut second) else {
        return rt.stderr().write_all(b"list: one file at a time\n");
    };
    match named {
        Ok(n) => list_file(&rt, &path[..n]),
        Err(_) => {
            let error = io::Error::from_raw_os_error(NAME_TOO_LONG);
            tell(&rt, b"the file's name", &error)
        }
    }
}
