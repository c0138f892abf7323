// One answer, by the question's letter. docs/VECTORS.md lists the letters.
use crate::buffers::Buffers;
use crate::{
    acting, converting, directing, hexes, indexing, lexing, listings, matching, operating, phasing,
    selecting, targeting, thin, writing,
};
use directives::Version;
use std::io;

// A number, or a word where there is none.
fn print_number(rt: &HostRuntime, n: Option<u64>, none: &str) -> io::Result<()> {
    match n {
        Some(v) => print!(rt; "{v}"),
        None => print!(rt; "{none}"),
    }
}

fn print_unsigned(rt: &HostRuntime, body: &[u8], most: u64) -> io::Result<()> {
    print_number(rt, ascii::unsigned(body, most).ok(), "refused")
}

// The three tests on a code.
fn print_flags(rt: &HostRuntime, code: u64) -> io::Result<()> {
    let collection = u8::from(names::is_collection(code));
    let implemented = u8::from(names::is_implemented(code));
    let argument = u8::from(names::requires_argument(code));
    print!(rt; "{collection} {implemented} {argument}")
}

fn print_trimmed(rt: &HostRuntime, s: &[u8]) -> io::Result<()> {
    let t = ascii::trim(s);
    if t.is_empty() {
        rt.write_all(b"empty")
    } else {
        hexes::print(rt, t)
    }
}

pub fn answer(rt: &HostRuntime, letter: u8, body: &[u8], buffers: &mut Buffers) -> io::Result<()> {
    match letter {
        b'1' => print_unsigned(rt, body, u64::from(u8::MAX)),
        b'2' => print_unsigned(rt, body, u64::from(u16::MAX)),
        b'4' => print_unsigned(rt, body, u64::from(u32::MAX)),
        b'8' => print_unsigned(rt, body, u64::MAX),
        b'i' => print_number(rt, ascii::signed(body).ok(), "refused"),
        b't' => print_trimmed(rt, body),
        b'v' => print_number(rt, names::variable_code(body), "unknown"),
        b'o' => print_number(rt, names::operator_code(body), "unknown"),
        b's' => print_number(rt, names::severity_code(body), "unknown"),
        b'c' => print_flags(rt, hexes::word(body)),
        b'T' => lexing::print_tokens(rt, body, buffers),
        b'P' => lexing::print_plain_tokens(rt, body, buffers),
        b'S' => lexing::print_step(rt, body, buffers),
        b'R' => thin::print_steps(rt, body, buffers),
        b'a' => acting::print_actions(rt, body, buffers),
        b'e' => acting::print_setvar(rt, body, buffers),
        b'l' => targeting::print_variables(rt, body, buffers),
        b'u' => targeting::print_update(rt, body, buffers),
        b'p' => operating::print_operator(rt, body),
        b'D' => directing::print_directives(rt, body, Version::TwoSix, buffers),
        b'E' => directing::print_directives(rt, body, Version::TwoSeven, buffers),
        b'L' => listings::print_listing(rt, body, buffers),
        b'w' => writing::print_written(rt, body, buffers),
        b'x' => selecting::print_xml(rt, body),
        b'm' => matching::print_match(rt, body),
        b'h' => phasing::print_phase(rt, body),
        b'f' => converting::print_converted(rt, spans::span_from_old(hexes::word(body))),
        b'g' => converting::print_converted(rt, spans::span_to_old(hexes::word(body))),
        b'j' => indexing::print_add(rt, body),
        b'k' => indexing::print_remove(rt, body),
        _ => rt.write_all(b"?"),
    }
}
