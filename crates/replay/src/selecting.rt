// What an XML selection asks for: whether there is a target, and its place in the enum.
use std::io;
use xml::XmlTarget;

// The body is the selection's code, a byte, and then its text.
pub fn print_xml(rt: &HostRuntime, body: &[u8]) -> io::Result<()> {
    let Some((code, text)) = body.split_first() else {
        return Ok(());
    };
    match xml::xml_target(u64::from(*code), text) {
        Some(XmlTarget::Elements) => rt.write_all(b"1 0"),
        Some(XmlTarget::Attributes) => rt.write_all(b"1 1"),
        Some(XmlTarget::All) => rt.write_all(b"1 2"),
        None => rt.write_all(b"0 0"),
    }
}
