// XmlTarget::from_selection, on a selection as a record has it: its kind's number, and its text.

#![tactic(auto)]

ghost use Rattle.std.specs.Prelude.{◌≡◌};
ghost use Rattle.xml.specs.Xml.{key_target, xml_target};

// What of an XML body a selection asks for, as in the Rust.
#[derive(Clone, Copy, Debug, PartialEq, Eq)]
pub enum XmlTarget {
    Elements,
    Attributes,
    All,
}

fn key_target(t: &[u8]) -> Option<XmlTarget>
    ensures { result ≡ key_target t.now }
{
    if ascii::same_lowered(t, b"/*") {
        return Some(XmlTarget::Elements);
    }
    if ascii::same_lowered(t, b"//@*") {
        return Some(XmlTarget::Attributes);
    }
    None
}

#[tactic(auto, unfolding(crate::specs::Xml::xml_target))]
pub fn xml_target(selection: u64, text: &[u8]) -> Option<XmlTarget>
    ensures { result ≡ xml_target selection text.now }
{
    match selection {
        0 => Some(XmlTarget::All),
        1 => key_target(ascii::trim(text)),
        _ => None,
    }
}
