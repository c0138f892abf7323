// Lookups, tests, and what a rule's records say.
ghost use Rattle.std.specs.Prelude.{◌≡◌};
ghost use Rattle.xml.specs.Xml.{xml_target};
ghost use Rattle.rules.specs.Entries.{entries};
ghost use Rattle.rules.specs.Phases.{phase_of};
ghost use Rattle.rules.specs.Grades.{grades};
ghost use Rattle.rules.specs.Selectors.{matched};
ghost use Rattle.seclang.specs.Codes.{code_of, lookup_in, test_of, target_of, selector_of};

use rules::RuleIdSelector;
use xml::XmlTarget;

#[tactic(auto, unfolding(crate::specs::Codes::lookup_in))]
pub fn seclang_lookup(table: u64, name: &[u8]) -> u64
    ensures { result ≡ code_of (lookup_in table name.now) }
{
    let found = match table {
        0 => names::variable_code(name),
        1 => names::operator_code(name),
        2 => names::severity_code(name),
        _ => None,
    };
    found.unwrap_or(u64::MAX)
}

#[tactic(auto, unfolding(crate::specs::Codes::test_of))]
pub fn seclang_test(test: u64, code: u64) -> bool
    ensures { result ≡ test_of test code }
{
    match test {
        0 => names::is_collection(code),
        1 => names::is_implemented(code),
        2 => names::requires_argument(code),
        _ => false,
    }
}

pub fn seclang_xml_target(selection: u64, text: &[u8]) -> u64
    ensures { result ≡ target_of (xml_target selection text.now) }
{
    match xml::xml_target(selection, text) {
        Some(XmlTarget::Elements) => 0,
        Some(XmlTarget::Attributes) => 1,
        Some(XmlTarget::All) => 2,
        None => 3,
    }
}

pub fn seclang_phase(records: &[u64]) -> u64
    ensures { result ≡ phase_of (entries records.now) }
{
    rules::phase(records)
}

pub fn seclang_grade(records: &[u64]) -> bool
    ensures { result ≡ grades (entries records.now) }
{
    rules::grade(records)
}

pub fn selector(ranged: bool, start: u64, end: u64) -> RuleIdSelector
    ensures { result ≡ selector_of ranged start end }
{
    if ranged {
        RuleIdSelector::Range(start, end)
    } else {
        RuleIdSelector::Single(start)
    }
}

pub fn seclang_matches(ranged: bool, start: u64, end: u64, id: u64) -> bool
    ensures { result ≡ matched (selector_of ranged start end) id }
{
    selector(ranged, start, end).matches(id)
}
