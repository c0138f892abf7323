// Lookups and tests.
ghost use Rattle.std.specs.Prelude.{◌≡◌};
ghost use Rattle.xml.specs.Xml.{xml_target};
ghost use Rattle.rules.specs.Entries.{entries};
ghost use Rattle.rules.specs.Phases.{phase_of};
ghost use Rattle.rules.specs.Grades.{grades};
ghost use Rattle.rules.specs.Selectors.{matched};
ghost use Rattle.seclang.specs.Codes.{code_of, lookup_in, test_of, target_of, selector_of};

#[unsafe(no_mangle)]
pub extern "C" fn seclang_lookup(table: u64, name: &[u8]) -> u64
    ensures { result ≡ code_of (lookup_in table name.now) }
{
    seclang::seclang_lookup(table, name)
}

#[unsafe(no_mangle)]
pub extern "C" fn seclang_test(test: u64, code: u64) -> bool
    ensures { result ≡ test_of test code }
{
    seclang::seclang_test(test, code)
}

#[unsafe(no_mangle)]
pub extern "C" fn seclang_xml_target(selection: u64, text: &[u8]) -> u64
    ensures { result ≡ target_of (xml_target selection text.now) }
{
    seclang::seclang_xml_target(selection, text)
}

#[unsafe(no_mangle)]
pub extern "C" fn seclang_phase(records: &[u64]) -> u64
    ensures { result ≡ phase_of (entries records.now) }
{
    seclang::seclang_phase(records)
}

#[unsafe(no_mangle)]
pub extern "C" fn seclang_grade(records: &[u64]) -> bool
    ensures { result ≡ grades (entries records.now) }
{
    seclang::seclang_grade(records)
}

#[unsafe(no_mangle)]
pub extern "C" fn seclang_matches(ranged: bool, start: u64, end: u64, id: u64) -> bool
    ensures { result ≡ matched (selector_of ranged start end) id }
{
    seclang::seclang_matches(ranged, start, end, id)
}
