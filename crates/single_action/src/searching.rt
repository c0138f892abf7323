// Searching for a macro.
ghost use Rattle.std.specs.Prelude.{◌≡◌};
ghost use Rattle.single_action.specs.Setvar.{has_macro};

// Whether `%{` stands anywhere in it.
pub fn has_macro(s: &[u8]) -> bool
    ensures { result ≡ has_macro s.now }
{
    for i in 1..s.len() {
        if s[i] == b'{' && s[i - 1] == b'%' {
            return true;
        }
    }
    false
}
