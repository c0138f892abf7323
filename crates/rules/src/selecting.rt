// One id, or a range of ids: RuleIdSelector (directive.rs).
ghost use Rattle.std.specs.Prelude.{◌≡◌};
ghost use Rattle.rules.specs.Selectors.{matched};

// The Rust's enum, by value.
#[derive(Clone, Copy, Debug, PartialEq, Eq)]
pub enum RuleIdSelector {
    Single(u64),
    // Both ends belong to it; a start above the end leaves nothing.
    Range(u64, u64),
}

impl RuleIdSelector {
    pub fn matches(self, id: u64) -> bool
        ensures { result ≡ matched self id }
    {
        match self {
            RuleIdSelector::Single(s) => id == s,
            RuleIdSelector::Range(start, end) => start <= id && id <= end,
        }
    }
}
