// Why an action's argument is refused, and the paper's number for it.
ghost use Rattle.std.specs.Prelude.{◌≡◌};
ghost use Rattle.lent.specs.Table.{flaw_number};

#[derive(Clone, Copy, Debug, PartialEq, Eq)]
pub enum Flaw {
    // 10: there is none
    Absent,
    // 11: it says no number
    Unreadable,
    // 12: it says a number past its width
    TooLarge,
}

impl From<Flaw> for u64 {
    ghost from_gives = { λ flaw number. number ≡ flaw_number flaw };

    fn from(flaw: Flaw) -> u64 {
        match flaw {
            Flaw::Absent => 10,
            Flaw::Unreadable => 11,
            Flaw::TooLarge => 12,
        }
    }
}
