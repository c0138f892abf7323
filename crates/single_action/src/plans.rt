// An action by places: what its record will say, and where its texts stand in the piece, so that nothing is copied twice.
use lent::Flaw;

// Where a text of a record comes from.
#[derive(Clone, Copy)]
pub enum Origin {
    Absent,
    // the bytes from `first` up to `past`, as they are or in small letters
    Copied { first: usize, past: usize },
    Lowered { first: usize, past: usize },
    // `tx`, the collection of a name without a dot
    Tx,
    // `1`, the value of a setvar without `=`
    One,
}

// One record: code, number, texts a, b and c, value kind.
#[derive(Clone, Copy)]
pub struct Plan {
    pub code: u64,
    pub number: u64,
    pub a: Origin,
    pub b: Origin,
    pub kind: u64,
    pub c: Origin,
}

// Why a piece has no plan.
#[derive(Clone, Copy)]
pub enum PlanError {
    // 10 to 12: why, and the row of the table whose name it has
    Bad { flaw: Flaw, row: usize },
    // 5: the length of its name
    Unknown(usize),
}
