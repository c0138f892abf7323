// The table on paper (docs/PLAIN-LEXER.md): a row for each state, a column for each class of bytes and one for the end of the text. A cell
// is the sum of its acts and of the next state. A state is the place where its row begins, and so a number and no enum, and a column is its
// own number: a step is one addition and one look.
ghost use Rattle.std.specs.Prelude.{◌≡◌, ◌≤◌};
ghost use Rattle.plain.specs.Table.{State, Class, class_of, cell};
ghost use Rattle.plain.specs.Coding.{code, class_code, encode, column_digits, cell_numbers, ends_in, joins_in};

// Between tokens; behind a backslash, B; behind a backslash and CR, C.
pub const S: usize = 0;

const SB: usize = 11;

const SC: usize = 22;

// In a word.
const W: usize = 33;

const WB: usize = 44;

const WC: usize = 55;

// In a comment.
pub const K: usize = 66;

// In double marks; in the blanks behind an escaped line end, M.
const D: usize = 77;

const DB: usize = 88;

const DC: usize = 99;

const DM: usize = 110;

// In single marks.
const Q: usize = 121;

const QB: usize = 132;

const QC: usize = 143;

const QM: usize = 154;

// Reading stops before this byte, or at the end of the text: no row begins here.
pub const HALT: usize = 32768;

// The backslash that was held back joins the text.
pub const KEEP: usize = 1024;

// The open token ends before this byte, a byte earlier, or with this byte.
const END: usize = 2048;

const CUT: usize = 4096;

const SHUT: usize = 6144;

// A Newline of this byte.
pub const LINE: usize = 8192;

// A token begins with this byte.
pub const OPEN: usize = 16384;

// This byte joins the text, or the byte that n, t or r stands for.
pub const JOIN: usize = 256;

pub const STAND: usize = 512;

// The column of each byte, as a digit.
pub const COLUMNS: [u8; 256] =
    *b"9999999992033199999999999999999929579996999999999999999999999999999999999999999999999999999949999999999999999989998989999999999999999999999999999999999999999999999999999999999999999999999999999999999999999999999999999999999999999999999999999999999999999999";

// The column of the end of the text.
pub const OVER: usize = 10;

// Columns: LF; CR; space and tab; VT and FF; backslash; double mark; single mark; #; n, t and r; any other; the end of the text.
pub const CELLS: [usize; 165] = [
    // S
    LINE + S,
    S,
    S,
    HALT,
    SB,
    OPEN + D,
    OPEN + Q,
    OPEN + K,
    OPEN + JOIN + W,
    OPEN + JOIN + W,
    HALT,
    // SB
    S,
    SC,
    S,
    HALT,
    SB,
    OPEN + D,
    OPEN + Q,
    OPEN + K,
    OPEN + JOIN + W,
    OPEN + JOIN + W,
    HALT,
    // SC
    S,
    S,
    S,
    HALT,
    SB,
    OPEN + D,
    OPEN + Q,
    OPEN + K,
    OPEN + JOIN + W,
    OPEN + JOIN + W,
    HALT,
    // W
    END + LINE + S,
    END + S,
    END + S,
    END + HALT,
    WB,
    END + OPEN + D,
    END + OPEN + Q,
    END + OPEN + K,
    JOIN + W,
    JOIN + W,
    END + HALT,
    // WB
    W,
    WC,
    KEEP + END + S,
    KEEP + END + HALT,
    KEEP + WB,
    KEEP + END + OPEN + D,
    KEEP + END + OPEN + Q,
    KEEP + END + OPEN + K,
    KEEP + JOIN + W,
    KEEP + JOIN + W,
    KEEP + END + HALT,
    // WC
    W,
    KEEP + CUT + S,
    KEEP + CUT + S,
    KEEP + CUT + HALT,
    KEEP + CUT + SB,
    KEEP + CUT + OPEN + D,
    KEEP + CUT + OPEN + Q,
    KEEP + CUT + OPEN + K,
    KEEP + CUT + OPEN + JOIN + W,
    KEEP + CUT + OPEN + JOIN + W,
    KEEP + CUT + HALT,
    // K
    SHUT + S,
    K,
    K,
    K,
    K,
    K,
    K,
    K,
    K,
    K,
    END + HALT,
    // D
    JOIN + D,
    JOIN + D,
    JOIN + D,
    JOIN + D,
    DB,
    SHUT + S,
    JOIN + D,
    JOIN + D,
    JOIN + D,
    JOIN + D,
    END + HALT,
    // DB
    DM,
    DC,
    KEEP + JOIN + D,
    KEEP + JOIN + D,
    JOIN + D,
    JOIN + D,
    JOIN + D,
    KEEP + JOIN + D,
    STAND + D,
    KEEP + JOIN + D,
    END + HALT,
    // DC
    DM,
    JOIN + D,
    DM,
    JOIN + D,
    DB,
    SHUT + S,
    JOIN + D,
    JOIN + D,
    JOIN + D,
    JOIN + D,
    END + HALT,
    // DM
    JOIN + D,
    JOIN + D,
    DM,
    JOIN + D,
    DB,
    SHUT + S,
    JOIN + D,
    JOIN + D,
    JOIN + D,
    JOIN + D,
    END + HALT,
    // Q
    JOIN + Q,
    JOIN + Q,
    JOIN + Q,
    JOIN + Q,
    QB,
    JOIN + Q,
    SHUT + S,
    JOIN + Q,
    JOIN + Q,
    JOIN + Q,
    END + HALT,
    // QB
    QM,
    QC,
    KEEP + JOIN + Q,
    KEEP + JOIN + Q,
    JOIN + Q,
    JOIN + Q,
    JOIN + Q,
    KEEP + JOIN + Q,
    STAND + Q,
    KEEP + JOIN + Q,
    END + HALT,
    // QC
    QM,
    JOIN + Q,
    QM,
    JOIN + Q,
    QB,
    JOIN + Q,
    SHUT + S,
    JOIN + Q,
    JOIN + Q,
    JOIN + Q,
    END + HALT,
    // QM
    JOIN + Q,
    JOIN + Q,
    QM,
    JOIN + Q,
    QB,
    JOIN + Q,
    SHUT + S,
    JOIN + Q,
    JOIN + Q,
    JOIN + Q,
    END + HALT,
];

// Where the open token ends, if it does: before this byte, a byte earlier, or with this byte.
#[derive(Clone, Copy)]
pub enum Ends {
    Stays,
    Here,
    Earlier,
    WithIt,
}

// What this byte gives to the text: nothing, itself, or the byte that the letter n, t or r stands for.
#[derive(Clone, Copy)]
pub enum Joins {
    Nothing,
    Itself,
    Control,
}

// A cell says both by a digit: 0, or that of END, CUT and SHUT, or of JOIN and STAND.
pub fn ends_in(x: usize) -> Ends
    ensures { result ≡ ends_in x }
{
    match x / END % 4 {
        0 => Ends::Stays,
        1 => Ends::Here,
        2 => Ends::Earlier,
        _ => Ends::WithIt,
    }
}

pub fn joins_in(x: usize) -> Joins
    ensures { result ≡ joins_in x }
{
    match x / JOIN % 4 {
        0 => Joins::Nothing,
        1 => Joins::Itself,
        _ => Joins::Control,
    }
}

// The column of a byte. The list is lent, since a constant that is indexed is laid out anew each time.
pub fn column_of(columns: &[u8; 256], b: u8) -> usize
    requires { columns.now ≡ column_digits }
    ensures { result ≡ class_code (class_of b) }
{
    usize::from(columns[usize::from(b)] - b'0')
}

// The cell of a state and a column.
pub fn cell_of(cells: &[usize; 165], state: usize, column: usize) -> usize
    requires cells_value { cells.now ≡ cell_numbers }
    requires state_bound { (state ≤ 154) × (column ≤ 10) }
    ensures { (q : State) (k : Class) → state ≡ code q → column ≡ class_code k → result ≡ encode (cell q k) }
{
    cells[state + column]
}
