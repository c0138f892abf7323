// Bytes of a text as one word, the first byte lowest.
ghost use Rattle.std.specs.Prelude.{◌≡◌, ◌+◌, ◌≤◌, length, take, drop};
ghost use Rattle.names.specs.Words.{Packed};

fn four(s: &[u8], at: usize) -> u64
    requires { at + 4 ≤ length s.now }
    ensures { Packed (take 4 (drop at s.now)) result }
{
    let low = u64::from(s[at]) + u64::from(s[at + 1]) * 256;
    low + u64::from(s[at + 2]) * 65536 + u64::from(s[at + 3]) * 16777216
}

// Written without a loop and as one sum, so that it is one load wherever it stands.
pub fn eight(s: &[u8], at: usize) -> u64
    requires { at + 8 ≤ length s.now }
    ensures { Packed (take 8 (drop at s.now)) result }
{
    four(s, at) + four(s, at + 4) * 4294967296
}

// Up to eight bytes.
pub fn up_to_eight(s: &[u8], at: usize, n: usize) -> u64
    requires fits { at + n ≤ length s.now }
    requires few { n ≤ 8 }
    ensures { Packed (take n (drop at s.now)) result }
{
    let mut word = 0;
    for k in (0..n).rev() {
        word = word * 256 + u64::from(s[at + k]);
    }
    word
}
