// Numbers in text.
ghost use Rattle.std.specs.Prelude.{◌≡◌, ◌+◌, drop};
ghost use Rattle.text.specs.Decimal.{digit_count, is_decimal, decimal_at};

// What is read of a decimal: whether one stands there, its value, and the place after its digits.
// The value is promised of digits that are no decimal too, so it stands beside the flag and not in an `Option`.
#[derive(Clone, Copy, Debug, PartialEq, Eq)]
pub struct Decimal {
    pub formed: bool,
    pub value: u64,
    pub next: usize,
}

// Reads the digits from a place on as a decimal with no needless zero. A value over the bound is given as one more than the bound.
pub fn read_decimal(s: &[u8], from: usize, bound: u32) -> Decimal
    ensures { result ≡ decimal_at s.now from bound }
{
    let cap = u64::from(bound) + 1;
    let mut value: u64 = 0;
    let mut next = from;
    // The place is part of the answer and may lie past the end, so the loop counts it.
    while next < s.len() && s[next].is_ascii_digit() {
        value = (value * 10 + u64::from(s[next] - b'0')).min(cap);
        next += 1;
    }
    let formed = is_formed(s, from, next);
    Decimal {
        formed,
        value,
        next,
    }
}

// Whether the digits between two places are a decimal: there is one, and no needless zero.
fn is_formed(s: &[u8], from: usize, to: usize) -> bool
    requires { to ≡ from + digit_count (drop from s.now) }
    ensures { result ≡ is_decimal (drop from s.now) }
{
    from < to && (s[from] != b'0' || to == from + 1)
}
