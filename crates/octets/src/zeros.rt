// Octets that are all zero.
ghost use Rattle.std.specs.Prelude.{◌≡◌, drop, bit_or};
ghost use Rattle.std.specs.List.{fold};
ghost use Rattle.octets.specs.Zeros.{is_blank};

// Whether every octet from a place on is zero. Each is looked at, which is faster than to stop at the first that is set.
pub fn is_blank(s: &[u8], from: usize) -> bool
    ensures { result ≡ is_blank (drop from s.now) }
{
    joined(&s[from.min(s.len())..]) == 0
}

// All octets joined by OR.
fn joined(s: &[u8]) -> u8
    ensures { result ≡ fold bit_or 0 s.now }
{
    s.iter().fold(0, |all, x| all | *x)
}
