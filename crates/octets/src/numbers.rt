// Numbers: their octets, the lesser of two, one as an index.
ghost use Rattle.std.specs.Prelude.{◌≡◌, min};
ghost use Rattle.octets.specs.Numbers.{octets_of};

// The four octets of a number.
pub fn quarter_octets(v: u32) -> [u8; 4]
    ensures { result ≡ octets_of 4 v }
{
    v.to_be_bytes()
}

// The lesser of two numbers.
pub fn lesser(a: u32, b: u32) -> u32
    ensures { result ≡ min a b }
{
    a.min(b)
}

// A number of 16 bits as an index.
pub fn wide(x: u16) -> usize
    ensures { result ≡ x }
{
    usize::from(x)
}
