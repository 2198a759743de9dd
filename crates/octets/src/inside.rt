// What only our own layers call: each function asks something of its caller. Octets are copied, and read and written as numbers.
ghost use Rattle.std.specs.Prelude.{◌≡◌, ◌+◌, ◌^◌, ◌≤◌, ◌<◌, length, take, drop};
ghost use Rattle.std.proofs.Math.Seq.{paste};
ghost use Rattle.octets.specs.Numbers.{value_of, octets_of};

// n octets of src, from `at` on, copied to place `to` of out.
pub fn copy(src: &[u8], at: usize, n: usize, out: &mut [u8], to: usize)
    requires { (at + n ≤ length src.now) × (to + n ≤ length out.old) }
    ensures { out.new ≡ paste out.old to (drop at src.now) n }
{
    // Octet by octet: the library's copy of two lists that are lent is compiled to `memmove`, which the archive for C is not to ask for.
    for i in 0..n {
        out[to + i] = src[at + i];
    }
}

// Copies a list over another one of the same length.
pub fn copy_whole(src: &[u8], out: &mut [u8])
    requires { length out.old ≡ length src.now }
    ensures { out.new ≡ src.now }
{
    copy(src, 0, src.len(), out, 0);
}

// Four octets as one number, the first the highest.
pub fn quarter(octets: &[u8], at: usize) -> u64
    requires { at + 4 ≤ length octets.now }
    ensures { (result ≡ value_of (take 4 (drop at octets.now))) × (result < 2 ^ 32) }
{
    let quarter = [octets[at], octets[at + 1], octets[at + 2], octets[at + 3]];
    u64::from(u32::from_be_bytes(quarter))
}

// Eight octets as one number.
pub fn half(octets: &[u8], at: usize) -> u64
    requires { at + 8 ≤ length octets.now }
    ensures { result ≡ value_of (take 8 (drop at octets.now)) }
{
    quarter(octets, at) * 4294967296 + quarter(octets, at + 4)
}

// Writes the eight octets of a number.
pub fn write(out: &mut [u8], at: usize, v: u64)
    requires { at + 8 ≤ length out.old }
    ensures { out.new ≡ paste out.old at (octets_of 8 v) 8 }
{
    out[at..at + 8].copy_from_slice(&v.to_be_bytes());
}
