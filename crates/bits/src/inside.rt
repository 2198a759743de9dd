// What only our own layers call: bits packed into octets. Most ask something of their caller.
ghost use Rattle.std.specs.Prelude.{◌≡◌, ◌+◌, ◌/◌, ◌%◌, ◌^◌, ◌≤◌, ◌<◌, length};
ghost use Rattle.bits.specs.Bits.{bits_of, octets_for, unpack};
ghost use Rattle.bits.specs.Packing.{Ready, Pushed, Flushed};

// The lowest k bits of an octet.
pub fn low(x: u8, k: usize) -> u8
    requires { k < 8 }
    ensures { result ≡ x % 2 ^ k }
{
    x % (1 << k)
}

// How many octets so many bits take.
pub fn octets_for(bits: usize) -> usize
    ensures { result ≡ octets_for bits }
{
    bits.div_ceil(8)
}

// Bits on their way into an octet: where the octet goes, how many bits it has, and their value.
#[derive(Clone, Copy)]
pub struct Packer {
    pub to: usize,
    pub have: usize,
    pub value: usize,
}

impl Packer {
    // No bits yet on their way to a place.
    pub fn new(to: usize) -> Packer
        ensures { result ≡ record { to = to; have = 0; value = 0 } }
    {
        Packer {
            to,
            have: 0,
            value: 0,
        }
    }

    // The m bits of x, after those that are packed.
    pub fn push(self, out: &mut [u8], m: usize, x: u8) -> Packer
        requires ready { Ready out.old self m }
        requires m_bound { (m ≤ 8) × (x < 2 ^ m) }
        ensures { Pushed out.old out.new self result (bits_of m x) }
    {
        let total = self.have + m;
        if total < 8 {
            return Packer {
                to: self.to,
                have: total,
                value: (self.value << m) + usize::from(x),
            };
        }
        let rest = total - 8;
        out[self.to] = ((self.value << (8 - self.have)) + usize::from(x >> rest)) as u8;
        Packer {
            to: self.to + 1,
            have: rest,
            value: usize::from(low(x, rest)),
        }
    }

    // The first n bits of octets, after those that are packed.
    pub fn append(self, out: &mut [u8], src: &[u8], n: usize) -> Packer
        requires ready { Ready out.old self n }
        requires n_bound { octets_for n ≤ length src.now }
        ensures { Pushed out.old out.new self result (unpack n src.now) }
    {
        let mut packer = self;
        for octet in &src[..n / 8] {
            packer = packer.push(out, 8, *octet);
        }
        match n % 8 {
            0 => packer,
            left => packer.push(out, left, src[n / 8] >> (8 - left)),
        }
    }

    // The octet that was begun, written if it has bits; where the next octet goes.
    pub fn flush(self, out: &mut [u8]) -> usize
        requires { Ready out.old self 0 }
        ensures { Flushed out.old out.new self result }
    {
        if self.have == 0 {
            return self.to;
        }
        out[self.to] = (self.value << (8 - self.have)) as u8;
        self.to + 1
    }
}
