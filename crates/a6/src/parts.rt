// The parts of data that can be read, and those of a value that is to be written.
ghost use Rattle.std.specs.Prelude.{◌≡◌, ◌≤◌, length, take};
ghost use Rattle.octets.specs.Octets.{Small};
ghost use Rattle.labels.specs.Answers.{standard_by};
ghost use Rattle.a6.specs.Data.{longest, suffix_octets};
ghost use Rattle.a6.specs.Ending.{name_found, name_number};

// What a reader's tests find: the prefix length, the octets of the address that it does not fill, the prefix name, which is all that is left, and whether that
// is in standard form already.
#[derive(Clone, Copy)]
pub struct Found<'a> {
    pub prefix: u8,
    pub suffix: &'a [u8],
    pub name: &'a [u8],
    pub standard: bool,
    ghost low: { prefix ≤ longest },
    ghost whole: { length suffix.now ≡ suffix_octets prefix },
    ghost ended: { name_number prefix name.now ≡ 0 },
    ghost suffix_small: { Small suffix.now },
    ghost name_small: { Small name.now },
    ghost told: { standard ≡ standard_by (name_found prefix name.now) },
}

// A value whose octets are lent: the prefix length, the address, the octets that hold the name, and how many of them are the name.
#[derive(Clone, Copy)]
pub struct Lent<'a> {
    pub prefix: u8,
    pub address: &'a [u8; 16],
    pub octets: &'a [u8; 255],
    pub length: u8,
}

impl<'a> Lent<'a> {
    // The octets of the name.
    pub fn name(self) -> &'a [u8]
        ensures { result.now ≡ take self.entry.length self.entry.octets.now }
    {
        let octets = self.octets;
        &octets[..octets::wide(self.length)]
    }
}
