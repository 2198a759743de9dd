// What only our own layers call: the reader and the writer in parts, which each layout of the same values puts together; outputs are lent.
// A layout is its tests, and how many octets of the address stand before the prefix length: a trait for two of them would replace two bodies of one line.
ghost use Rattle.std.specs.Prelude.{◌≡◌, ◌+◌, ◌-◌, ◌%◌, ◌^◌, ◌≤◌, ◌<◌, max, length, IfOk};
ghost use Rattle.octets.specs.Octets.{blank};
ghost use Rattle.octets.specs.Answers.{answer_by, out_by};
ghost use Rattle.octets.specs.Refusals.{number_of, answered};
ghost use Rattle.labels.specs.Answers.{standard_by};
ghost use Rattle.address.specs.Address.{join_of};
ghost use Rattle.a6.specs.Data.{longest, suffix_octets, octets_of};
ghost use Rattle.a6.specs.Ending.{name_found, name_number, name_in};
ghost use Rattle.a6.specs.Read.{read_number, value_of};
ghost use Rattle.a6.specs.Accepted.{name_fits, value_number, room_number};
ghost use Rattle.a6.specs.Parts.{in_last, value_at, lent_value, Tells, laid, laid_of, laid_number};

use crate::Value;
pub use crate::parts::{Found, Lent};
use octets::inside::copy_whole;
use octets::{Done, Refusal};

// The longest prefix (01, A6 data).
pub const LONGEST: u8 = 128;

// The reader's tests in 01's order (What comes back).
pub fn check(rdata: &[u8]) -> Result<Found<'_>, Refusal>
    ensures { Tells result (read_number rdata.now) (value_of rdata.now) }
{
    if rdata.is_empty() {
        return Err(Refusal::Short);
    }
    let prefix = rdata[0];
    if LONGEST < prefix {
        return Err(Refusal::Prefix);
    }
    let rest = 1 + suffix_octets(prefix);
    if rdata.len() < rest {
        return Err(Refusal::Short);
    }
    let suffix = &rdata[1..rest];
    let name = &rdata[rest..];
    let standard = ending(prefix, name)?;
    Ok(Found {
        prefix,
        suffix,
        name,
        standard,
    })
}

// How data ends whose other parts are there: the prefix name, if one is due, and nothing after it; and whether that name is in standard form already.
pub fn ending(prefix: u8, rest: &[u8]) -> Result<bool, Refusal>
    ensures number { number_of result ≡ name_number prefix rest.now }
    ensures standard { IfOk result (λ s. s ≡ standard_by (name_found prefix rest.now)) }
{
    let name = name_found(prefix, rest)?;
    if name.used < rest.len() {
        return Err(Refusal::LeftOver);
    }
    Ok(name.standard)
}

// What is found of the prefix name: none is due at L = 0.
fn name_found(prefix: u8, rest: &[u8]) -> Result<labels::Scanned, Refusal>
    ensures { result ≡ name_found prefix rest.now }
{
    if prefix == 0 {
        return Ok(labels::Scanned {
            used: 0,
            standard: true,
        });
    }
    labels::scan(rest)
}

impl Found<'_> {
    // The value that the data stands for.
    pub fn value(self) -> Value
        ensures { result ≡ value_at self.entry }
    {
        let mut address = [0u8; 16];
        put_address(self.prefix, self.suffix, &mut address);
        let mut octets = [0u8; 255];
        let length = put_name(self.name, self.prefix, self.standard, &mut octets);
        Value {
            prefix: self.prefix,
            address,
            name: names::Name { octets, length },
        }
    }
}

// The address over zeros: the suffix in the last of sixteen octets, without the bits before the prefix's end.
pub fn put_address(prefix: u8, suffix: &[u8], out: &mut [u8])
    requires { (prefix ≤ longest) × (length suffix.now ≡ suffix_octets prefix) × (out.old ≡ blank 16) }
    ensures { out.new ≡ join_of (blank 16) (in_last prefix suffix.now) prefix }
{
    let first = 16 - suffix.len();
    copy_whole(suffix, &mut out[first..]);
    if first < 16 {
        out[first] = unpadded(out[first], prefix % 8);
    }
}

// The name of data that ends well, in standard form over zeros, and its length; none at L = 0. `standard` is what the tests say of it.
pub fn put_name(name: &[u8], prefix: u8, standard: bool, out: &mut [u8]) -> u8
    requires { (name_number prefix name.now ≡ 0) × (standard ≡ standard_by (name_found prefix name.now)) × (out.old ≡ blank 255) }
    ensures { (out.new ≡ (name_in prefix name.now).octets) × (result ≡ (name_in prefix name.now).length) }
{
    if prefix == 0 {
        return 0;
    }
    names::inside::put_standard(name, standard, out) as u8
}

impl Value {
    // The value with its octets lent.
    pub fn lent(&self) -> Lent<'_>
        ensures { lent_value result ≡ self.now }
    {
        Lent {
            prefix: self.prefix,
            address: &self.address,
            octets: &self.name.octets,
            length: self.name.length,
        }
    }
}

// The data of a value, with zeros after it, and its length, in the layout that has `before` octets of the address before the prefix length, and behind it those
// that neither the prefix fills nor stand before it: `Prefix` for a prefix length over 128, `Malformed` for a value that a reader cannot give, `Room` for an
// output that is too short.
// The parts of the value are lent, since a copy of its octets takes longer than all else that a writer does.
pub fn lay(value: Lent, before: usize, out: &mut [u8]) -> Result<Done, Refusal>
    requires { before ≤ 16 }
    ensures value { answered result ≡ answer_by (laid_number (lent_value value.entry) before (length out.old)) (length (laid_of (lent_value value.entry) before)) 0 }
    ensures out_after { out.new ≡ out_by (laid_number (lent_value value.entry) before (length out.old)) (laid_of (lent_value value.entry) before) (length out.old) }
{
    octets::clear(out);
    check_value(value)?;
    put_data(value, before, out)
}

// Whether a value is one that a reader gives, and so one that a writer takes.
fn check_value(value: Lent) -> Result<(), Refusal>
    ensures { number_of result ≡ value_number (lent_value value.entry) }
{
    if LONGEST < value.prefix {
        return Err(Refusal::Prefix);
    }
    if !name_fits(value.prefix, value.name()) {
        return Err(Refusal::Malformed);
    }
    let octets = value.octets;
    if !octets::zeros::is_blank(octets, octets::wide(value.length)) {
        return Err(Refusal::Malformed);
    }
    let address = value.address;
    if !address::is_clear(address, value.prefix) {
        return Err(Refusal::Malformed);
    }
    Ok(())
}

// The data of a value over zeros, and its length: `before` octets of the address, the prefix length, the octets of the address that neither stand before it nor
// are filled by the prefix, the name; `Room` where there is no room.
fn put_data(value: Lent, before: usize, out: &mut [u8]) -> Result<Done, Refusal>
    requires { (value.prefix ≤ longest) × (before ≤ 16) × (out.old ≡ blank (length out.old)) }
    ensures value { answered result ≡ answer_by (room_number (laid_of (lent_value value.entry) before) (length out.old)) (length (laid_of (lent_value value.entry) before)) 0 }
    ensures out_after { out.new ≡ out_by (room_number (laid_of (lent_value value.entry) before) (length out.old)) (laid_of (lent_value value.entry) before) (length out.old) }
{
    let after = before.max(octets::wide(value.prefix / 8));
    let address = value.address;
    let back = &address[after..];
    let name = value.name();
    let next = before + 1;
    let end = next + (16 - after);
    let size = end + name.len();
    if out.len() < size {
        return Err(Refusal::Room);
    }
    copy_whole(&address[..before], &mut out[..before]);
    out[before] = value.prefix;
    copy_whole(back, &mut out[next..end]);
    copy_whole(name, &mut out[end..size]);
    Ok(Done {
        count: size as u32,
        work: 0,
    })
}

// The octets of suffix that a prefix length leaves.
fn suffix_octets(prefix: u8) -> usize
    requires { prefix ≤ longest }
    ensures { (result ≡ suffix_octets prefix) × (result ≤ 16) }
{
    16 - octets::wide(prefix / 8)
}

// Whether a name is what the prefix length asks for.
fn name_fits(prefix: u8, name: &[u8]) -> bool
    ensures { result ≡ name_fits prefix name.now }
{
    if prefix == 0 {
        return name.is_empty();
    }
    names::is_standard(name)
}

// An octet whose first p bits are made zero.
fn unpadded(x: u8, p: u8) -> u8
    requires { p < 8 }
    ensures { result ≡ x % 2 ^ (8 - p) }
{
    x & (255u8 >> p)
}
