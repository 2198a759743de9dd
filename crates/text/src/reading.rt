// Addresses read from text.
ghost use Rattle.std.specs.Prelude.{◌≡◌, false, ◌+◌, ◌^◌, ◌≤◌, ◌<◌, length};
ghost use Rattle.octets.specs.Each.{Under};
ghost use Rattle.text.specs.Written.{written};
ghost use Rattle.text.specs.Digits.{digit_in};
ghost use Rattle.text.specs.Groups.{octets_of};
ghost use Rattle.text.specs.AddressText.{side_groups, has_gap, may_stand};
ghost use Rattle.text.specs.Reading.{whole_of, address_at};
ghost use Rattle.text.specs.Sides.{step_of, count_of, sides_of, gap_found};

// How far groups have been passed: the digits of the group at hand, and the groups that have ended.
#[derive(Clone, Copy, Debug, PartialEq, Eq)]
pub struct Tally {
    pub digits: usize,
    pub groups: usize,
}

// The address that stands at a place, and the place after the octets that may stand in one.
#[derive(Clone, Copy, Debug, PartialEq, Eq)]
pub struct Found {
    pub address: Option<[u8; 16]>,
    pub next: usize,
}

// Reads the hexadecimal digits and colons from a place on as an address in any form of RFC 4291 but one with a dotted quad.
pub fn read_address(s: &[u8], from: usize) -> Found
    ensures { result ≡ address_at s.now from }
{
    let next = crate::inside::pass(s, from, may_stand);
    if s.len() < from {
        return Found {
            address: None,
            next,
        };
    }
    Found {
        address: read_whole(&s[from..next]),
        next,
    }
}

// Reads text as an address.
pub fn read_whole(text: &[u8]) -> Option<[u8; 16]>
    ensures { result ≡ whole_of text.now }
{
    match gap(text) {
        Some(at) => read_sides(&text[..at], &text[at + 2..]),
        None => read_full(text),
    }
}

// Reads text without two colons side by side.
fn read_full(text: &[u8]) -> Option<[u8; 16]>
    requires { has_gap text.now ≡ false }
    ensures { result ≡ whole_of text.now }
{
    if count_groups(text)? != 8 {
        return None;
    }
    let mut groups = [0u16; 8];
    put_groups(text, &mut groups, 0);
    Some(octets_of(groups))
}

// Reads the text before two colons and the text after them.
fn read_sides(front: &[u8], back: &[u8]) -> Option<[u8; 16]>
    ensures { result ≡ sides_of front.now back.now }
{
    let m = count_groups(front)?;
    let n = count_groups(back)?;
    if 7 < m.saturating_add(n) {
        return None;
    }
    let mut groups = [0u16; 8];
    put_groups(front, &mut groups, 0);
    put_groups(back, &mut groups, 8 - n);
    Some(octets_of(groups))
}

// The octets from '0' to 'f' that may stand in an address, a bit each.
const STANDING: u64 = 0x7e_0000_007e_07ff;

// Whether an octet may stand in an address: a hexadecimal digit or a colon.
// By one test, since digits, letters and colons come in no order that a branch could foresee.
fn may_stand(c: u8) -> bool
    ensures { result ≡ may_stand c }
{
    match c {
        b'0'..=b'f' => (STANDING >> u32::from(c - b'0')) % 2 == 1,
        _ => false,
    }
}

// The hexadecimal digit that an octet writes that is no colon; 16 where it writes none.
// A number and no `Option`, since it is made without a branch.
fn hexadecimal(c: u8) -> u16
    requires { c ≡ 58 → ⊥ }
    ensures { (result ≡ digit_in c) × (result ≤ 16) }
{
    if !may_stand(c) {
        return 16;
    }
    let x = u16::from(c);
    x % 16 + 9 * (x / 64)
}

// The hexadecimal digit that any octet writes; 16 where it writes none.
pub fn digit_in(c: u8) -> u16
    ensures { (result ≡ digit_in c) × (result ≤ 16) }
{
    if c == b':' { 16 } else { hexadecimal(c) }
}

// Two colons as one number.
const COLONS: u16 = 14906;

// How many octets stand before the first two colons.
fn gap(text: &[u8]) -> Option<usize>
    ensures { result ≡ gap_found text.now }
{
    for end in 1..text.len() {
        if u16::from_be_bytes([text[end - 1], text[end]]) == COLONS {
            return Some(end - 1);
        }
    }
    None
}

// One octet more of text that is groups, unless it may not stand there.
fn step(t: Tally, c: u8) -> Option<Tally>
    requires { (t.digits ≤ 4) × (t.groups + 1 < 2 ^ 64) }
    ensures { result ≡ step_of t c }
{
    let Tally { digits, groups } = t;
    if c == b':' {
        if digits == 0 {
            return None;
        }
        return Some(Tally {
            digits: 0,
            groups: groups + 1,
        });
    }
    if digits == 4 || hexadecimal(c) == 16 {
        return None;
    }
    Some(Tally {
        digits: digits + 1,
        groups,
    })
}

// Writes the groups that text names into a list of numbers from a place on.
fn put_groups(text: &[u8], out: &mut [u16], at: usize)
    requires under { Under 65536 (side_groups text.now) }
    requires text_in_bounds { at + length (side_groups text.now) ≤ length out.old }
    ensures { out.new ≡ written out.old at (side_groups text.now) }
{
    if text.is_empty() {
        return;
    }
    let mut next = at;
    let mut v: u16 = 0;
    for c in text {
        if *c == b':' {
            out[next] = v;
            next += 1;
            v = 0;
        } else {
            v = v * 16 + hexadecimal(*c);
        }
    }
    out[next] = v;
}

// How many groups text is, none where it is empty; nothing where it is no groups.
fn count_groups(text: &[u8]) -> Option<usize>
    ensures { result ≡ count_of text.now }
{
    if text.is_empty() {
        return Some(0);
    }
    let mut t = Tally {
        digits: 0,
        groups: 0,
    };
    for c in text {
        t = step(t, *c)?;
    }
    if t.digits == 0 {
        return None;
    }
    Some(t.groups + 1)
}

// The octets of eight groups.
fn octets_of(g: [u16; 8]) -> [u8; 16]
    ensures { result ≡ octets_of g }
{
    let mut octets = [0u8; 16];
    for i in 0..8 {
        let two = g[i].to_be_bytes();
        octets[2 * i] = two[0];
        octets[2 * i + 1] = two[1];
    }
    octets
}
