// What only our own layers call: each function asks something of its caller. A name in wire form is written as text.
ghost use Rattle.std.specs.Prelude.{◌≡◌, true, map, ◌+◌, ◌-◌, ◌*◌, ◌/◌, ◌≤◌, ◌<◌, length, get_or, take};
ghost use Rattle.bits.specs.Bits.{octets_for};
ghost use Rattle.labels.specs.Scan.{well_formed};
ghost use Rattle.names.specs.Merge.{Begins};
ghost use Rattle.text.specs.Written.{Put};
ghost use Rattle.nametext.specs.Characters.{hex_digit};
ghost use Rattle.nametext.specs.Writing.{octet_text, ordinary_text, nibbles, digits_for, text_of};
ghost use Rattle.nametext.specs.Put.{nibble_of, raw_bits, Labelled};

use names::Place;

// The text of a well-formed name from `to` on, and where it ends. Four octets for each octet of the name are room enough.
pub fn put_name(name: &[u8], out: &mut [u8], to: usize) -> usize
    requires { (well_formed name.now ≡ true) × (to + 4 * length name.now ≤ length out.old) }
    ensures { Put out.old out.new to result (text_of name.now) }
{
    if name[0] == 0 {
        out[to] = b'.';
        return to + 1;
    }
    // Each label says where the next one begins.
    let mut at: usize = 0;
    let mut end = to;
    while name[at] != 0 {
        let p = put_label(name, at, out, end);
        at = p.at;
        end = p.to;
    }
    end
}

// The label at `at` and a dot, from `to` on.
fn put_label(name: &[u8], at: usize, out: &mut [u8], to: usize) -> Place
    requires begins { Begins name.now at }
    requires nonzero { (0 < get_or name.now at 0) × (to + 4 * (length name.now - at) ≤ length out.old) }
    ensures { Labelled name.now out.old out.new at to result }
{
    let x = name[at];
    if x == 65 {
        let n = labels::inside::count(name[at + 1]);
        let a = at + 2;
        let e = put_bits(&name[a..], n, out, to);
        out[e] = b'.';
        return Place {
            at: a + bits::inside::octets_for(n),
            to: e + 1,
        };
    }
    let a = at + 1;
    let next = a + octets::wide(x);
    let e = put_octets(&name[a..next], out, to);
    out[e] = b'.';
    Place {
        at: next,
        to: e + 1,
    }
}

// Octets, as they stand in an ordinary label's text.
fn put_octets(octets: &[u8], out: &mut [u8], to: usize) -> usize
    requires { to + 4 * length octets.now ≤ length out.old }
    ensures { Put out.old out.new to result (ordinary_text octets.now) }
{
    let mut end = to;
    for x in octets {
        end = put_octet(*x, out, end);
    }
    end
}

// One octet of an ordinary label.
fn put_octet(x: u8, out: &mut [u8], to: usize) -> usize
    requires { to + 4 ≤ length out.old }
    ensures { Put out.old out.new to result (octet_text x) }
{
    if crate::is_plain(x) {
        out[to] = x;
        return to + 1;
    }
    out[to] = b'\\';
    out[to + 1] = b'0' + x / 100;
    out[to + 2] = b'0' + x / 10 % 10;
    out[to + 3] = b'0' + x % 10;
    to + 4
}

// A bit label of n bits, which stand from the first octet on.
fn put_bits(octets: &[u8], n: usize, out: &mut [u8], to: usize) -> usize
    requires { (n ≤ 256) × (octets_for n ≤ length octets.now) × (to + digits_for n + 8 ≤ length out.old) }
    ensures { Put out.old out.new to result (raw_bits n octets.now) }
{
    out[to] = b'\\';
    out[to + 1] = b'[';
    out[to + 2] = b'x';
    let a = put_digits(octets, n.div_ceil(4), out, to + 3);
    out[a] = b'/';
    let b = text::inside::put_number::<10>(n as u64, out, a + 1);
    out[b] = b']';
    b + 1
}

// The first n hex digits of octets.
fn put_digits(octets: &[u8], n: usize, out: &mut [u8], to: usize) -> usize
    requires { ((n + 1) / 2 ≤ length octets.now) × (to + n ≤ length out.old) }
    ensures { Put out.old out.new to result (map hex_digit (take n (nibbles octets.now))) }
{
    for i in 0..n {
        out[to + i] = hex_digit(nibble(octets[i / 2], i));
    }
    to + n
}

// The value of an octet's left hex digit for an even place, of its right one for an odd place.
fn nibble(x: u8, i: usize) -> u8
    ensures { (result ≡ nibble_of x i) × (result < 16) }
{
    if i % 2 == 0 { x / 16 } else { x % 16 }
}

// The upper-case hex digit of a value.
fn hex_digit(v: u8) -> u8
    requires { v < 16 }
    ensures { result ≡ hex_digit v }
{
    text::inside::digit(v).to_ascii_uppercase()
}
