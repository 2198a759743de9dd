// From text: commands, numbers, addresses and names. Nothing is refused here: what is not well written gives some value, and the library judges it.
ghost use Rattle.std.specs.Prelude.{◌≤◌, ◌<◌, length};

use plan::inside::{Kind, SLOT};

// The octet that begins a bit label, where an ordinary label has its length, of at most 63.
pub const BIT_LABEL: u8 = 65;

// What a line asks. Names are slots, all zero for no name.
#[derive(Clone, Copy)]
pub enum Command {
    Record {
        kind: Kind,
        prefix: u8,
        address: [u8; 16],
        owner: [u8; SLOT],
        target: [u8; SLOT],
    },
    Plan,
    Collapse([u8; SLOT]),
    Keep,
    Compare,
    Lookup([u8; SLOT]),
    Reverse([u8; 16]),
    Note,
    Text,
}

impl Command {
    // The type of a record stands second in a line, and is asked for before the first word.
    pub fn read(line: &[u8]) -> Command {
        let first = word(line, 0);
        let second = word(line, 1);
        match (first, second) {
            (owner, b"A6") => Command::Record {
                kind: Kind::A6,
                prefix: number(word(line, 2)),
                address: address(word(line, 3)),
                owner: slot(owner),
                target: slot(word(line, 4)),
            },
            (owner, b"DNAME") => Command::Record {
                kind: Kind::Dname,
                prefix: 0,
                address: [0u8; 16],
                owner: slot(owner),
                target: slot(word(line, 2)),
            },
            (b"plan", _) => Command::Plan,
            (b"collapse", name) => Command::Collapse(slot(name)),
            (b"keep", _) => Command::Keep,
            (b"compare", _) => Command::Compare,
            (b"lookup", name) => Command::Lookup(slot(name)),
            (b"reverse", text) => Command::Reverse(address(text)),
            (b";", _) => Command::Note,
            _ => Command::Text,
        }
    }
}

// The word at an index of a line, words parted by spaces; no octets where there is none.
fn word(line: &[u8], index: usize) -> &[u8] {
    line.split(|x| *x == b' ')
        .filter(|part| !part.is_empty())
        .nth(index)
        .unwrap_or(&[])
}

// The decimal number of the digits of a text; 255 for any that is greater.
fn number(text: &[u8]) -> u8 {
    text.iter().fold(0u8, |sum, x| match *x {
        b'0'..=b'9' => sum.saturating_mul(10).saturating_add(*x - b'0'),
        _ => sum,
    })
}

// An address: eight groups of hex digits, `::` for as many groups of zeros as are missing.
fn address(text: &[u8]) -> [u8; 16] {
    let mut digits = [b'0'; 32];
    let mut colons = text.iter().filter(|x| **x == b':').count();
    // The group that the next part gives; none is given from 8 on.
    let mut group: usize = 0;
    for part in text.split(|x| *x == b':') {
        group = match part.len() {
            // The parts that follow end the address: there is one for each colon that is left.
            0 => 8usize.saturating_sub(colons),
            n if n <= 4 && group < 8 => {
                let end = 4 * group + 4;
                digits[end - n..end].copy_from_slice(part);
                group + 1
            }
            _ => 8,
        };
        colons = colons.saturating_sub(1);
    }
    let mut out = [0u8; 16];
    pack(&digits, &mut out);
    out
}

// The slot of a name; all zero for no label. Its last octet is left for the zero that ends the longest name.
fn slot(name: &[u8]) -> [u8; SLOT] {
    let mut out = [0u8; SLOT];
    let used = spell(name, &mut out[1..SLOT - 1]);
    if 0 < used {
        out[0] = (used + 1) as u8;
    }
    out
}

// The labels of a text, each up to a point, in an output of zeros; how many octets they take. A label that does not fit is left out.
fn spell(text: &[u8], out: &mut [u8]) -> usize
    ensures { result ≤ length out.old }
{
    let mut used: usize = 0;
    for part in text.split_inclusive(|x| *x == b'.') {
        let label = part.strip_suffix(b".").unwrap_or(part);
        used += put_label(label, &mut out[used..]);
    }
    used
}

// One label at the front of the room, if it fits; how many octets it takes.
fn put_label(label: &[u8], room: &mut [u8]) -> usize
    ensures { result ≤ length room.old }
{
    match label.iter().position(|x| *x == b'/') {
        None => put_letters(label, room),
        Some(slash) if slash < 3 => 0,
        Some(slash) => put_bits(&label[3..slash], number(&label[slash..]), room),
    }
}

// An ordinary label.
fn put_letters(label: &[u8], room: &mut [u8]) -> usize
    ensures { result ≤ length room.old }
{
    let n = label.len();
    if 63 < n || room.len() <= n {
        return 0;
    }
    room[0] = n as u8;
    room[1..=n].copy_from_slice(label);
    n + 1
}

// A bit label, `\[xDIGITS/COUNT]`, of its digits and its count.
fn put_bits(digits: &[u8], count: u8, room: &mut [u8]) -> usize
    ensures { result ≤ length room.old }
{
    let end = 2 + labels::inside::count(count).div_ceil(8);
    if room.len() < end || 2 * (end - 2) < digits.len() {
        return 0;
    }
    room[0] = BIT_LABEL;
    room[1] = count;
    pack(digits, &mut room[2..end]);
    end
}

// Hex digits, two to an octet. Where the last octet has only one digit, a zero follows it.
fn pack(digits: &[u8], out: &mut [u8]) {
    for (octet, pair) in out.iter_mut().zip(digits.chunks(2)) {
        *octet = match pair {
            [high, low, ..] => 16 * digit(*high) + digit(*low),
            [high] => 16 * digit(*high),
            [] => 0,
        };
    }
}

// The value of a hex digit, and some value for any other octet, for which `to_digit` has none.
fn digit(x: u8) -> u8
    ensures { result < 16 }
{
    if x < b'A' {
        return x % 16;
    }
    (x % 16 + 9) % 16
}
