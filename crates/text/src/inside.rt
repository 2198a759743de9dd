// What only our own layers call: most ask room, or that something holds, of their caller. Numbers and addresses are written at a place.
ghost use Rattle.std.specs.Prelude.{◌≡◌, ℕ, Bool, ◌+◌, ◌^◌, ◌≤◌, ◌<◌, ◌∷◌, ◌++◌, ◌==◌, length, take_while, drop};
ghost use Rattle.octets.specs.Refusals.{answered};
ghost use Rattle.text.specs.Written.{Put};
ghost use Rattle.text.specs.Digits.{digit_octet, number_text, leading};
ghost use Rattle.text.specs.Answers.{text_answer, text_out};
ghost use Rattle.text.specs.Groups.{groups_of, run_of};
ghost use Rattle.text.specs.AddressText.{groups_text, write_address};

use crate::addresses::Run;
use octets::{Done, Refusal};

// The octet of a digit: 0 to 9, then small letters.
pub fn digit(d: u8) -> u8
    requires { d < 16 }
    ensures { result ≡ digit_octet d }
{
    if d < 10 { b'0' + d } else { b'a' - 10 + d }
}

// Writes a number in a base with no needless zero, from its last digit on, and answers the place after it.
pub fn put_number<const BASE: u64>(n: u64, out: &mut [u8], at: usize) -> usize
    requires base { (2 ≤ BASE) × (BASE ≤ 16) }
    requires room { at + length (number_text BASE n) ≤ length out.old }
    ensures { Put out.old out.new at result (number_text BASE n) }
{
    // The first loop finds the place of the last digit, the second fills the digits from there.
    let mut last = at;
    let mut rest = n;
    while BASE <= rest {
        rest /= BASE;
        last += 1;
    }
    let end = last + 1;
    let mut left = n;
    while BASE <= left {
        out[last] = digit((left % BASE) as u8);
        left /= BASE;
        last -= 1;
    }
    out[last] = digit(left as u8);
    end
}

// A text with zeros after it, and its length: refused where the output has no room for it.
pub fn give(text: &[u8], out: &mut [u8]) -> Result<Done, Refusal>
    requires { length text.now < 2 ^ 32 }
    ensures value { answered result ≡ text_answer text.now (length out.old) }
    ensures out_after { out.new ≡ text_out text.now (length out.old) }
{
    octets::clear(out);
    let n = text.len();
    if out.len() < n {
        return Err(Refusal::Space);
    }
    out[..n].copy_from_slice(text);
    Ok(Done {
        count: n as u32,
        work: 0,
    })
}

// The place after the octets from a place on that pass a test.
pub fn pass<T: Fn(u8) -> bool>(s: &[u8], from: usize, test: T) -> usize
    requires { T.IsAlwaysCallable test }
    ensures { (t : ℕ → Bool) → ((x : ℕ) → x < 256 → (b : Bool) → T.post test x b → b ≡ t x) → result ≡ from + leading t (drop from s.now) }
{
    let mut at = from;
    // The place is the answer and may lie past the end, so the loop counts it.
    while at < s.len() && test(s[at]) {
        at += 1;
    }
    at
}

// Writes an address by RFC 5952 at a place, and answers the place after it.
pub fn put_address(address: [u8; 16], out: &mut [u8], at: usize) -> usize
    requires { at + length (write_address address) ≤ length out.old }
    ensures { Put out.old out.new at result (write_address address) }
{
    let groups = groups_of(address);
    let run = longest_run(&groups);
    if run.count < 2 {
        return write_groups(&groups, out, at);
    }
    let end = run.place + run.count;
    write_sides(&groups[..run.place], &groups[end..], out, at)
}

// The eight groups of an address.
fn groups_of(a: [u8; 16]) -> [u16; 8]
    ensures { result ≡ groups_of a }
{
    [
        u16::from_be_bytes([a[0], a[1]]),
        u16::from_be_bytes([a[2], a[3]]),
        u16::from_be_bytes([a[4], a[5]]),
        u16::from_be_bytes([a[6], a[7]]),
        u16::from_be_bytes([a[8], a[9]]),
        u16::from_be_bytes([a[10], a[11]]),
        u16::from_be_bytes([a[12], a[13]]),
        u16::from_be_bytes([a[14], a[15]]),
    ]
}

// How many zero groups stand at the start.
fn zeros_at(groups: &[u16]) -> usize
    ensures { result ≡ length (take_while (λ g. g == 0) groups.now) }
{
    groups.iter().take_while(|g| **g == 0).count()
}

// The leftmost of the longest runs of zero groups.
fn longest_run(groups: &[u16]) -> Run
    ensures { result ≡ run_of groups.now }
{
    let mut run = Run { place: 0, count: 0 };
    for place in 0..groups.len() {
        let count = zeros_at(&groups[place..]);
        if run.count < count {
            run = Run { place, count };
        }
    }
    run
}

// Writes the groups before two colons and those after them, and answers the place after them.
fn write_sides(front: &[u16], back: &[u16], out: &mut [u8], at: usize) -> usize
    requires { at + length (groups_text front.now ++ (58 ∷ 58 ∷ groups_text back.now)) ≤ length out.old }
    ensures { Put out.old out.new at result (groups_text front.now ++ (58 ∷ 58 ∷ groups_text back.now)) }
{
    let gap = write_groups(front, out, at);
    out[gap] = b':';
    out[gap + 1] = b':';
    write_groups(back, out, gap + 2)
}

// Writes groups parted by colons, and answers the place after them.
fn write_groups(groups: &[u16], out: &mut [u8], at: usize) -> usize
    requires { at + length (groups_text groups.now) ≤ length out.old }
    ensures { Put out.old out.new at result (groups_text groups.now) }
{
    let Some((first, more)) = groups.split_first() else {
        return at;
    };
    let mut next = put_number::<16>(u64::from(*first), out, at);
    for group in more {
        out[next] = b':';
        next = put_number::<16>(u64::from(*group), out, next + 1);
    }
    next
}
