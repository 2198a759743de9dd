// Names read from text (T-06).
ghost use Rattle.std.specs.Prelude.{◌≡◌, true, ◌&&◌, [], ◌∷◌, ◌++◌, ◌+◌, ◌-◌, ◌*◌, ◌%◌, ◌^◌, ◌≤◌, ◌<◌, eqb, length, get_or, drop, Ok, IfOk, MatchOption};
ghost use Rattle.octets.specs.Octets.{blank, same};
ghost use Rattle.octets.specs.Refusals.{number_of};
ghost use Rattle.bits.specs.Bits.{unpack};
ghost use Rattle.bits.specs.Packing.{Clean, Ready, Pushed};
ghost use Rattle.names.specs.Merge.{run_bits};
ghost use Rattle.names.specs.Name.{name_of};
ghost use Rattle.text.specs.Digits.{digit_in, is_digit, is_hex, leading};
ghost use Rattle.text.specs.Decimal.{decimal_of};
ghost use Rattle.nametext.specs.Characters.{is_plain, may_name};
ghost use Rattle.nametext.specs.Writing.{digits_for};
ghost use Rattle.nametext.specs.Reading.{octets_formed, octets_in, octets_ranged, is_bits_text, count_in, bit_octets, text_number, name_read, name_at};
ghost use Rattle.nametext.specs.Places.{Dot, Ended, Stands, ordinary_part, bit_part, part_of, IsBits, Quartered, run_size, tallied_word, tallied_bits, tallied, concluded, Low, rest_of, encode_rest, Standing, Filled, Ran, Moved};

use bits::inside::Packer;
use names::{Name, Place, Run};
use octets::Refusal;

// What is read of a name: the name in standard form, or `Form`, `Range` or `Name` for why there is none, and the place after its text.
#[derive(Clone, Copy)]
pub struct Named {
    pub name: Result<Name, Refusal>,
    pub next: usize,
}

// An octet or an escape of an ordinary label's text: how many octets it takes, and its value.
#[derive(Clone, Copy)]
pub struct Octet {
    pub size: usize,
    pub value: usize,
}

// What a part of the text is as a label: an ordinary one of so many octets, or a bit label of so many bits.
#[derive(Clone, Copy)]
pub enum Part {
    Word(usize),
    Bits(usize),
}

// A number as four times a whole and a rest: four times the digits of a text may be more than a word holds.
#[derive(Clone, Copy)]
pub struct Quarters {
    pub whole: usize,
    pub rest: usize,
}

// What is known of a name after some of its labels: the octets of the labels before the run at hand, and the bits of that run.
#[derive(Clone, Copy)]
pub struct Sizes {
    pub size: usize,
    pub run: usize,
}

// Reads the octets from a place on that may stand in a name as one.
pub fn read_name(s: &[u8], from: usize) -> Named
    ensures { result ≡ name_at s.now from }
{
    let next = text::inside::pass(s, from, may_name);
    if s.len() < from {
        return Named {
            name: Err(Refusal::Form),
            next,
        };
    }
    let text = &s[from..next];
    // The name is made where it is handed out: each function between would copy it once more.
    match judge(text) {
        Ok(()) => Named {
            name: Ok(name_in(text)),
            next,
        },
        Err(refusal) => Named {
            name: Err(refusal),
            next,
        },
    }
}

// Whether an octet may stand in a name: they are in three ranges and an underscore.
// Range by range: as one pattern they are a tree of branches, which the octets of a name take in no order.
#[tactic(auto, using(std::proofs::lemmas::Bool::Decides::nat_tests), unfolding(crate::specs::Characters::may_name, crate::specs::Characters::is_plain))]
fn may_name(x: u8) -> bool
    ensures { result ≡ may_name x }
{
    matches!(x, b'a'..=b'z') || matches!(x, b'-'..=b'9') || matches!(x, b'A'..=b']') || x == b'_'
}

// Whether a text is a name, and why it is none: a fault of form in any part comes before one of range, and that before one of size.
fn judge(text: &[u8]) -> Result<(), Refusal>
    ensures { number_of result ≡ text_number text.now }
{
    let n = text.len();
    if n == 0 || text[n - 1] != b'.' {
        return Err(Refusal::Form);
    }
    if n == 1 {
        return Ok(());
    }
    let mut tally = Ok(Sizes { size: 0, run: 0 });
    // From dot to dot: a part is read as a slice, and the place is what is known of the rest.
    let mut at: usize = 0;
    while at < n {
        let e = next_dot(text, at);
        tally = match read_part(&text[at..e]) {
            Ok(part) => count(tally, part),
            // An arm `Err(Refusal::Form)` would leave it untold that the refusal of the next arm is another.
            Err(refusal) => {
                if refusal == Refusal::Form {
                    return Err(refusal);
                }
                Err(refusal)
            }
        };
        at = e + 1;
    }
    tally?.conclude()
}

// What is known after one part more.
fn count(tally: Result<Sizes, Refusal>, part: Part) -> Result<Sizes, Refusal>
    requires { IfOk tally Low }
    ensures value { result ≡ tallied tally (Ok part) }
    ensures low { IfOk result Low }
{
    let sizes = tally?;
    match part {
        Part::Word(n) => sizes.word(n),
        Part::Bits(n) => sizes.bits(n),
    }
}

impl Sizes {
    // One bit label more, of n bits.
    fn bits(self, n: usize) -> Result<Sizes, Refusal>
        requires { Low self }
        ensures value { result ≡ tallied_bits self n }
        ensures low { IfOk result Low }
    {
        if 256 - self.run < n {
            return Err(Refusal::Name);
        }
        Ok(Sizes {
            size: self.size,
            run: self.run + n,
        })
    }

    // One ordinary label more, of n octets.
    fn word(self, n: usize) -> Result<Sizes, Refusal>
        requires { Low self }
        ensures value { result ≡ tallied_word self n }
        ensures low { IfOk result Low }
    {
        if 63 < n {
            return Err(Refusal::Name);
        }
        let size = self.size + (run_size(self.run) + (1 + n));
        if 254 < size {
            return Err(Refusal::Name);
        }
        Ok(Sizes { size, run: 0 })
    }

    // Whether the name whose labels are all tallied is short enough.
    fn conclude(self) -> Result<(), Refusal>
        requires { Low self }
        ensures { number_of result ≡ concluded (Ok self) }
    {
        if 255 < self.size + (run_size(self.run) + 1) {
            return Err(Refusal::Name);
        }
        Ok(())
    }
}

// The octets that a run of bits takes in the name.
fn run_size(run: usize) -> usize
    requires { run ≤ 256 }
    ensures { (result ≡ run_size run) × (result ≤ 34) }
{
    if run == 0 {
        0
    } else {
        2 + bits::inside::octets_for(run)
    }
}

// The first dot from `at` on, or the end of the text.
fn next_dot(text: &[u8], at: usize) -> usize
    requires { at ≤ length text.now }
    ensures { Dot text.now at result }
{
    text::inside::pass(text, at, |c| c != b'.')
}

// What a part is as a label.
fn read_part(p: &[u8]) -> Result<Part, Refusal>
    ensures { result ≡ part_of p.now }
{
    if is_bits(p) {
        bit_part(p)
    } else {
        ordinary_part(p)
    }
}

// Whether a bit label begins there.
#[tactic(auto, using(std::proofs::lemmas::Bool::Decides::nat_tests), unfolding(crate::specs::Reading::is_bits_text))]
fn is_bits(p: &[u8]) -> bool
    ensures { result ≡ is_bits_text p.now }
{
    matches!(p, [b'\\', b'[', ..])
}

// What a part is as an ordinary label. Most have no escape.
fn ordinary_part(p: &[u8]) -> Result<Part, Refusal>
    ensures { result ≡ ordinary_part p.now }
{
    let n = p.len();
    if n == 0 {
        return Err(Refusal::Form);
    }
    if plain_end(p) == n {
        return Ok(Part::Word(n));
    }
    escaped_part(p)
}

// Where the octets that stand for themselves end.
fn plain_end(p: &[u8]) -> usize
    ensures { result ≡ leading is_plain p.now }
{
    text::inside::pass(p, 0, crate::is_plain)
}

// What a part is as an ordinary label, octet by octet and escape by escape.
fn escaped_part(p: &[u8]) -> Result<Part, Refusal>
    ensures { result ≡ ordinary_part p.now }
{
    let mut ranged = true;
    let mut count: usize = 0;
    let mut rest = p;
    while let Some(octet) = octet_at(rest) {
        ranged = ranged && octet.value < 256;
        count += 1;
        rest = &rest[octet.size..];
    }
    if !rest.is_empty() || count == 0 {
        return Err(Refusal::Form);
    }
    if !ranged {
        return Err(Refusal::Range);
    }
    Ok(Part::Word(count))
}

// The octet or the escape at the front.
fn octet_at(rest: &[u8]) -> Option<Octet>
    ensures { MatchOption result (Ended rest.now) (Stands rest.now) }
{
    if rest.is_empty() {
        return None;
    }
    let x = rest[0];
    if x == b'\\' {
        if !is_escape(rest) {
            return None;
        }
        return Some(Octet {
            size: 4,
            value: digit_value(rest[1]) * 100 + (digit_value(rest[2]) * 10 + digit_value(rest[3])),
        });
    }
    if !crate::is_plain(x) {
        return None;
    }
    Some(Octet {
        size: 1,
        value: usize::from(x),
    })
}

// Whether three digits come after the first octet.
fn is_escape(rest: &[u8]) -> bool
    ensures { (result ≡ (is_digit (get_or rest.now 1 0) && (is_digit (get_or rest.now 2 0) && is_digit (get_or rest.now 3 0)))) × (result ≡ true → 4 ≤ length rest.now) }
{
    4 <= rest.len()
        && rest[1].is_ascii_digit()
        && rest[2].is_ascii_digit()
        && rest[3].is_ascii_digit()
}

// The value of a decimal digit.
fn digit_value(x: u8) -> usize
    requires { is_digit x ≡ true }
    ensures { (result ≡ x - 48) × (result < 10) }
{
    usize::from(x - b'0')
}

// What a part is as a bit label.
fn bit_part(p: &[u8]) -> Result<Part, Refusal>
    ensures { result ≡ bit_part p.now }
{
    let n = p.len();
    if n < 4 || p[2] != b'x' {
        return Err(Refusal::Form);
    }
    let e = hex_end(p);
    if e == 3 || e == n {
        return Err(Refusal::Form);
    }
    if p[e] == b'/' {
        return counted_part(p, e);
    }
    if !closes(&p[e..]) {
        return Err(Refusal::Form);
    }
    if 67 < e {
        return Err(Refusal::Range);
    }
    Ok(Part::Bits(4 * (e - 3)))
}

// Where the hex digits of a bit label end.
fn hex_end(p: &[u8]) -> usize
    requires { 3 ≤ length p.now }
    ensures { result ≡ 3 + leading is_hex (drop 3 p.now) }
{
    text::inside::pass(p, 3, |c| text::reading::digit_in(c) < 16)
}

// Whether a bracket stands there and nothing after it.
#[tactic(auto, using(std::proofs::lemmas::Bool::Decides::nat_tests), unfolding(octets::specs::Octets::same_by))]
fn closes(rest: &[u8]) -> bool
    ensures { result ≡ same rest.now (93 ∷ []) }
{
    matches!(rest, [b']'])
}

// What a part is as a bit label whose hex digits, of which there are some, end at e with a slash.
fn counted_part(p: &[u8], e: usize) -> Result<Part, Refusal>
    requires { (e ≡ 3 + leading is_hex (drop 3 p.now)) × (3 < e) × (get_or p.now 2 0 ≡ 120) × (get_or p.now e 0 ≡ 47) }
    ensures { result ≡ bit_part p.now }
{
    let from = e + 1;
    let t = text::numbers::read_decimal(p, from, 256);
    if !t.formed || !closes(&p[t.next..]) {
        return Err(Refusal::Form);
    }
    let d = e - 3;
    let v = read_quarters(&p[from..], d);
    if v.whole + v.rest.div_ceil(4) != d || !is_clear(p[e - 1], v.rest) {
        return Err(Refusal::Form);
    }
    if 64 < d {
        return Err(Refusal::Range);
    }
    Ok(Part::Bits(4 * v.whole + v.rest))
}

// The decimal at the front, or four times d + 1 if it is more: no sum wraps, however many digits there are.
fn read_quarters(s: &[u8], d: usize) -> Quarters
    requires { d < 2 ^ 63 }
    ensures { Quartered (decimal_of s.now) (4 * (d + 1)) result }
{
    let mut v = Quarters { whole: 0, rest: 0 };
    for x in s {
        if !x.is_ascii_digit() {
            return v;
        }
        v = ten_times(v, digit_value(*x), d);
    }
    v
}

// Ten times a number and a digit, or four times d + 1 if that is more.
fn ten_times(v: Quarters, x: usize, d: usize) -> Quarters
    requires { (v.rest < 4) × (x < 10) × (d < 2 ^ 63) }
    ensures { Quartered ((4 * v.whole + v.rest) * 10 + x) (4 * (d + 1)) result }
{
    let q = v.whole;
    if d / 10 < q {
        return Quarters {
            whole: d + 1,
            rest: 0,
        };
    }
    let r = 10 * v.rest + x;
    let whole = 10 * q + r / 4;
    if d < whole {
        return Quarters {
            whole: d + 1,
            rest: 0,
        };
    }
    Quarters { whole, rest: r % 4 }
}

// Whether the bits of the last hex digit that are not counted are zero; of its bits `rest` are counted, or all where that is zero.
fn is_clear(x: u8, rest: usize) -> bool
    requires { (is_hex x ≡ true) × (rest < 4) }
    ensures { result ≡ eqb (digit_in x % 2 ^ ((4 - rest) % 4)) 0 }
{
    bits::inside::low(hex_value(x), (4 - rest) % 4) == 0
}

// The value of a hex digit.
fn hex_value(x: u8) -> u8
    requires { is_hex x ≡ true }
    ensures { (result ≡ digit_in x) × (result < 16) }
{
    text::reading::digit_in(x) as u8
}

// The name that a text with number 0 stands for.
fn name_in(text: &[u8]) -> Name
    requires { text_number text.now ≡ 0 }
    ensures { result ≡ name_of (name_read text.now) }
{
    let mut octets = [0u8; 255];
    let n = put_labels(text, &mut octets);
    Name {
        octets,
        length: n as u8,
    }
}

// The same over zeros, label by label and run by run; its length.
fn put_labels(text: &[u8], out: &mut [u8]) -> usize
    requires { (text_number text.now ≡ 0) × (out.old ≡ blank 255) }
    ensures { (out.new ≡ name_read text.now ++ blank (255 - length (name_read text.now))) × (result ≡ length (name_read text.now)) × (result ≤ 255) }
{
    let n = text.len();
    if n == 1 {
        return 1;
    }
    // A label or a whole run at a time, which says itself where the next one begins.
    let mut at: usize = 0;
    let mut to: usize = 0;
    while at < n {
        let p = put_next(text, at, to, out);
        at = p.at;
        to = p.to;
    }
    to + 1
}

// The label or the run at `at`, written at `to`.
fn put_next(text: &[u8], at: usize, to: usize, out: &mut [u8]) -> Place
    requires standing { Standing text.now at }
    requires at_in_bounds { (at < length text.now) × Clean out.old to × (to + length (encode_rest text.now at) ≤ length out.old) × (length out.old ≡ 255) }
    ensures { Moved text.now out.old out.new at to result }
{
    if is_bits(&text[at..]) {
        let run = pack_run(text, at, 0, to, out);
        let end = run.packer.flush(out);
        return Place {
            at: run.end,
            to: end,
        };
    }
    let e = next_dot(text, at);
    let end = put_ordinary(&text[at..e], out, to);
    Place { at: e + 1, to: end }
}

// An ordinary label: its length and its octets.
fn put_ordinary(p: &[u8], out: &mut [u8], to: usize) -> usize
    requires p_value { (octets_formed 0 p.now ≡ true) × (octets_ranged (octets_in 0 p.now) ≡ true) }
    requires clean { Clean out.old to × (to + (1 + length (octets_in 0 p.now)) ≤ length out.old) × (length out.old ≡ 255) }
    ensures { Filled out.old out.new to result (length (octets_in 0 p.now) ∷ octets_in 0 p.now) }
{
    let from = to + 1;
    let e = put_octets(p, out, from);
    out[to] = (e - from) as u8;
    e
}

// The octets that an ordinary label holds. Most have no escape.
fn put_octets(p: &[u8], out: &mut [u8], to: usize) -> usize
    requires p_value { (octets_formed 0 p.now ≡ true) × (octets_ranged (octets_in 0 p.now) ≡ true) }
    requires clean { Clean out.old to × (to + length (octets_in 0 p.now) ≤ length out.old) × (length out.old ≡ 255) }
    ensures { Filled out.old out.new to result (octets_in 0 p.now) }
{
    let n = p.len();
    if plain_end(p) == n {
        octets::inside::copy(p, 0, n, out, to);
        return to + n;
    }
    put_escaped(p, out, to)
}

// The octets that an ordinary label holds, octet by octet and escape by escape.
fn put_escaped(p: &[u8], out: &mut [u8], to: usize) -> usize
    requires p_value { (octets_formed 0 p.now ≡ true) × (octets_ranged (octets_in 0 p.now) ≡ true) }
    requires clean { Clean out.old to × (to + length (octets_in 0 p.now) ≤ length out.old) × (length out.old ≡ 255) }
    ensures { Filled out.old out.new to result (octets_in 0 p.now) }
{
    let mut rest = p;
    let mut t = to;
    while let Some(octet) = octet_at(rest) {
        out[t] = octet.value as u8;
        t += 1;
        rest = &rest[octet.size..];
    }
    t
}

// The labels of a run from `at` on, after `sum` bits of it: the header at `to`, then the bits, the right label's first.
fn pack_run(text: &[u8], at: usize, sum: usize, to: usize, out: &mut [u8]) -> Run
    requires standing { Standing text.now at }
    requires at_bound { (sum + length (run_bits (rest_of text.now at)) ≤ 2040) × ((to + 2) * 8 + length (run_bits (rest_of text.now at)) ≤ length out.old * 8) × (length out.old ≡ 255) × Clean out.old to }
    ensures { Ran text.now out.old out.new at sum to result }
{
    if !is_bits(&text[at..]) {
        out[to] = 65;
        out[to + 1] = (sum % 256) as u8;
        return Run {
            end: at,
            packer: Packer::new(to + 2),
        };
    }
    let e = next_dot(text, at);
    let n = bits_in(&text[at..e]);
    // Lent on by `[..]` and not by its own name, the slice stays in registers.
    let run = pack_run(&text[..], e + 1, sum + n, to, out);
    let packer = append_digits(&text[at..e], n, out, run.packer);
    Run {
        end: run.end,
        packer,
    }
}

// The bits of a part that is a bit label.
// Apart from `pack_run`, which calls itself: what is read of a label does not lie on the stack once for each label of a run.
#[inline(never)]
fn bits_in(p: &[u8]) -> usize
    requires { IsBits p.now }
    ensures { result ≡ count_in p.now }
{
    let Ok(Part::Bits(n)) = read_part(p) else {
        unreachable!()
    };
    n
}

// The first n bits of the hex digits of a bit label, after those that are packed.
fn append_digits(p: &[u8], n: usize, out: &mut [u8], packer: Packer) -> Packer
    requires ready { Ready out.old packer n }
    requires n_bound { digits_for n ≤ leading is_hex (drop 3 p.now) }
    ensures { Pushed out.old out.new packer result (unpack n (bit_octets p.now)) }
{
    let mut q = packer;
    let mut i: usize = 3;
    let mut left = n;
    // The place and the bits left are one state of the law of this loop; a part of `p` would ask for its three octets before the digits.
    while 4 <= left {
        q = q.push(out, 4, hex_value(p[i]));
        i += 1;
        left -= 4;
    }
    if left == 0 {
        return q;
    }
    q.push(out, left, hex_value(p[i]) >> (4 - left))
}
