// What only our own layers call: the standard form of a name that was scanned, and names in standard form compared (01, Names; T-03).
ghost use Rattle.std.specs.Prelude.{◌≡◌, true, ◌++◌, map, ◌+◌, ◌-◌, ◌≤◌, ◌<◌, length, get_or, take, drop};
ghost use Rattle.octets.specs.Octets.{blank, same};
ghost use Rattle.bits.specs.Bits.{octets_for};
ghost use Rattle.labels.specs.Labels.{count_for};
ghost use Rattle.labels.specs.Scan.{scan_of, well_formed};
ghost use Rattle.names.specs.Standard.{standard_of, lower, same_name, in_standard_form};
ghost use Rattle.names.specs.Keys.{key_octets, walked, Past};
ghost use Rattle.labels.specs.Answers.{scanned, standard_by};

// The standard form of a well-formed name over zeros, and its length; `standard` is what a scan says of the name.
pub fn put_standard(name: &[u8], standard: bool, out: &mut [u8]) -> usize
    requires { (well_formed name.now ≡ true) × (standard ≡ standard_by (scanned (scan_of name.now))) × (out.old ≡ blank 255) }
    ensures { (out.new ≡ standard_of name.now ++ blank (255 - length (standard_of name.now))) × (result ≡ length (standard_of name.now)) × (result ≤ 255) }
{
    if !standard {
        return crate::merge(name, out);
    }
    octets::inside::copy_whole(name, &mut out[..name.len()]);
    name.len()
}

// Whether two names in standard form are the same name.
#[tactic(auto, using(crate::proofs::KeyLaws::same_keys_lem))]
pub fn equal(a: &[u8], b: &[u8]) -> bool
    requires { (in_standard_form a.now ≡ true) × (in_standard_form b.now ≡ true) }
    ensures { result ≡ same_name a.now b.now }
{
    same_key(a, b)
}

// Whether two lists of octets that begin with a label have the same keys. Letters are looked at only where octets differ.
pub fn same_key(a: &[u8], b: &[u8]) -> bool
    ensures { result ≡ same (key_octets a.now) (key_octets b.now) }
{
    if a.len() != b.len() {
        return false;
    }
    for (i, x) in a.iter().enumerate() {
        if *x != b[i] {
            return respelt(a, b, i);
        }
    }
    true
}

// The same, where the octets at i differ.
fn respelt(a: &[u8], b: &[u8], i: usize) -> bool
    requires { (length a.now ≡ length b.now) × (i < length a.now) }
    ensures { result ≡ same (key_octets a.now) (key_octets b.now) }
{
    // Lent on by `[..]` and not by their own names, the slices stay in registers; so below.
    lowered(a[i]) == lowered(b[i]) && same_labels(&a[..], &b[..], 0, a.len())
}

// A letter from A to Z as the one from a to z; every other octet as it is.
#[tactic(auto, using(crate::proofs::LowerLaws::lower_ascii))]
fn lowered(x: u8) -> u8
    ensures { result ≡ lower x }
{
    x.to_ascii_lowercase()
}

// Whether all octets are the same in lower case, and the labels from `at` to `end` have the same keys. At the end all octets are compared as if they were
// letters; what is no letter is compared label by label. The labels above a bit label come before its bits: as a function that does not end in its own
// call this one stays apart from its callers, and they stay short.
pub fn same_labels(a: &[u8], b: &[u8], at: usize, end: usize) -> bool
    requires { (length a.now ≡ length b.now) × (end ≤ length a.now) }
    ensures { result ≡ walked a.now b.now end at }
{
    let i = past_letters(a, b, at, end);
    if end <= i {
        return same_lowered(a, b);
    }
    if a[i] != b[i] {
        return false;
    }
    let from = i + 1;
    let size = bit_octets(a, from, end);
    same_labels(&a[..], &b[..], from + size, end) && same_part(a, b, from, size, end)
}

// The first place from `at` on where no ordinary label begins that has one length in both.
fn past_letters(a: &[u8], b: &[u8], at: usize, end: usize) -> usize
    requires { (length a.now ≡ length b.now) × (end ≤ length a.now) }
    ensures { Past a.now b.now end at result }
{
    let mut i = at;
    // From label to label, whose sizes differ: no iterator goes so.
    while i < end && a[i] == b[i] && a[i] != 65 {
        i += 1 + octets::wide(a[i]);
    }
    i
}

// Whether all octets are the same in lower case. Every one is looked at, which is faster than to stop at the first.
fn same_lowered(a: &[u8], b: &[u8]) -> bool
    requires { length a.now ≡ length b.now }
    ensures { result ≡ same (map lower a.now) (map lower b.now) }
{
    let mut alike = true;
    for (i, x) in a.iter().enumerate() {
        alike &= lowered(*x) == lowered(b[i]);
    }
    alike
}

// The octets of a bit label from its count octet on, which stands at i before `end`; one that is missing counts as zero.
fn bit_octets(name: &[u8], i: usize, end: usize) -> usize
    requires { end ≤ length name.now }
    ensures { (result ≡ 1 + octets_for (count_for (get_or (take end name.now) i 0))) × (result ≤ 33) }
{
    let count = name[..end].get(i).copied().unwrap_or(0);
    1 + bits::inside::octets_for(labels::inside::count(count))
}

// Whether so many octets from a place on are the same; as many as there are before `end` where they are fewer.
fn same_part(a: &[u8], b: &[u8], i: usize, size: usize, end: usize) -> bool
    requires { (length a.now ≡ length b.now) × (end ≤ length a.now) × (i ≤ end) × (size ≤ 33) }
    ensures { result ≡ same (take size (drop i (take end a.now))) (take size (drop i (take end b.now))) }
{
    let to = end.min(i + size);
    octets::equal(&a[i..to], &b[i..to])
}
