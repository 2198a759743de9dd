// Names in standard form, cut and put together at a unit: what the walk asks of names. Each function asks something of its caller.
ghost use Rattle.std.specs.Prelude.{◌≡◌, true, ◌+◌, ◌-◌, ◌/◌, ◌%◌, ◌≤◌, ◌<◌, [], length, get_or, take, drop, MatchOption};
ghost use Rattle.octets.specs.Octets.{same, blank};
ghost use Rattle.bits.specs.Bits.{octets_for, unpack};
ghost use Rattle.names.specs.Merge.{Begins};
ghost use Rattle.bits.specs.Packing.{Ready, Pushed};
ghost use Rattle.rewriting.specs.Spots.{units_at, Turned, Found, Standing, Fronted};
ghost use Rattle.rewriting.specs.Rewrite.{below_of, rewrite_of};
ghost use Rattle.rewriting.specs.Splice.{over_zero, spliced_length, spliced_out, joined_length, joined_out};

use bits::inside::{Packer, low, octets_for};

// One label of a name: where it ends, and how many units it is.
#[derive(Clone, Copy)]
pub struct Turn {
    pub end: usize,
    pub units: usize,
}

// A unit's place in a name: where its label begins, the units of the label before it, and the label's end and units.
#[derive(Clone, Copy)]
pub struct Spot {
    pub at: usize,
    pub left: usize,
    pub end: usize,
    pub units: usize,
}

// The bits that a name begins with: the octets that hold them, how many they are, and what follows their label.
#[derive(Clone, Copy)]
pub struct Front<'a> {
    pub octets: &'a [u8],
    pub bits: usize,
    pub rest: &'a [u8],
}

// The label at `at`.
fn pass(name: &[u8], at: usize) -> Turn
    requires begins { Begins name.now at }
    requires nonzero { 0 < get_or name.now at 0 }
    ensures { Turned name.now at result.end result.units }
{
    let x = name[at];
    if x == 65 {
        let n = labels::inside::count(name[at + 1]);
        return Turn {
            end: at + 2 + octets_for(n),
            units: n,
        };
    }
    Turn {
        end: at + 1 + octets::wide(x),
        units: 1,
    }
}

// How many units a name is. Each label says where the next one begins, so there is no range to go over.
fn unit_count(name: &[u8]) -> usize
    requires { Begins name.now 0 }
    ensures { result ≡ length (units_at name.now 0) }
{
    let mut at: usize = 0;
    let mut sum: usize = 0;
    while name[at] != 0 {
        let turn = pass(name, at);
        at = turn.end;
        sum += turn.units;
    }
    sum
}

// Unit j of a name. That a label is there as long as units are left is known of the name, so the loop has no other end.
fn find(name: &[u8], j: usize) -> Spot
    requires begins { Begins name.now 0 }
    requires j_in_bounds { j < length (units_at name.now 0) }
    ensures { Found name.now j result }
{
    let mut at: usize = 0;
    let mut left = j;
    loop {
        let turn = pass(name, at);
        if left < turn.units {
            return Spot {
                at,
                left,
                end: turn.end,
                units: turn.units,
            };
        }
        at = turn.end;
        left -= turn.units;
    }
}

// Whether the first n bits of two lists of octets are equal.
fn same_bits(a: &[u8], b: &[u8], n: usize) -> bool
    requires { (octets_for n ≤ length a.now) × (octets_for n ≤ length b.now) }
    ensures { result ≡ same (unpack n a.now) (unpack n b.now) }
{
    let whole = n / 8;
    let left = n % 8;
    if a[..whole] != b[..whole] {
        return false;
    }
    left == 0 || (a[whole] >> (8 - left)) == (b[whole] >> (8 - left))
}

// The bits that a name begins with; none where it begins with another label.
fn leading(name: &[u8]) -> Option<Front<'_>>
    requires { Standing name.now }
    ensures { MatchOption result (Fronted name.now [] 0 name.now) (λ f. Fronted name.now f.octets.now f.bits f.rest.now) }
{
    if name[0] != 65 {
        return None;
    }
    let bits = labels::inside::count(name[1]);
    let end = 2 + octets_for(bits);
    Some(Front {
        octets: &name[2..end],
        bits,
        rest: &name[end..],
    })
}

// How many units of a name are below an owner; none where the name is not strictly beneath it.
pub fn beneath(name: &[u8], owner: &[u8]) -> Option<usize>
    requires { Standing name.now × Standing owner.now }
    ensures { result ≡ over_zero (below_of (units_at owner.now 0) (units_at name.now 0)) }
{
    let n = unit_count(name);
    let m = unit_count(owner);
    if n <= m {
        return None;
    }
    let k = n - m;
    let spot = find(name, k - 1);
    if spot.left + 1 == spot.units {
        return names::inside::same_key(&name[spot.end..], owner).then_some(k);
    }
    let front = leading(owner)?;
    if spot.left + 1 + front.bits != spot.units {
        return None;
    }
    if !same_bits(&name[spot.at + 2..], front.octets, front.bits) {
        return None;
    }
    names::inside::same_key(&name[spot.end..], front.rest).then_some(k)
}

// n bits of octets, after the first `skip`, packed.
fn append_from(octets: &[u8], skip: usize, n: usize, out: &mut [u8], packer: Packer) -> Packer
    requires ready { Ready out.old packer n }
    requires n_bound { octets_for (skip + n) ≤ length octets.now }
    ensures { Pushed out.old out.new packer result (drop skip (unpack (skip + n) octets.now)) }
{
    let i = skip / 8;
    let cut = skip % 8;
    if cut == 0 {
        return packer.append(out, &octets[i..], n);
    }
    let width = 8 - cut;
    let x = low(octets[i], width);
    if n <= width {
        return packer.push(out, n, x >> (width - n));
    }
    let packer = packer.push(out, width, x);
    packer.append(out, &octets[i + 1..], n - width)
}

// The first k units of a name and then a target's, in standard form with zeros after it; its length, or none where that is too large.
pub fn splice(name: &[u8], k: usize, target: &[u8], out: &mut [u8]) -> Option<usize>
    requires standing { Standing name.now × Standing target.now }
    requires k_nonzero { (0 < k) × (k ≤ length (units_at name.now 0)) × (out.old ≡ blank 255) }
    ensures value { result ≡ spliced_length (rewrite_of k (units_at name.now 0) (units_at target.now 0)) }
    ensures out_after { out.new ≡ spliced_out (rewrite_of k (units_at name.now 0) (units_at target.now 0)) }
{
    let spot = find(name, k - 1);
    let end = spot.end;
    let kept = spot.left + 1;
    if name[spot.at] == 65 {
        return join(name, spot.at, spot.units - kept, kept, target, out);
    }
    let size = end + target.len();
    if 255 < size {
        return None;
    }
    out[..end].copy_from_slice(&name[..end]);
    out[end..size].copy_from_slice(target);
    Some(size)
}

// The same after the octets of a name before `at`: the last `kept` of the bits of the label there, after the bits that the target begins with, are one run.
fn join(
    name: &[u8],
    at: usize,
    skip: usize,
    kept: usize,
    target: &[u8],
    out: &mut [u8],
) -> Option<usize>
    requires standing { Standing target.now × (out.old ≡ blank 255) }
    requires name_len_bound { (length name.now ≤ 255) × (at + 2 + octets_for (skip + kept) ≤ length name.now) × (skip + kept ≤ 256) × (0 < kept) }
    ensures value { result ≡ joined_length (take at name.now) (drop skip (unpack (skip + kept) (drop (at + 2) name.now))) (units_at target.now 0) }
    ensures out_after { out.new ≡ joined_out (take at name.now) (drop skip (unpack (skip + kept) (drop (at + 2) name.now))) (units_at target.now 0) }
{
    let front = leading(target).unwrap_or(Front {
        octets: &[],
        bits: 0,
        rest: target,
    });
    let total = front.bits + kept;
    if 256 < total {
        return None;
    }
    let size = at + 2 + octets_for(total) + front.rest.len();
    if 255 < size {
        return None;
    }
    out[..at].copy_from_slice(&name[..at]);
    out[at] = 65;
    out[at + 1] = (total % 256) as u8;
    let packer = Packer::new(at + 2);
    let packer = append_from(front.octets, 0, front.bits, out, packer);
    let packer = append_from(&name[at + 2..], skip, kept, out, packer);
    let end = packer.flush(out);
    out[end..size].copy_from_slice(front.rest);
    Some(size)
}
