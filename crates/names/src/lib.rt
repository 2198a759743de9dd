// Names: put in standard form, compared, held by value (01, Names).
#![tactic(auto)]

ghost use Rattle.std.specs.Prelude.{◌≡◌, true, false, ◌++◌, ◌+◌, ◌-◌, ◌*◌, ◌/◌, ◌%◌, ◌≤◌, ◌<◌, [], length, get_or, take, Ok, MatchOption, is_some};
ghost use Rattle.octets.specs.Octets.{blank};
ghost use Rattle.octets.specs.Refusals.{answered};
ghost use Rattle.labels.specs.Scan.{scan_of, well_formed};
ghost use Rattle.labels.specs.Answers.{scanned};
ghost use Rattle.names.specs.Standard.{standard_of, in_standard_form};
ghost use Rattle.names.specs.Name.{name_of, held, held_of};
ghost use Rattle.names.specs.Answers.{standard_answer, standard_out};
ghost use Rattle.bits.specs.Packing.{Clean};
ghost use Rattle.names.specs.Merge.{Begins, Moved, Ran, labels_at, run_bits};

use bits::inside::Packer;
use labels::Scanned;
use octets::{Done, Refusal};

// A name by value: its octets with zeros after them, and its length; length 0 holds no name (01, A6 data). It takes fixed memory, and the C interface has it
// in this form.
#[derive(Clone, Copy)]
pub struct Name {
    pub octets: [u8; 255],
    pub length: u8,
}

impl Name {
    // No name.
    #[tactic(auto, unfolding(crate::specs::Name::name_of, octets::specs::Octets::blank))]
    pub fn none() -> Name
        ensures { result ≡ name_of [] }
    {
        Name {
            octets: [0; 255],
            length: 0,
        }
    }

    // The octets of the name.
    pub fn as_slice(&self) -> &[u8]
        ensures { result.now ≡ take self.now.length self.now.octets }
    {
        &self.octets[..octets::wide(self.length)]
    }
}

// The standard form of a name with zeros after it, and its length (01, Names): 4 for a malformed name, 5 for an output not of 255 octets.
pub fn standard_form(name: &[u8], out: &mut [u8]) -> Result<Done, Refusal>
    ensures value { answered result ≡ standard_answer name.now (length out.old) }
    ensures out_after { out.new ≡ standard_out name.now (length out.old) }
{
    octets::clear(out);
    let scanned = whole(name).ok_or(Refusal::Given)?;
    if out.len() != 255 {
        return Err(Refusal::Output);
    }
    // Lent on by `[..]` and not by its own name, the slice stays in registers.
    let n = inside::put_standard(&name[..], scanned.standard, out);
    Ok(Done {
        count: n as u32,
        work: 0,
    })
}

// What a scan finds of octets that are a name from end to end.
fn whole(name: &[u8]) -> Option<Scanned>
    ensures { MatchOption result (well_formed name.now ≡ false) (λ t. (well_formed name.now ≡ true) × (Ok t ≡ scanned (scan_of name.now))) }
{
    match labels::scan(name) {
        Ok(scanned) if scanned.used == name.len() => Some(scanned),
        _ => None,
    }
}

// Whether octets are a name in standard form, from end to end.
pub fn is_standard(name: &[u8]) -> bool
    ensures { result ≡ in_standard_form name.now }
{
    whole(name).is_some_and(|scanned| scanned.standard)
}

// The standard form of a name as a value; none for a malformed name.
pub fn hold(name: &[u8]) -> Option<Name>
    ensures value { held result ≡ held_of name.now }
    ensures variant { is_some result ≡ well_formed name.now }
{
    let mut octets = [0u8; 255];
    let done = standard_form(name, &mut octets).ok()?;
    Some(Name {
        octets,
        length: done.count as u8,
    })
}

// Where the next label is read, and where the next octet is written.
#[derive(Clone, Copy)]
pub struct Place {
    pub at: usize,
    pub to: usize,
}

// Where a run ended, and what of it is packed.
#[derive(Clone, Copy)]
pub struct Run {
    pub end: usize,
    pub packer: Packer,
}

// The run that the bit label at `at` begins, after `sum` bits of it: the header at `to`, then the bits, the right label's first.
fn pack_run(name: &[u8], at: usize, sum: usize, to: usize, out: &mut [u8]) -> Run
    requires begins { Begins name.now at × (get_or name.now at 0 ≡ 65) }
    requires sum_bound { (sum ≤ 8 * at) × (to + (length name.now - at) ≤ length out.old) × Clean out.old to }
    ensures ran { Ran name.now out.old out.new at sum to result }
    ensures short { length (run_bits (labels_at name.now at)) + 16 ≤ 8 * (result.end - at) }
{
    let bits = labels::inside::count(name[at + 1]);
    let after = at + 2 + bits::inside::octets_for(bits);
    let sum = sum + bits;
    let run = if name[after] == 65 {
        // Lent on by `[..]` and not by its own name, the slice stays in registers.
        pack_run(&name[..], after, sum, to, out)
    } else {
        out[to] = 65;
        out[to + 1] = (sum % 256) as u8;
        Run {
            end: after,
            packer: Packer::new(to + 2),
        }
    };
    Run {
        end: run.end,
        packer: run.packer.append(out, &name[at + 2..], bits),
    }
}

// The label or the run at `at`, written at `to`.
fn next(name: &[u8], at: usize, to: usize, out: &mut [u8]) -> Place
    requires begins { Begins name.now at }
    requires to_le_at { (to ≤ at) × Clean out.old to × (length out.old ≡ 255) × (0 < get_or name.now at 0) }
    ensures { Moved name.now out.old out.new at to result }
{
    let x = name[at];
    if x == 65 {
        let run = pack_run(name, at, 0, to, out);
        return Place {
            at: run.end,
            to: run.packer.flush(out),
        };
    }
    let size = octets::wide(x) + 1;
    octets::inside::copy(name, at, size, out, to);
    Place {
        at: at + size,
        to: to + size,
    }
}

// The standard form of a well-formed name, label by label and run by run; its length.
fn merge(name: &[u8], out: &mut [u8]) -> usize
    requires { (well_formed name.now ≡ true) × (out.old ≡ blank 255) }
    ensures { (out.new ≡ standard_of name.now ++ blank (255 - length (standard_of name.now))) × (result ≡ length (standard_of name.now)) × (result ≤ 255) }
{
    let mut at: usize = 0;
    let mut to: usize = 0;
    // From label to label, whose sizes differ: no iterator goes so.
    while name[at] != 0 {
        let place = next(name, at, to, out);
        at = place.at;
        to = place.to;
    }
    to + 1
}

pub mod inside;
