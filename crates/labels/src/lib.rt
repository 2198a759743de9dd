// Names in wire form, label by label: the one reader of names (01, Names).
#![tactic(auto)]

ghost use Rattle.std.specs.Prelude.{◌≡◌, ◌≤◌, ◌<◌, length, get_or, drop};
ghost use Rattle.labels.specs.Scan.{scan_of};
ghost use Rattle.labels.specs.Answers.{scanned};
ghost use Rattle.labels.specs.Steps.{step_of};

use octets::Refusal;

// What a scan finds of a name (01, What comes back): the octets that it takes, and whether it is in standard form already.
#[derive(Clone, Copy)]
pub struct Scanned {
    pub used: usize,
    pub standard: bool,
}

// The name at the front of s, read from left to right; more octets may follow it. It is refused as `Short` or `Malformed`.
pub fn scan(s: &[u8]) -> Result<Scanned, Refusal>
    ensures { result ≡ scanned (scan_of s.now) }
{
    let mut at: usize = 0;
    let mut run: usize = 0;
    let mut standard = true;
    // From label to label, whose sizes differ: no iterator goes so.
    while at < s.len() {
        let step = label(s, at, run)?;
        if s[at] == 0 {
            return Ok(Scanned {
                used: step.end,
                standard,
            });
        }
        // In standard form no two bit labels are adjacent.
        if step.run != 0 {
            standard &= run == 0;
        }
        at = step.end;
        run = step.run;
    }
    Err(Refusal::Short)
}

// What one label gives: where it ends, and the bits of its run so far.
#[derive(Clone, Copy)]
pub struct Step {
    pub end: usize,
    pub run: usize,
}

// The label at `at`, after `run` bits of a run: the tests of 01 (What comes back) in their order.
fn label(s: &[u8], at: usize, run: usize) -> Result<Step, Refusal>
    requires { (at < length s.now) × (at ≤ 255) × (run ≤ 256) }
    ensures { result ≡ step_of at run (drop at s.now) }
{
    let x = s[at];
    // The lengths first: nearly every label is an ordinary one.
    if x < 64 {
        let end = at + 1 + octets::wide(x);
        if s.len() < end {
            return Err(Refusal::Short);
        }
        if 255 < end {
            return Err(Refusal::Malformed);
        }
        return Ok(Step { end, run: 0 });
    }
    if x != 65 {
        return Err(Refusal::Malformed);
    }
    bit_label(s, at, run)
}

// The same for a label that begins with 65.
fn bit_label(s: &[u8], at: usize, run: usize) -> Result<Step, Refusal>
    requires { (at < length s.now) × (at ≤ 255) × (run ≤ 256) × (get_or s.now at 0 ≡ 65) }
    ensures { result ≡ step_of at run (drop at s.now) }
{
    if s.len() <= at + 1 {
        return Err(Refusal::Short);
    }
    let bits = inside::count(s[at + 1]);
    let octets = bits::inside::octets_for(bits);
    let end = at + 2 + octets;
    if s.len() < end {
        return Err(Refusal::Short);
    }
    if 255 < end {
        return Err(Refusal::Malformed);
    }
    if bits::inside::low(s[end - 1], octets * 8 - bits) != 0 {
        return Err(Refusal::Malformed);
    }
    if 256 < run + bits {
        return Err(Refusal::Malformed);
    }
    Ok(Step {
        end,
        run: run + bits,
    })
}

pub mod inside;
