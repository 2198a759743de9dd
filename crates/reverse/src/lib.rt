// Reverse lookup by DNAME records (01, Reverse names).
#![tactic(auto)]

ghost use Rattle.std.specs.Prelude.{◌≡◌, ◌+◌, ◌<◌, length, MatchResult};
ghost use Rattle.octets.specs.Octets.{blank};
ghost use Rattle.octets.specs.Refusals.{code_of, answered};
ghost use Rattle.names.specs.Standard.{encode};
ghost use Rattle.plan.specs.Layout.{address_size, name_room, count_of};
ghost use Rattle.plan.specs.Check.{InOrder};
ghost use Rattle.plan.specs.Faults.{fault_in, replying, replied};
ghost use Rattle.reverse.specs.Walk.{start_of, walk_of};
ghost use Rattle.reverse.specs.Answers.{rules_of, early_number, answer_for, out_for, reverse_answer, reverse_out};
ghost use Rattle.rewriting.specs.Spots.{units_at, Standing};
ghost use Rattle.reverse.specs.Choice.{better_of, Chosen};

use octets::{Done, Refusal};
use plan::Refused;

// The name at which the rewriting of an address's reverse name ends, in standard form with zeros after it; its length, and the rewrites (01, Reverse names).
// Beside 2 and 3 the place of the table's fault (T-04).
pub fn lookup(table: &[u8], address: &[u8], limit: u8, out: &mut [u8]) -> Result<Done, Refused>
    ensures reply { replied result ≡ replying table.now (reverse_answer table.now address.now limit (length out.old)) }
    ensures output { out.new ≡ reverse_out table.now address.now limit (length out.old) }
{
    octets::clear(out);
    early(table, address, out.len())?;
    let name = start(address);
    let done = walk(table, &name, limit, 0, out)?;
    Ok(done)
}

// What is refused before the walk: the table by its own number and fault, 4 for the address, 5 for an output of `room` octets.
fn early(table: &[u8], address: &[u8], room: usize) -> Result<(), Refused>
    ensures { MatchResult result (λ _. early_number table.now address.now room ≡ 0) (λ refused. (code_of refused.refusal ≡ early_number table.now address.now room) × (refused.fault ≡ fault_in table.now)) }
{
    plan::check(table)?;
    if address.len() != 16 {
        return Err(Refused::from(Refusal::Given));
    }
    if room != 255 {
        return Err(Refused::from(Refusal::Output));
    }
    Ok(())
}

// The name that a walk starts from: one bit label with the bits of the address, then IP6 and ARPA.
fn start(address: &[u8]) -> [u8; 28]
    requires { length address.now ≡ address_size }
    ensures { result ≡ encode (start_of address.now) }
{
    let mut name = [0u8; 28];
    name[0] = 65;
    name[1] = 128;
    name[2..18].copy_from_slice(address);
    name[18..].copy_from_slice(b"\x03IP6\x04ARPA\x00");
    name
}

// The walk from a name, with `limit` rewrites left and `done` behind it: it ends where no DNAME applies, with 6 and with 8.
fn walk(table: &[u8], name: &[u8], limit: u8, done: u8, out: &mut [u8]) -> Result<Done, Refusal>
    requires in_order { InOrder table.now × Standing name.now }
    requires done_bound { (limit + done < 256) × (out.old ≡ blank name_room) }
    ensures value { answered result ≡ answer_for (walk_of limit done (rules_of table.now) (units_at name.now 0)) }
    ensures out_after { out.new ≡ out_for (walk_of limit done (rules_of table.now) (units_at name.now 0)) name_room }
{
    let Some(best) = choose(table, name) else {
        let n = name.len();
        octets::inside::copy_whole(name, &mut out[..n]);
        return Ok(Done {
            count: n as u32,
            work: u32::from(done),
        });
    };
    if limit == 0 {
        return Err(Refusal::Limit);
    }
    let mut next = [0u8; 255];
    let target = plan::inside::target(table, best.index);
    let Some(n) = rewriting::inside::splice(name, best.below, target, &mut next) else {
        return Err(Refusal::TooLong);
    };
    walk(table, &next[..n], limit - 1, done + 1, out)
}

// A DNAME that applies: how many units of the name are below its owner, and its index.
#[derive(Clone, Copy)]
pub struct Best {
    pub below: usize,
    pub index: usize,
}

// Of the DNAMEs that apply to a name, the one with most units in its owner.
// Apart from `walk`, which calls itself: what this function works with does not lie on the stack once for each rewrite.
#[inline(never)]
fn choose(table: &[u8], name: &[u8]) -> Option<Best>
    requires { InOrder table.now × Standing name.now }
    ensures { Chosen table.now name.now (count_of table.now) result }
{
    let mut best = None;
    for index in 0..plan::inside::count(table) {
        best = consider(table, name, index, best);
    }
    best
}

// The best after one more record.
fn consider(table: &[u8], name: &[u8], index: usize, best: Option<Best>) -> Option<Best>
    requires { InOrder table.now × Standing name.now × (index < count_of table.now) × Chosen table.now name.now index best }
    ensures { Chosen table.now name.now (index + 1) result }
{
    if !plan::inside::is_dname(plan::inside::row(table, index)) {
        return best;
    }
    match rewriting::inside::beneath(name, plan::inside::owner(table, index)) {
        Some(below) => Some(better(best, Best { below, index })),
        None => best,
    }
}

// Of two DNAMEs that apply, the one that has fewer units of the name below its owner: the first, where they have as many.
fn better(best: Option<Best>, next: Best) -> Best
    ensures { result ≡ better_of best next }
{
    match best {
        Some(first) if first.below <= next.below => first,
        _ => next,
    }
}
