// Collapse of a name (01, Collapse of a name X; T-01): its meaning, its running form, and what no list of collapses changes.
#![tactic(auto)]

ghost use Rattle.std.specs.Prelude.{◌≡◌, true, ◌&&◌, ◌+◌, ◌*◌, ◌/◌, ◌%◌, ◌≤◌, ◌<◌, length, get_or, MatchOption, OnOk, Some};
ghost use Rattle.octets.specs.Octets.{flat};
ghost use Rattle.octets.specs.Refusals.{answered};
ghost use Rattle.names.specs.Standard.{same_name, in_standard_form};
ghost use Rattle.chains.specs.Lists.{pick, up_to};
ghost use Rattle.plan.specs.Layout.{record_size, max_records, name_in, prefix_of, count_of, record_at};
ghost use Rattle.plan.specs.Check.{InOrder};
ghost use Rattle.plan.specs.Faults.{replying, replied};
ghost use Rattle.plan.specs.Good.{Good};
ghost use Rattle.collapse.specs.Fold.{leads, unfinished, continues, refers, joined_of, made_of, place_of, fold_of};
ghost use Rattle.collapse.specs.Collapse.{collapse_answer, collapse_out};
ghost use Rattle.collapse.specs.Running.{within, lesser_of, greater_of, crossed, span_of, bucket_of, Linked, made_by, stored_one, stored};

use octets::{Done, Refusal};
use plan::Refused;
use plan::inside::{Kind, Parts, RECORD, SLOT};

// The most records of a table (01, The plan table).
const MAX_RECORDS: usize = 1024;

// How many buckets the records go into.
const BUCKETS: usize = 256;

// The table with a name folded: what each unfinished record of it makes with the records of its target stands in its place. Zeros after it; or a
// refusal (01, What comes back), beside 2 and 3 with the place of the table's fault (T-04), and zeros alone.
pub fn collapse(table: &[u8], name: &[u8], out: &mut [u8]) -> Result<Done, Refused>
    ensures reply { replied result ≡ replying table.now (collapse_answer table.now name.now (length out.old)) }
    ensures output { out.new ≡ collapse_out table.now name.now (length out.old) }
{
    let outcome = fill(table, name, out);
    if outcome.is_err() {
        octets::clear(out);
    }
    outcome
}

// The same, but what a refusal leaves in the output is left open.
fn fill(table: &[u8], name: &[u8], out: &mut [u8]) -> Result<Done, Refused>
    ensures reply { replied result ≡ replying table.now (collapse_answer table.now name.now (length out.old)) }
    ensures output { OnOk result (out.new ≡ collapse_out table.now name.now (length out.old)) }
{
    let entered = plan::inside::enter(table, name);
    entered.outcome?;
    if out.len() % RECORD != 0 {
        return Err(Refused::from(Refusal::Output));
    }
    let done = fold(table, entered.name.as_slice(), out)?;
    Ok(done)
}

// The same, for a table and an output in order and a name in standard form.
fn fold(table: &[u8], name: &[u8], out: &mut [u8]) -> Result<Done, Refusal>
    requires { InOrder table.now × (in_standard_form name.now ≡ true) × (length out.old % record_size ≡ 0) }
    ensures answer { answered result ≡ collapse_answer table.now name.now (length out.old) }
    ensures output { OnOk result (out.new ≡ collapse_out table.now name.now (length out.old)) }
{
    if survey(table, name).is_crossed() {
        return Err(Refusal::Reviving);
    }
    let most = MAX_RECORDS.min(out.len() / RECORD);
    let Some(n) = put_all(table, name, most, out) else {
        return Err(Refusal::Room);
    };
    octets::clear(&mut out[n * RECORD..]);
    Ok(Done {
        count: n as u32,
        work: 0,
    })
}

// Whether a record is an unfinished A6 record of a name.
#[tactic(auto, unfolding(crate::specs::Fold::unfinished))]
fn is_unfinished(row: &[u8; RECORD], name: &[u8]) -> bool
    requires { Good row.now × (in_standard_form name.now ≡ true) }
    ensures { result ≡ unfinished name.now row.now }
{
    is_named(row, plan::inside::owner_slot(row), name)
}

// Whether a record is an A6 record whose target is a name.
#[tactic(auto, unfolding(crate::specs::Fold::refers))]
fn is_referrer(row: &[u8; RECORD], name: &[u8]) -> bool
    requires { Good row.now × (in_standard_form name.now ≡ true) }
    ensures { result ≡ refers name.now row.now }
{
    is_named(row, plan::inside::target_slot(row), name)
}

// Whether a record is an A6 record with a target, and the name in a slot of it is this one.
fn is_named(row: &[u8; RECORD], slot: &[u8; SLOT], name: &[u8]) -> bool
    requires { (leads row.now ≡ true → in_standard_form (name_in slot.now) ≡ true) × (in_standard_form name.now ≡ true) }
    ensures { result ≡ (leads row.now && same_name (name_in slot.now) name.now) }
{
    plan::inside::is_a6(row)
        && 0 < plan::inside::prefix_of(row)
        && names::inside::equal(plan::inside::name_in(slot), name)
}

// Whether q is an A6 record that the target of the unfinished record r owns, no longer than r.
#[tactic(auto, unfolding(crate::specs::Fold::continues))]
fn is_next(r: &[u8; RECORD], q: &[u8; RECORD]) -> bool
    requires { Good r.now × Good q.now × (0 < prefix_of r.now) }
    ensures { result ≡ continues r.now q.now }
{
    plan::inside::is_a6(q)
        && plan::inside::prefix_of(q) <= plan::inside::prefix_of(r)
        && names::inside::equal(
            plan::inside::name_in(plan::inside::owner_slot(q)),
            plan::inside::name_in(plan::inside::target_slot(r)),
        )
}

// The prefix lengths of the shortest record that refers to a name, and of the longest unfinished record of it.
#[derive(Clone, Copy)]
pub struct Span {
    pub shortest: Option<u8>,
    pub longest: Option<u8>,
}

impl Span {
    // Whether some record that refers to the name is shorter than an unfinished one of it.
    fn is_crossed(self) -> bool
        ensures { result ≡ crossed self }
    {
        match (self.shortest, self.longest) {
            (Some(shortest), Some(longest)) => shortest < longest,
            _ => false,
        }
    }
}

// The lesser and the greater of two prefix lengths; the second, where there is no first.
fn lesser(best: Option<u8>, prefix: u8) -> u8
    ensures { result ≡ lesser_of best prefix }
{
    best.map_or(prefix, |best| best.min(prefix))
}

fn greater(best: Option<u8>, prefix: u8) -> u8
    ensures { result ≡ greater_of best prefix }
{
    best.map_or(prefix, |best| best.max(prefix))
}

// The span of a name over the whole table.
fn survey(table: &[u8], name: &[u8]) -> Span
    requires { InOrder table.now × (in_standard_form name.now ≡ true) }
    ensures { result ≡ span_of name.now table.now (count_of table.now) }
{
    let mut shortest = None;
    let mut longest = None;
    for i in 0..plan::inside::count(table) {
        let row = plan::inside::row(table, i);
        let prefix = plan::inside::prefix_of(row);
        if is_referrer(row, name) {
            shortest = Some(lesser(shortest, prefix));
        }
        if is_unfinished(row, name) {
            longest = Some(greater(longest, prefix));
        }
    }
    Span { shortest, longest }
}

// The records of a table by the bucket of their owner, in table order: the first of each bucket, and after each record the next of its bucket.
// Records are named by index, since memory is fixed: nothing here may allocate. The lists are lent and not held: as options, or moved, they would take several
// times the stack.
#[derive(Clone, Copy)]
struct Buckets<'a> {
    first: &'a [u16; BUCKETS],
    next: &'a [u16; MAX_RECORDS],
}

// The index of no record.
const NONE: u16 = 1024;

// A record by its index.
#[tactic(auto, unfolding(crate::specs::Running::within))]
fn some_record(index: u16) -> Option<usize>
    ensures { result ≡ within index }
{
    let j = octets::numbers::wide(index);
    if j < MAX_RECORDS { Some(j) } else { None }
}

impl Buckets<'_> {
    // The first record of a bucket.
    fn start(self, bucket: usize) -> Option<usize>
        requires { bucket < 256 }
        ensures { result ≡ within (get_or self.entry.first.now bucket 0) }
    {
        let first = self.first;
        some_record(first[bucket])
    }

    // The next record of its bucket after one.
    fn after(self, j: usize) -> Option<usize>
        requires { j < max_records }
        ensures { result ≡ within (get_or self.entry.next.now j 0) }
    {
        let next = self.next;
        some_record(next[j])
    }
}

// All records, in lists that have none.
fn link_all(table: &[u8], first: &mut [u16; BUCKETS], next: &mut [u16; MAX_RECORDS])
    requires { InOrder table.now × Linked table.now first.old next.old (count_of table.now) }
    ensures { Linked table.now first.new next.new 0 }
{
    for i in (0..plan::inside::count(table)).rev() {
        link(table, i, first, next);
    }
}

// The record i in front of those of its bucket that come after it.
fn link(table: &[u8], i: usize, first: &mut [u16; BUCKETS], next: &mut [u16; MAX_RECORDS])
    requires { (i < count_of table.now) × (count_of table.now ≤ max_records) × Linked table.now first.old next.old (i + 1) }
    ensures { Linked table.now first.new next.new i }
{
    let b = bucket(plan::inside::owner_slot(plan::inside::row(table, i)));
    next[i] = first[b];
    first[b] = i as u16;
}

// The bucket of a slot: slots of the same name share it.
#[tactic(auto, unfolding(crate::specs::Running::bucket_of))]
fn bucket(slot: &[u8; SLOT]) -> usize
    ensures { (result ≡ bucket_of slot.now) × (result < 256) }
{
    octets::numbers::wide(plan::inside::mark(slot)) % BUCKETS
}

// The rule's records, which go into the output as far as it has room; how many there are, or none where they are more than `most`.
fn put_all(table: &[u8], name: &[u8], most: usize, out: &mut [u8]) -> Option<usize>
    requires { InOrder table.now × (in_standard_form name.now ≡ true) × (most ≤ max_records) }
    ensures { MatchOption result (most < length (fold_of name.now table.now)) (λ n. (n ≤ most) × (n ≡ length (fold_of name.now table.now)) × (out.new ≡ stored out.old 0 (fold_of name.now table.now))) }
{
    let mut first = [NONE; BUCKETS];
    let mut next = [NONE; MAX_RECORDS];
    link_all(table, &mut first, &mut next);
    let buckets = Buckets {
        first: &first,
        next: &next,
    };
    let mut n = 0;
    for i in 0..plan::inside::count(table) {
        n = put_place(table, name, i, buckets, out, n);
        if most < n {
            return None;
        }
    }
    Some(n)
}

// What stands in the place of the record i, from record n of the output on; where the next record goes. This function and those below it that put records take
// the output and a count: a struct of both would be as long, and each clause speaks of both.
fn put_place(
    table: &[u8],
    name: &[u8],
    i: usize,
    buckets: Buckets,
    out: &mut [u8],
    n: usize,
) -> usize
    requires in_order { InOrder table.now × (in_standard_form name.now ≡ true) × Linked table.now buckets.first.now buckets.next.now 0 }
    requires i_bound { (i < count_of table.now) × (n ≤ max_records) }
    ensures value { result ≡ n + length (place_of name.now table.now i) }
    ensures out_after { out.new ≡ stored out.old n (place_of name.now table.now i) }
{
    let row = plan::inside::row(table, i);
    if is_unfinished(row, name) {
        return put_each(table, row, buckets, out, n);
    }
    put(row, out, n);
    n + 1
}

// The records that the unfinished record r makes, from record n of the output on; where the next record goes.
fn put_each(table: &[u8], r: &[u8; RECORD], buckets: Buckets, out: &mut [u8], n: usize) -> usize
    requires { InOrder table.now × Good r.now × (0 < prefix_of r.now) × (n ≤ max_records) × Linked table.now buckets.first.now buckets.next.now 0 }
    ensures value { result ≡ n + length (up_to (count_of table.now) (made_of table.now r.now)) }
    ensures out_after { out.new ≡ stored out.old n (up_to (count_of table.now) (made_of table.now r.now)) }
{
    let mut m = n;
    let mut next = buckets.start(bucket(plan::inside::target_slot(r)));
    while let Some(j) = next {
        m = put_made(r, plan::inside::row(table, j), out, m);
        next = buckets.after(j);
    }
    m
}

// What the unfinished record r makes with the record q, if anything, as record n of the output; where the next record goes.
fn put_made(r: &[u8; RECORD], q: &[u8; RECORD], out: &mut [u8], n: usize) -> usize
    requires { Good r.now × Good q.now × (0 < prefix_of r.now) × (n ≤ max_records * 2) }
    ensures value { result ≡ n + length (made_by r.now q.now) }
    ensures out_after { out.new ≡ stored out.old n (made_by r.now q.now) }
{
    if !is_next(r, q) {
        return n;
    }
    put_joined(r, q, out, n);
    n + 1
}

// A record as record n of the output, if there is room for it.
fn put(row: &[u8; RECORD], out: &mut [u8], n: usize)
    requires { n ≤ max_records * 2 }
    ensures { out.new ≡ stored_one out.old n row.now }
{
    if n < out.len() / RECORD {
        octets::inside::copy_whole(row, &mut out[n * RECORD..(n + 1) * RECORD]);
    }
}

// The record that the records r and q make as record n of the output, if there is room for it: the bits of q up to the length of r and those of r
// after it, and the smaller TTL.
fn put_joined(r: &[u8; RECORD], q: &[u8; RECORD], out: &mut [u8], n: usize)
    requires { n ≤ max_records * 2 }
    ensures { out.new ≡ stored_one out.old n (joined_of r.now q.now) }
{
    if n < out.len() / RECORD {
        let high = *plan::inside::address_of(q);
        let low = *plan::inside::address_of(r);
        let parts = Parts {
            kind: Kind::A6.number(),
            prefix: plan::inside::prefix_of(q),
            address: address::join(high, low, plan::inside::prefix_of(r)),
            owner: plan::inside::owner_slot(r),
            target: plan::inside::target_slot(q),
            ttl: octets::numbers::lesser(plan::inside::ttl_of(r), plan::inside::ttl_of(q)),
        };
        parts.write(out, n * RECORD);
    }
}
