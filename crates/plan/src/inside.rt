// What only our own layers call: the fields of a record by its index, and slots of names, compared and marked. Nobody else knows where a field stands.
ghost use Rattle.std.specs.Prelude.{◌≡◌, ◌+◌, ◌*◌, ◌^◌, ◌≤◌, ◌<◌, eqb, length, get_or, true, false, not, MatchOption, MatchResult};
ghost use Rattle.std.proofs.Math.Seq.{paste};
ghost use Rattle.octets.specs.Refusals.{code_of};
ghost use Rattle.names.specs.Standard.{same_name};
ghost use Rattle.chains.specs.Lists.{pick};
ghost use Rattle.plan.specs.Layout.{record_size, max_records, owner_place, name_room, slot_size, type_of, is_a6, is_dname, prefix_of, zero_of, address_of, owner_slot, target_slot, ttl_of, name_in, slot_of, record_of, count_of, record_at, prefix_at, address_at, owner_at, target_at, ttl_at};
ghost use Rattle.plan.specs.Records.{kind_number};
ghost use Rattle.names.specs.Name.{name_of, held_of};
ghost use Rattle.octets.specs.Answers.{earns, or_else};
ghost use Rattle.plan.specs.Check.{targetless, check_of, entry_number};
ghost use Rattle.plan.specs.Faults.{fault_in};
ghost use Rattle.plan.specs.Good.{Holds};
ghost use Rattle.plan.specs.Marks.{pair_at, masked_at, term_at, sum_to, sum_of, mark_of, alike_of};
ghost use Rattle.plan.specs.Part.{owner_within};
ghost use Rattle.plan.specs.Fields.{one_a6, fields_of, slot_for, a6_record};

use crate::{Part, Refused};
use octets::Refusal;

// The octets of a record (01, The plan table; T-01).
pub const RECORD: usize = 536;

// Where the longer fields of a record stand.
const ADDRESS: usize = 4;

const OWNER: usize = 20;

const TARGET: usize = 276;

const TTL: usize = 532;

// The octets of a slot: its length, and the most that a name has.
pub const SLOT: usize = 256;

// The types of records.
#[derive(Clone, Copy, Debug, PartialEq, Eq)]
pub enum Kind {
    A6 = 38,
    Dname = 39,
}

impl Kind {
    // The number of a type.
    pub fn number(self) -> u16
        ensures { result ≡ kind_number self }
    {
        self as u16
    }
}

// All bits of the four octets of a word but the one of each that tells the case of a letter (T-03).
const CASELESS: u32 = 0xDFDFDFDF;

// The fields of an A6 record; a target of length 0 where it has none (T-06), as the record's slot says it and the definitions `fields_of` and `a6_record`.
#[derive(Clone, Copy)]
pub struct Fields {
    pub prefix: u8,
    pub address: [u8; 16],
    pub owner: names::Name,
    pub target: names::Name,
    pub ttl: u32,
}

// What a table and a given name earn together: whether both are taken, and, whichever it is, the name in standard form, none where it is malformed.
#[derive(Clone, Copy)]
pub struct Entered {
    pub outcome: Result<(), Refused>,
    pub name: names::Name,
}

// The entry of each operation on a table and a given name: the check of the table, then the name, of which the standard form comes back.
// Apart from its callers: what it makes on the way to the name does not lie on the stack while they work.
#[inline(never)]
pub fn enter(table: &[u8], name: &[u8]) -> Entered
    ensures outcome { MatchResult result.outcome (λ _. entry_number table.now name.now ≡ 0) (λ refused. (code_of refused.refusal ≡ entry_number table.now name.now) × (refused.fault ≡ fault_in table.now)) }
    ensures name { result.name ≡ held_of name.now }
{
    let held = names::hold(name);
    Entered {
        outcome: admit(table, held.is_some()),
        name: held.unwrap_or(names::Name::none()),
    }
}

// Whether a table is taken, and then a name of which it is known whether it is well formed.
fn admit(table: &[u8], formed: bool) -> Result<(), Refused>
    ensures { MatchResult result (λ _. or_else (check_of table.now) (earns (not formed) 4 0) ≡ 0) (λ refused. (code_of refused.refusal ≡ or_else (check_of table.now) (earns (not formed) 4 0)) × (refused.fault ≡ fault_in table.now)) }
{
    crate::check(table)?;
    if !formed {
        return Err(Refused::from(Refusal::Given));
    }
    Ok(())
}

// How many records a table has.
pub fn count(table: &[u8]) -> usize
    ensures { result ≡ count_of table.now }
{
    table.len() / RECORD
}

// The octets of the record at an index.
pub fn row(table: &[u8], index: usize) -> &[u8; RECORD]
    requires { index < count_of table.now }
    ensures { result.now ≡ record_at table.now index }
{
    let a = index * RECORD;
    table[a..a + RECORD].as_array().unwrap()
}

// The octets of exactly one A6 record in order (T-06).
pub fn one_a6(row: &[u8]) -> Option<&[u8; RECORD]>
    ensures { MatchOption result (one_a6 row.now ≡ false) (λ whole. (whole.now ≡ row.now) × (one_a6 row.now ≡ true)) }
{
    let whole = row.as_array()?;
    if !crate::is_a6(row) {
        return None;
    }
    Some(whole)
}

// The prefix length of the record at an index.
pub fn prefix(table: &[u8], index: usize) -> u8
    requires { index < count_of table.now }
    ensures { result ≡ prefix_at table.now index }
{
    prefix_of(row(table, index))
}

// Its address.
pub fn address(table: &[u8], index: usize) -> [u8; 16]
    requires { index < count_of table.now }
    ensures { result ≡ address_at table.now index }
{
    *address_of(row(table, index))
}

// Its owner, as a part of the table.
pub fn owner(table: &[u8], index: usize) -> &[u8]
    requires { index < count_of table.now }
    ensures { result.now ≡ owner_at table.now index }
{
    name_in(owner_slot(row(table, index)))
}

// Where its owner stands in the table.
pub fn owner_part(table: &[u8], index: usize) -> Part
    requires { index < count_of table.now }
    ensures { result ≡ owner_within table.now index }
{
    let name = owner(table, index);
    Part {
        offset: index * RECORD + (OWNER + 1),
        length: name.len(),
    }
}

// Where the owner of a record begins in its table, by the record's index and the owner's length; 0 for the empty part.
pub fn owner_place(index: usize, length: usize) -> usize
    requires { (length ≡ 0 → ⊥) → index < max_records }
    ensures { result ≡ pick (eqb length 0) 0 (index * record_size + (owner_place + 1)) }
{
    if length == 0 {
        return 0;
    }
    index * RECORD + (OWNER + 1)
}

// Its target, as a part of the table; no octets where it has none.
pub fn target(table: &[u8], index: usize) -> &[u8]
    requires { index < count_of table.now }
    ensures { result.now ≡ target_at table.now index }
{
    name_in(target_slot(row(table, index)))
}

// Its TTL.
pub fn ttl(table: &[u8], index: usize) -> u32
    requires { index < count_of table.now }
    ensures { result ≡ ttl_at table.now index }
{
    ttl_of(row(table, index))
}

// The number of a record's type.
pub fn kind_of(row: &[u8; RECORD]) -> u16
    ensures { result ≡ type_of row.now }
{
    u16::from_be_bytes([row[0], row[1]])
}

// Whether a record is an A6 record.
pub fn is_a6(row: &[u8; RECORD]) -> bool
    ensures { result ≡ is_a6 row.now }
{
    kind_of(row) == Kind::A6 as u16
}

// Whether a record is a DNAME record.
pub fn is_dname(row: &[u8; RECORD]) -> bool
    ensures { result ≡ is_dname row.now }
{
    kind_of(row) == Kind::Dname as u16
}

// The fields of a record.

pub fn prefix_of(row: &[u8; RECORD]) -> u8
    ensures { result ≡ prefix_of row.now }
{
    row[2]
}

pub fn zero_of(row: &[u8; RECORD]) -> u8
    ensures { result ≡ zero_of row.now }
{
    row[3]
}

pub fn address_of(row: &[u8; RECORD]) -> &[u8; 16]
    ensures { result.now ≡ address_of row.now }
{
    row[ADDRESS..OWNER].as_array().unwrap()
}

pub fn owner_slot(row: &[u8; RECORD]) -> &[u8; SLOT]
    ensures { result.now ≡ owner_slot row.now }
{
    row[OWNER..TARGET].as_array().unwrap()
}

pub fn target_slot(row: &[u8; RECORD]) -> &[u8; SLOT]
    ensures { result.now ≡ target_slot row.now }
{
    row[TARGET..TTL].as_array().unwrap()
}

pub fn ttl_of(row: &[u8; RECORD]) -> u32
    ensures { result ≡ ttl_of row.now }
{
    u32::from_be_bytes(*row[TTL..].as_array().unwrap())
}

// Whether a record leads to no name: an A6 record with prefix length 0.
pub fn is_targetless(row: &[u8; RECORD]) -> bool
    ensures { result ≡ targetless row.now }
{
    is_a6(row) && prefix_of(row) == 0
}

// The name that a slot holds, and where the octets after it begin.
pub fn name_in(slot: &[u8; SLOT]) -> &[u8]
    ensures { result.now ≡ name_in slot.now }
{
    let end = fill_in(slot);
    &slot[1..end]
}

pub fn fill_in(slot: &[u8; SLOT]) -> usize
    ensures { result ≡ 1 + get_or slot.now 0 0 }
{
    1 + octets::wide(slot[0])
}

// The fields of a record, the names as slots.
#[derive(Clone, Copy)]
pub struct Parts<'a> {
    pub kind: u16,
    pub prefix: u8,
    pub address: [u8; 16],
    pub owner: &'a [u8; SLOT],
    pub target: &'a [u8; SLOT],
    pub ttl: u32,
}

impl Parts<'_> {
    // The record, at a place of the output.
    pub fn write(self, out: &mut [u8], to: usize)
        requires { to + record_size ≤ length out.old }
        ensures { out.new ≡ paste out.old to (record_of self.entry.kind self.entry.prefix self.entry.address self.entry.owner.now self.entry.target.now self.entry.ttl) record_size }
    {
        let Parts {
            kind,
            prefix,
            address,
            owner,
            target,
            ttl,
        } = self;
        let [high, low] = kind.to_be_bytes();
        let life = octets::numbers::quarter_octets(ttl);
        octets::inside::copy(&[high, low, prefix, 0], 0, 4, out, to);
        octets::inside::copy(&address, 0, 16, out, to + ADDRESS);
        octets::inside::copy(owner, 0, SLOT, out, to + OWNER);
        octets::inside::copy(target, 0, SLOT, out, to + TARGET);
        octets::inside::copy(&life, 0, 4, out, to + TTL);
    }
}

// The slot of a name.
pub fn slot_of(name: &[u8]) -> [u8; SLOT]
    requires { length name.now ≤ name_room }
    ensures { result ≡ slot_of name.now }
{
    let mut slot = [0u8; SLOT];
    slot[0] = name.len() as u8;
    octets::inside::copy(name, 0, name.len(), &mut slot, 1);
    slot
}

// The fields of a record, by value (T-06).
pub fn fields_of(row: &[u8; RECORD]) -> Fields
    ensures { result ≡ fields_of row.now }
{
    Fields {
        prefix: prefix_of(row),
        address: *address_of(row),
        owner: held_name(owner_slot(row)),
        target: held_name(target_slot(row)),
        ttl: ttl_of(row),
    }
}

// The A6 record of its fields, at a place of the output (T-06).
pub fn write_fields(fields: Fields, out: &mut [u8], to: usize)
    requires { to + record_size ≤ length out.old }
    ensures { out.new ≡ paste out.old to (a6_record fields) record_size }
{
    let Fields {
        prefix,
        address,
        owner,
        target,
        ttl,
    } = fields;
    let owner = slot_for(owner);
    let target = slot_for(target);
    let parts = Parts {
        kind: Kind::A6.number(),
        prefix,
        address,
        owner: &owner,
        target: &target,
        ttl,
    };
    parts.write(out, to);
}

// The name that a slot holds, by value.
fn held_name(slot: &[u8; SLOT]) -> names::Name
    ensures { result ≡ name_of (name_in slot.now) }
{
    let name = name_in(slot);
    let mut octets = [0u8; 255];
    octets::inside::copy(name, 0, name.len(), &mut octets, 0);
    names::Name {
        octets,
        length: slot[0],
    }
}

// The slot of a name that is held by value.
fn slot_for(name: names::Name) -> [u8; SLOT]
    ensures { result ≡ slot_for name }
{
    let mut slot = [0u8; SLOT];
    slot[0] = name.length;
    let octets = name.octets;
    octets::inside::copy(&octets, 0, 255, &mut slot, 1);
    slot
}

// Whether two slots hold the same name.
pub fn same(a: &[u8; SLOT], b: &[u8; SLOT]) -> bool
    requires { Holds a.now × Holds b.now }
    ensures { result ≡ same_name (name_in a.now) (name_in b.now) }
{
    alike(a, b) || same_spelt(a, b)
}

// The same by the labels of the names. After a name a slot is zero, so that whole pieces of 32 octets are compared, which is faster.
fn same_spelt(a: &[u8; SLOT], b: &[u8; SLOT]) -> bool
    requires { Holds a.now × Holds b.now }
    ensures { result ≡ same_name (name_in a.now) (name_in b.now) }
{
    let n = a[0];
    if n != b[0] {
        return false;
    }
    let k = pieces(n);
    names::inside::same_labels(&a[..k], &b[..k], 1, 1 + octets::wide(n))
}

// The octets of a slot that are compared where its name has so many: a multiple of 32.
fn pieces(n: u8) -> usize
    ensures { (1 + n ≤ result) × (result ≤ slot_size) }
{
    octets::wide(n) / 32 * 32 + 32
}

// Whether the first 32 octets of two slots are the same and hold their names whole: most names that are the same are told by this alone.
// Eight octets at a time: `==` of slices looks at one after the other.
pub fn alike(a: &[u8; SLOT], b: &[u8; SLOT]) -> bool
    ensures { result ≡ alike_of a.now b.now }
{
    if pair(a, 0) != pair(b, 0) {
        return false;
    }
    if pair(a, 8) != pair(b, 8) {
        return false;
    }
    if pair(a, 16) != pair(b, 16) {
        return false;
    }
    if pair(a, 24) != pair(b, 24) {
        return false;
    }
    a[0] < 32
}

// A short number that the slots of one name share. The first 32 octets are enough for most names.
pub fn mark(slot: &[u8; SLOT]) -> u16
    ensures { result ≡ mark_of slot.now }
{
    let sum = sum_of(slot);
    ((sum / 4096 + sum / 16777216 * 3 + sum) % 65536) as u16
}

// The sum of the words that count: the first eight, and all of them where the name reaches past those.
fn sum_of(slot: &[u8; SLOT]) -> usize
    ensures { (result ≡ sum_of slot.now) × (result < 2 ^ 58) }
{
    let front = first_sum(slot);
    if slot[0] < 32 {
        return front;
    }
    whole_sum(slot, front)
}

// The sum of the first eight words, without a loop, which is faster.
fn first_sum(slot: &[u8; SLOT]) -> usize
    ensures { (result ≡ sum_to slot.now 8) × (result < 2 ^ 55) }
{
    term(slot, 0)
        + term(slot, 1)
        + term(slot, 2)
        + term(slot, 3)
        + term(slot, 4)
        + term(slot, 5)
        + term(slot, 6)
        + term(slot, 7)
}

// The sum of all words, from that of the first eight.
fn whole_sum(slot: &[u8; SLOT], front: usize) -> usize
    requires { (front ≡ sum_to slot.now 8) × (front < 2 ^ 55) }
    ensures { (result ≡ sum_to slot.now 64) × (result < 2 ^ 58) }
{
    let mut sum = front;
    for k in 8..64 {
        sum += term(slot, k);
    }
    sum
}

// What a word adds to the sum.
fn term(slot: &[u8; SLOT], k: usize) -> usize
    requires { k < 64 }
    ensures { (result ≡ term_at slot.now k) × (result < 2 ^ 52) }
{
    masked(slot, k * 4) * (52361 + k * 7919)
}

// The four octets from a place on as one number, the lowest first, each without the bit that tells the case of a letter, by one mask on the word.
fn masked(slot: &[u8; SLOT], i: usize) -> usize
    requires { i + 4 ≤ slot_size }
    ensures { (result ≡ masked_at slot.now i) × (result < 4294967296) }
{
    (u32::from_le_bytes(*slot[i..i + 4].as_array().unwrap()) & CASELESS) as usize
}

// The eight octets from a place on as one number, the lowest first.
fn pair(slot: &[u8; SLOT], i: usize) -> u64
    requires { i + 8 ≤ slot_size }
    ensures { result ≡ pair_at slot.now i }
{
    u64::from_le_bytes(*slot[i..i + 8].as_array().unwrap())
}
