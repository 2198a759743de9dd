// The plan table: its layout, its check, which says which record (T-04), and the owner part (01, The plan table; T-01).
#![tactic(auto)]

ghost use Rattle.std.specs.Prelude.{◌≡◌, ◌==◌, ◌||◌, true, false, ◌≤◌, ◌<◌, MatchOption};
ghost use Rattle.std.specs.List.{fold};
ghost use Rattle.plan.specs.First.{some};
ghost use Rattle.plan.specs.Layout.{max_records, is_dname, count_of, record_at};
ghost use Rattle.plan.specs.Check.{slot_good, type_good, prefix_good, address_good, target_good, ttl_good, fault_of, first_fault, twin, repeats, first_repeat, check_answer};
ghost use Rattle.plan.specs.Faults.{fault_place, field_number, replying, placeless, replied, judged};
ghost use Rattle.plan.specs.Marks.{mark_at, Ready};
ghost use Rattle.plan.specs.Part.{IsPart, owner_part};
ghost use Rattle.plan.specs.Fields.{one_a6};

use octets::{Answer, Done, Refusal};

// The most records of a table (01, The plan table).
const MAX_RECORDS: usize = 1024;

// The greatest TTL (T-01).
const MAX_TTL: u32 = 2147483647;

// The fields of a record, in the order of the layout (T-04): `as u8` gives the number.
#[derive(Clone, Copy, Debug, PartialEq, Eq)]
pub enum Field {
    Kind = 0,
    Prefix = 1,
    Zero = 2,
    Address = 3,
    Owner = 4,
    Target = 5,
    Ttl = 6,
}

// The place of a table's fault (T-04): the index of the record, and the number of its field. Both are 0 where there is no such place.
// The field is a number, of which the theorems on places (FaultAt, Placed) and the figures of the C interface speak.
#[derive(Clone, Copy, Debug, PartialEq, Eq)]
pub struct Fault {
    pub index: u32,
    pub field: u8,
}

// The place where there is no fault.
const NO_PLACE: Fault = Fault { index: 0, field: 0 };

// Why an operation on a table refuses, and the place of the table's fault.
#[derive(Clone, Copy, Debug, PartialEq, Eq)]
pub struct Refused {
    pub refusal: Refusal,
    pub fault: Fault,
}

// A refusal for another reason than a fault of the table.
impl From<Refusal> for Refused {
    ghost from_gives = { λ refusal refused. refused ≡ placeless refusal };

    fn from(refusal: Refusal) -> Refused {
        Refused {
            refusal,
            fault: NO_PLACE,
        }
    }
}

// What an operation on a table replies at the C interface: its answer, and beside it the place of the table's fault, for 2 and 3.
#[derive(Clone, Copy)]
pub struct Reply {
    pub answer: Answer,
    pub fault: Fault,
}

impl From<Result<Done, Refused>> for Reply {
    ghost from_gives = { λ outcome reply. reply ≡ replied outcome };

    fn from(outcome: Result<Done, Refused>) -> Reply {
        match outcome {
            Ok(done) => Reply {
                answer: Answer::from(Ok(done)),
                fault: NO_PLACE,
            },
            Err(refused) => Reply {
                answer: Answer::from(Err(refused.refusal)),
                fault: refused.fault,
            },
        }
    }
}

// The reply of a check, which has no figures.
impl From<Result<(), Refused>> for Reply {
    ghost from_gives = { λ outcome reply. reply ≡ judged outcome };

    fn from(outcome: Result<(), Refused>) -> Reply {
        Reply::from(outcome.map(|()| Done { count: 0, work: 0 }))
    }
}

// A part of a table: where it starts and how many octets it has, the two figures that the C interface gives.
#[derive(Clone, Copy, Debug, PartialEq, Eq)]
pub struct Part {
    pub offset: usize,
    pub length: usize,
}

// The part of no octets.
const NO_PART: Part = Part {
    offset: 0,
    length: 0,
};

// Whether a table is in order; else 1, 2 or 3 (01, What comes back), for 2 and 3 with the record and the field (T-04).
pub fn check(table: &[u8]) -> Result<(), Refused>
    ensures { judged result ≡ replying table.now (check_answer table.now) }
{
    let n = inside::count(table);
    if table.len() % inside::RECORD != 0 {
        return Err(Refused::from(Refusal::Length));
    }
    if MAX_RECORDS < n {
        return Err(Refused::from(Refusal::Length));
    }
    if let Some(fault) = first_fault(table) {
        return Err(Refused {
            refusal: Refusal::Record,
            fault,
        });
    }
    if let Some(index) = first_repeat(table) {
        let fault = Fault {
            index: index as u32,
            field: Field::Owner as u8,
        };
        return Err(Refused {
            refusal: Refusal::Repeat,
            fault,
        });
    }
    Ok(())
}

// Whether octets are exactly one A6 record in order (T-06).
pub fn is_a6(row: &[u8]) -> bool
    ensures { result ≡ one_a6 row.now }
{
    match row.as_array() {
        Some(whole) => first_field(whole).is_none() && inside::is_a6(whole),
        None => false,
    }
}

// The part of the table that the owner of a record takes, without the length octet: empty for a bad index and for a table that is not in order.
pub fn owner(table: &[u8], index: usize) -> &[u8]
    ensures { IsPart table.entry result (owner_part table.now index) }
{
    let Part { offset, length } = owner_part(table, index);
    &table[offset..offset + length]
}

// Where that part stands: 0 and 0 for the empty one.
fn owner_part(table: &[u8], index: usize) -> Part
    ensures { result ≡ owner_part table.now index }
{
    if check(table).is_err() {
        return NO_PART;
    }
    if inside::count(table) <= index {
        return NO_PART;
    }
    inside::owner_part(table, index)
}

// The first record at fault, and its first field that is.
fn first_fault(table: &[u8]) -> Option<Fault>
    requires { count_of table.now ≤ max_records }
    ensures { MatchOption result (first_fault table.now ≡ count_of table.now) (λ fault. (fault ≡ fault_place table.now) × (first_fault table.now < count_of table.now)) }
{
    for index in 0..inside::count(table) {
        if let Some(field) = first_field(inside::row(table, index)) {
            return Some(Fault {
                index: index as u32,
                field: field as u8,
            });
        }
    }
    None
}

// The first field of a record that is at fault.
fn first_field(row: &[u8; inside::RECORD]) -> Option<Field>
    ensures { field_number result ≡ fault_of row.now }
{
    if !type_good(row) {
        return Some(Field::Kind);
    }
    if !prefix_good(row) {
        return Some(Field::Prefix);
    }
    if inside::zero_of(row) != 0 {
        return Some(Field::Zero);
    }
    if !address_good(row) {
        return Some(Field::Address);
    }
    if !slot_good(inside::owner_slot(row)) {
        return Some(Field::Owner);
    }
    if !target_good(row) {
        return Some(Field::Target);
    }
    if !ttl_good(row) {
        return Some(Field::Ttl);
    }
    None
}

// The type: A6 or DNAME.
fn type_good(row: &[u8; inside::RECORD]) -> bool
    ensures { result ≡ type_good row.now }
{
    inside::is_a6(row) || inside::is_dname(row)
}

// The prefix length: at most 128 for A6, else 0.
fn prefix_good(row: &[u8; inside::RECORD]) -> bool
    ensures { result ≡ prefix_good row.now }
{
    let prefix = inside::prefix_of(row);
    if inside::is_a6(row) {
        return prefix <= 128;
    }
    prefix == 0
}

// The address: its first bits zero, as many as the prefix length for A6, else all of them.
fn address_good(row: &[u8; inside::RECORD]) -> bool
    ensures { result ≡ address_good row.now }
{
    if inside::is_a6(row) {
        return address::is_clear(inside::address_of(row), inside::prefix_of(row));
    }
    address::is_clear(inside::address_of(row), 128)
}

// The target slot: empty for a finished A6 record, else a name.
fn target_good(row: &[u8; inside::RECORD]) -> bool
    ensures { result ≡ target_good row.now }
{
    let slot = inside::target_slot(row);
    if inside::is_targetless(row) {
        return octets::zeros::is_blank(slot, 0);
    }
    slot_good(slot)
}

// The TTL: at most the greatest.
fn ttl_good(row: &[u8; inside::RECORD]) -> bool
    ensures { result ≡ ttl_good row.now }
{
    inside::ttl_of(row) <= MAX_TTL
}

// Whether a slot holds a name in standard form that fills its length, and zeros after it.
fn slot_good(slot: &[u8; inside::SLOT]) -> bool
    ensures { result ≡ slot_good slot.now }
{
    octets::zeros::is_blank(slot, inside::fill_in(slot))
        && names::is_standard(inside::name_in(slot))
}

// The index of the first DNAME whose owner an earlier DNAME has.
fn first_repeat(table: &[u8]) -> Option<usize>
    requires { (first_fault table.now ≡ count_of table.now) × (count_of table.now ≤ max_records) }
    ensures { MatchOption result (first_repeat table.now ≡ count_of table.now) (λ j. (j ≡ first_repeat table.now) × (j < count_of table.now)) }
{
    let mut marks = [0u16; MAX_RECORDS];
    for index in 0..inside::count(table) {
        let mark = mark_at(table, index);
        let candidate = Candidate {
            table,
            index,
            earlier: &marks[..index],
            mark,
        };
        if candidate.is_repeat() {
            return Some(index);
        }
        marks[index] = mark;
    }
    None
}

// The mark of a DNAME's owner; 0 for any other record. As an option it would take twice the room in a list that is looked at from end to end.
fn mark_at(table: &[u8], index: usize) -> u16
    requires { index < count_of table.now }
    ensures { result ≡ mark_at table.now index }
{
    let row = inside::row(table, index);
    if inside::is_dname(row) {
        return inside::mark(inside::owner_slot(row));
    }
    0
}

// A record of a table in which no record is at fault, the marks of the records before it, and its own.
#[derive(Clone, Copy)]
struct Candidate<'a> {
    table: &'a [u8],
    index: usize,
    earlier: &'a [u16],
    mark: u16,
    ghost ready: { Ready table.now earlier.now index mark },
}

impl Candidate<'_> {
    // Whether it is a DNAME whose owner an earlier DNAME has: names are compared only where their marks agree.
    fn is_repeat(self) -> bool
        ensures { result ≡ repeats self.entry.table.now self.entry.index }
    {
        if !inside::is_dname(inside::row(self.table, self.index)) {
            return false;
        }
        has_mark(self.earlier, self.mark) && self.has_twin()
    }

    // Whether an earlier DNAME has the owner of this DNAME.
    fn has_twin(self) -> bool
        requires { is_dname (record_at self.table.now self.index) ≡ true }
        ensures { result ≡ some (twin self.entry.table.now self.entry.index) self.entry.index }
    {
        for i in 0..self.index {
            if self.is_twin(i) {
                return true;
            }
        }
        false
    }

    // Whether record i is a DNAME with the owner of this DNAME.
    fn is_twin(self, i: usize) -> bool
        requires { (i < self.index) × (is_dname (record_at self.table.now self.index) ≡ true) }
        ensures { result ≡ twin self.entry.table.now self.entry.index i }
    {
        if self.earlier[i] != self.mark {
            return false;
        }
        if !inside::is_dname(inside::row(self.table, i)) {
            return false;
        }
        names::inside::equal(
            inside::owner(self.table, i),
            inside::owner(self.table, self.index),
        )
    }
}

// Whether a mark stands among others. Every one is looked at, which is faster than to stop at the first.
fn has_mark(marks: &[u16], m: u16) -> bool
    ensures { result ≡ fold (λ met mark. met || (mark == m)) false marks.now }
{
    marks.iter().fold(false, |met, mark| met | (*mark == m))
}

pub mod inside;
