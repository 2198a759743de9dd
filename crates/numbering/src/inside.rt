// What only our own layers call: the numbers of names, for a search that never looks at a name.
ghost use Rattle.std.specs.Prelude.{◌≡◌, true, ◌≤◌, ◌<◌, length};
ghost use Rattle.names.specs.Standard.{in_standard_form};
ghost use Rattle.plan.specs.Layout.{count_of};
ghost use Rattle.plan.specs.Check.{InOrder};
ghost use Rattle.numbering.specs.Numbers.{number_in, names_of, own_number, target_number, filled};
ghost use Rattle.numbering.specs.Buckets.{slot_at, Named, bucket_of, Listing, again};

use plan::inside::SLOT;

// The number that stands for no target, as the definition `target_number` gives it: the search takes numbers.
pub const NO_TARGET: u16 = 65535;

// The most names of a table, and how many buckets they are spread over.
const NAMES: usize = 2048;

const BUCKETS: usize = 4096;

// The number of each record's owner and target in the list of distinct names as first met, owner before target, and that of a given name:
// the length of the list where no record has it, which is then a number that the search finds at no record.
pub fn number(table: &[u8], name: &[u8], own: &mut [u16], target: &mut [u16]) -> usize
    requires in_order { (InOrder table.now) × (in_standard_form name.now ≡ true) }
    requires table_in_bounds { (count_of table.now ≤ length own.old) × (count_of table.now ≤ length target.old) }
    ensures name { result ≡ number_in (names_of table.now) name.now }
    ensures owners { own.new ≡ filled (own_number table.now) (count_of table.now) own.old }
    ensures targets { target.new ≡ filled (target_number table.now) (count_of table.now) target.old }
{
    let mut names = Names::new(table);
    names.meet_all(own, target);
    let slot = plan::inside::slot_of(name);
    names.find(&slot, bucket_of(&slot)).unwrap_or(names.count)
}

// The names of a table in order, as they are met: each by its place, in buckets by the mark of its slot. `head` has the last name of each bucket, `link` the
// one before each name in its bucket, by numbers from 1 on; 0 for none, so that a place takes two octets and lists of zeros are empty buckets.
#[derive(Drop)]
struct Names<'a> {
    table: &'a [u8],
    head: [u16; BUCKETS],
    link: [u16; NAMES],
    places: [u16; NAMES],
    count: usize,
    ghost listing: { Listing table.now head link places count },
}

impl<'a> Names<'a> {
    ghost use Rattle.std.specs.Prelude.{◌≡◌, ◌≤◌, ◌<◌, length, MatchOption};
    ghost use Rattle.plan.specs.Layout.{name_in, count_of, owner_at};
    ghost use Rattle.plan.specs.Check.{InOrder};
    ghost use Rattle.plan.specs.Good.{Holds};
    ghost use Rattle.numbering.specs.Numbers.{number_in, meeting, meeting_target, names_of, own_number, target_in, target_number, filled};
    ghost use Rattle.numbering.specs.Buckets.{max_names, name_at, Named, bucket_of, Before};
    ghost use Rattle.numbering.specs.Meeting.{names_in, Meets};

    // No names yet.
    fn new(table: &'a [u8]) -> Self
        ensures { (result.table.now ≡ table.now) × (result.count ≡ 0) }
    {
        Names {
            table,
            head: [0; BUCKETS],
            link: [0; NAMES],
            places: [0; NAMES],
            count: 0,
        }
    }

    // The names of all records, whose numbers are noted.
    fn meet_all(&mut self, own: &mut [u16], target: &mut [u16])
        requires start { (InOrder self.old.table.now) × (self.old.count ≡ 0) }
        requires room { (count_of self.old.table.now ≤ length own.old) × (count_of self.old.table.now ≤ length target.old) }
        ensures names { names_in self.new ≡ names_of self.old.table.now }
        ensures owners { own.new ≡ filled (own_number self.old.table.now) (count_of self.old.table.now) own.old }
        ensures targets { target.new ≡ filled (target_number self.old.table.now) (count_of self.old.table.now) target.old }
    {
        for index in 0..plan::inside::count(self.table) {
            let owner = self.meet_owner(index, own);
            own[index] = owner;
            target[index] = self.meet_target(index);
        }
    }

    // The number of the owner of the record at an index, which goes to the end of the list if it is not there. Often it is the owner of the record before.
    fn meet_owner(&mut self, index: usize, own: &[u16]) -> u16
        requires in_order { InOrder self.old.table.now }
        requires index_bound { (index < count_of self.old.table.now) × (self.old.count < max_names) × Before self.old.table.now own.now (names_in self.old) index }
        ensures { Meets self.old self.new (number_in (names_in self.old) (owner_at self.old.table.now index)) (meeting (names_in self.old) (owner_at self.old.table.now index)) result }
    {
        if is_again(self.table, index) {
            return own[index - 1];
        }
        self.meet(2 * index)
    }

    // The number of the target of the record at an index, which goes to the end of the list if it is not there; `NO_TARGET` where there is none.
    fn meet_target(&mut self, index: usize) -> u16
        requires in_order { InOrder self.old.table.now }
        requires index_bound { (index < count_of self.old.table.now) × (self.old.count < max_names) }
        ensures { Meets self.old self.new (target_in (names_in self.old) self.old.table.now index) (meeting_target self.old.table.now index (names_in self.old)) result }
    {
        if plan::inside::is_targetless(plan::inside::row(self.table, index)) {
            return NO_TARGET;
        }
        self.meet(2 * index + 1)
    }

    // The number of the name at a place, which goes to the end of the list if it is not there.
    fn meet(&mut self, place: usize) -> u16
        requires { (Named self.old.table.now place) × (self.old.count < max_names) }
        ensures { Meets self.old self.new (number_in (names_in self.old) (name_at self.old.table.now place)) (meeting (names_in self.old) (name_at self.old.table.now place)) result }
    {
        let slot = slot_at(self.table, place);
        let bucket = bucket_of(slot);
        if let Some(number) = self.find(slot, bucket) {
            return number as u16;
        }
        let number = self.count;
        self.link[number] = self.head[bucket];
        self.head[bucket] = (number + 1) as u16;
        self.places[number] = place as u16;
        self.count = number + 1;
        number as u16
    }

    // The number in the list of the name in a slot: the names of its bucket are compared with it, the last first. They are linked by numbers, since
    // memory is fixed.
    fn find(&self, slot: &[u8; SLOT], bucket: usize) -> Option<usize>
        requires { (Holds slot.now) × (bucket ≡ bucket_of slot.now) }
        ensures { MatchOption result (number_in (names_in self.now) (name_in slot.now) ≡ self.now.count) (λ k. (k ≡ number_in (names_in self.now) (name_in slot.now)) × (k < self.now.count)) }
    {
        let mut next = octets::numbers::wide(self.head[bucket]);
        while 0 < next {
            let number = next - 1;
            let listed = slot_at(self.table, octets::numbers::wide(self.places[number]));
            if plan::inside::same(listed, slot) {
                return Some(number);
            }
            next = octets::numbers::wide(self.link[number]);
        }
        None
    }
}

// Whether the owner of the record at an index is seen at once to be that of the record before.
fn is_again(table: &[u8], index: usize) -> bool
    requires { index < count_of table.now }
    ensures { result ≡ again table.now index }
{
    if index == 0 {
        return false;
    }
    plan::inside::alike(
        plan::inside::owner_slot(plan::inside::row(table, index - 1)),
        plan::inside::owner_slot(plan::inside::row(table, index)),
    )
}

// The slot at a place.
fn slot_at(table: &[u8], place: usize) -> &[u8; SLOT]
    requires { Named table.now place }
    ensures { result.now ≡ slot_at table.now place }
{
    let row = plan::inside::row(table, place / 2);
    if place % 2 == 0 {
        return plan::inside::owner_slot(row);
    }
    plan::inside::target_slot(row)
}

// The bucket of a slot.
fn bucket_of(slot: &[u8; SLOT]) -> usize
    ensures { result ≡ bucket_of slot.now }
{
    octets::numbers::wide(plan::inside::mark(slot)) % BUCKETS
}
