// What only our own layers call: the search for the addresses of a numbered name.
ghost use Rattle.std.specs.Prelude.{◌≡◌, ◌+◌, ◌*◌, ◌/◌, ◌%◌, ◌^◌, ◌≤◌, ◌<◌, min, length, get_or};
ghost use Rattle.octets.specs.Octets.{blank};
ghost use Rattle.octets.specs.Answers.{refusal};
ghost use Rattle.octets.specs.Refusals.{code_of, answered};
ghost use Rattle.address.specs.Address.{join_of};
ghost use Rattle.rows.specs.Halves.{whole};
ghost use Rattle.search.specs.Search.{max_records, records_of, graph_of, found_of, written_of, lasting_of};
ghost use Rattle.search.specs.Links.{max_names, Numbered};
ghost use Rattle.search.specs.Memory.{memory_of, search_of, step_of, Borrows, Fit, Ready, Leaves};

use crate::links::Lists;
use octets::{Done, Refusal};
use rows::inside::{Halves, Rows};

// How many records and names there may be, and the nodes of their lists (specs/Links).
pub const RECORDS: usize = 1024;

pub const NAMES: usize = 2304;

pub const NODES: usize = RECORDS + NAMES;

// What a search reads of a record: its target by a number for the name, its prefix length, its address and its TTL.
#[derive(Clone, Copy)]
pub struct Fields {
    pub address: Halves,
    pub ttl: u32,
    pub target: u16,
    pub length: u8,
}

impl Fields {
    // Of no record.
    pub const NONE: Fields = Fields {
        address: Halves { high: 0, low: 0 },
        ttl: 0,
        target: 0,
        length: 0,
    };
}

// The records of a table: the owner of each, by a number for its name, and what a search reads of it.
#[derive(Clone, Copy)]
pub struct Records<'a> {
    pub owners: &'a [u16],
    pub fields: &'a [Fields],
}

// What a chain has spelt so far: the bits of an address from `bound` on, and the least TTL of its records.
#[derive(Clone, Copy)]
struct Chain {
    address: Halves,
    ttl: u32,
    bound: u8,
}

// The bits of `high` above k, then those of `low`.
fn mixed(high: u64, low: u64, k: u8) -> u64
    requires { k < 64 }
    ensures { result ≡ high / 2 ^ k * 2 ^ k + low % 2 ^ k }
{
    ((high >> k) << k) + (low - ((low >> k) << k))
}

// The first `bound` bits of one address, then those of another.
fn joined(first: Halves, last: Halves, bound: u8) -> Halves
    requires { (0 < bound) × (bound ≤ 128) }
    ensures { whole result ≡ join_of (whole first) (whole last) bound }
{
    if bound <= 64 {
        Halves {
            high: mixed(first.high, last.high, 64 - bound),
            low: last.low,
        }
    } else {
        Halves {
            high: first.high,
            low: mixed(first.low, last.low, 128 - bound),
        }
    }
}

impl Chain {
    // Of no records: it has spelt nothing, and has the greatest TTL.
    const NONE: Chain = Chain {
        address: Halves { high: 0, low: 0 },
        ttl: 2147483647,
        bound: 128,
    };

    // With one more record.
    fn with(self, fields: &Fields) -> Chain
        requires { (0 < self.bound) × (self.bound ≤ 128) }
        ensures address { whole result.address ≡ join_of (whole fields.now.address) (whole self.address) self.bound }
        ensures ttl { result.ttl ≡ min self.ttl fields.now.ttl }
        ensures bound { result.bound ≡ fields.now.length }
    {
        Chain {
            address: joined(fields.address, self.address, self.bound),
            ttl: octets::numbers::lesser(self.ttl, fields.ttl),
            bound: fields.length,
        }
    }
}

// A search on its way: the lists of unused records, the addresses found, and how many chains may still be counted.
#[derive(Drop)]
struct Search<'a, 'b, 'c> {
    records: Records<'a>,
    lists: &'b mut Lists,
    rows: &'b mut Rows<'c>,
    left: u64,
}

impl Search<'_, '_, '_> {
    // Into the record i, which is unused: it is out of its list while the search goes on from it.
    #[cycle(search_step)]
    fn step(&mut self, i: usize, chain: Chain)
        requires { Ready (records_of self.old.records) (memory_of self.old) chain.bound i }
        ensures lent { Borrows self.old self.new }
        ensures done { Leaves (memory_of self.old) (memory_of self.new)
            (step_of (records_of self.old.records) i chain.bound (whole chain.address) chain.ttl (memory_of self.old)) }
    {
        let fields = &self.records.fields[i];
        self.left -= 1;
        if fields.length == 0 {
            if !self.rows.is_full() {
                let found = chain.with(fields);
                self.rows.keep(found.address, found.ttl);
            }
        } else {
            let n = self.records.owners.len();
            let target = octets::numbers::wide(fields.target);
            self.lists.unlink(i);
            let first = self.lists.after(n + target);
            if first < n {
                self.over(target, first, chain.with(fields));
            }
            self.lists.relink(i);
        }
    }

    // Over the unused records of the name x, from the first of them on; it ends where no chain may be counted any more.
    // The first one is handed in, since the caller has it: looked up here again, many loops take a fifth longer.
    #[cycle(search_step)]
    fn over(&mut self, x: usize, first: usize, chain: Chain)
        requires fit { Fit (records_of self.old.records) (memory_of self.old) chain.bound }
        requires first_of_x { (x < max_names) × (first ≡ get_or self.old.lists.now.next (length self.old.records.owners.now + x) 0) }
        ensures lent { Borrows self.old self.new }
        ensures done { Leaves (memory_of self.old) (memory_of self.new)
            (search_of (records_of self.old.records) x chain.bound (whole chain.address) chain.ttl (memory_of self.old)) }
    {
        let records = self.records;
        let mut i = first;
        while i < records.owners.len() && self.left != 0 {
            if records.fields[i].length <= chain.bound {
                self.step(i, chain);
            }
            i = self.lists.after(i);
        }
    }
}

// A refusal, with zeros in both lists.
fn refuse(reason: Refusal, out: &mut [u8], lives: &mut [u32]) -> Result<Done, Refusal>
    ensures { (answered result ≡ refusal (code_of reason)) × (out.new ≡ blank (length out.old)) × (lives.new ≡ blank (length lives.old)) }
{
    octets::clear(out);
    octets::clear(lives);
    Err(reason)
}

// The addresses of the name x and their lifetimes, or a refusal of more work than the limit or more addresses than room, once the records and
// both lists are in order; they come as zeros.
pub fn find(
    records: Records,
    x: usize,
    limit: u32,
    out: &mut [u8],
    lives: &mut [u32],
) -> Result<Done, Refusal>
    requires numbered { Numbered (records_of records) × (x < max_names) }
    requires out_len { (length out.old % 16 ≡ 0) × (out.old ≡ blank (length out.old)) × (length lives.old * 16 ≡ length out.old) × (lives.old ≡ blank (length lives.old)) }
    ensures value { answered result ≡ found_of (graph_of (records_of records.entry)) x limit (length out.old) }
    ensures out_after { out.new ≡ written_of (graph_of (records_of records.entry)) x limit (length out.old) }
    ensures lives_after { lives.new ≡ lasting_of (graph_of (records_of records.entry)) x limit (length out.old) }
{
    let most = u64::from(limit) + 1;
    let mut lists = Lists {
        next: [0; NODES],
        prev: [0; NODES],
    };
    lists.link(records.owners);
    let mut rows = Rows::new(out, lives);
    let mut search = Search {
        records,
        lists: &mut lists,
        rows: &mut rows,
        left: most,
    };
    let first = search.lists.after(records.owners.len() + x);
    search.over(x, first, Chain::NONE);
    let left = search.left;
    let full = search.rows.is_full();
    let count = search.rows.count();
    if left == 0 {
        return refuse(Refusal::Limit, out, lives);
    }
    if full {
        return refuse(Refusal::Room, out, lives);
    }
    Ok(Done {
        count: count as u32,
        work: (most - left) as u32,
    })
}
