// Address lookup: every address of a name, by all its complete chains, loops included (01, Chains), and how long each lives (T-01).
#![tactic(auto)]

ghost use Rattle.std.specs.Prelude.{◌≡◌, true, ◌*◌, ◌/◌, ◌%◌, length};
ghost use Rattle.octets.specs.Octets.{blank};
ghost use Rattle.octets.specs.Refusals.{answered};
ghost use Rattle.names.specs.Standard.{in_standard_form};
ghost use Rattle.plan.specs.Check.{InOrder};
ghost use Rattle.plan.specs.Faults.{replied, replying};
ghost use Rattle.plan.specs.Graph.{graph_of};
ghost use Rattle.search.specs.Answers.{number_of, answer_of, output_of, lives_of};
ghost use Rattle.forward.specs.Lookup.{misfit, lookup_answer, lookup_out, lookup_ttls};

use octets::{Done, Refusal};
use plan::Refused;
use search::inside::{Fields, RECORDS, Records};

// The addresses of a name in ascending order without repeats, sixteen octets each, then zeros; their count and the work. At the place of each,
// in the other list, the least TTL of the records that it comes from, then zeros.
// 1, 2 or 3 for the table, 4 for a malformed name, 5 for an output that is no multiple of 16 octets or a list of TTLs of another length than
// the room for addresses, 6 for more work than the limit, 7 for more addresses than room. Beside 2 and 3 the place of the table's fault (T-04).
pub fn lookup(
    table: &[u8],
    name: &[u8],
    limit: u32,
    out: &mut [u8],
    ttls: &mut [u32],
) -> Result<Done, Refused>
    ensures reply { replied result ≡ replying table.now (lookup_answer table.now name.now limit (length out.old) (length ttls.old)) }
    ensures output { out.new ≡ lookup_out table.now name.now limit (length out.old) (length ttls.old) }
    ensures lifetimes { ttls.new ≡ lookup_ttls table.now name.now limit (length out.old) (length ttls.old) }
{
    octets::clear(out);
    octets::clear(ttls);
    let entered = plan::inside::enter(table, name);
    entered.outcome?;
    if is_misfit(out.len(), ttls.len()) {
        return Err(Refused::from(Refusal::Output));
    }
    let done = look(table, entered.name.as_slice(), limit, out, ttls)?;
    Ok(done)
}

// Whether an output of `size` octets is no whole number of addresses, or a list of `room` places has another length than it has room for.
fn is_misfit(size: usize, room: usize) -> bool
    ensures { result ≡ misfit size room }
{
    size % 16 != 0 || room != size / 16
}

// The same for a table in order, a name in standard form and lists of zeros: names become numbers, and the search runs over these.
fn look(
    table: &[u8],
    name: &[u8],
    limit: u32,
    out: &mut [u8],
    lives: &mut [u32],
) -> Result<Done, Refusal>
    requires in_order { (InOrder table.now) × (in_standard_form name.now ≡ true) }
    requires out_len { (length out.old % 16 ≡ 0) × (out.old ≡ blank (length out.old)) × (length lives.old * 16 ≡ length out.old) × (lives.old ≡ blank (length lives.old)) }
    ensures value { answered result ≡ answer_of (graph_of table.now) name.now (number_of (graph_of table.now) name.now limit (length out.old / 16)) }
    ensures out_after { out.new ≡ output_of (graph_of table.now) name.now (number_of (graph_of table.now) name.now limit (length out.old / 16)) (length out.old) }
    ensures lives_after { lives.new ≡ lives_of (graph_of table.now) name.now (number_of (graph_of table.now) name.now limit (length out.old / 16)) (length out.old / 16) }
{
    let mut owners = [0u16; RECORDS];
    let mut targets = [0u16; RECORDS];
    let mut fields = [Fields::NONE; RECORDS];
    let x = numbering::inside::number(table, name, &mut owners, &mut targets);
    gather::set_owners(table, &mut owners);
    gather::set_fields(table, &targets, &mut fields);
    let n = plan::inside::count(table);
    let records = Records {
        owners: &owners[..n],
        fields: &fields[..n],
    };
    search::inside::find(records, x, limit, out, lives)
}

mod gather;
