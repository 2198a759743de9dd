// The records of a table as the search reads them (specs/Gather).
ghost use Rattle.std.specs.Prelude.{◌≡◌, ◌≤◌, length};
ghost use Rattle.plan.specs.Layout.{count_of};
ghost use Rattle.numbering.specs.Numbers.{filled};
ghost use Rattle.forward.specs.Gather.{search_owner, Fielded};

use rows::inside::Halves;
use search::inside::Fields;

// A number that no name has.
const NO_OWNER: u16 = 2303;

// The owner numbers with none for a DNAME, which plays no part in chains.
pub fn set_owners(table: &[u8], owners: &mut [u16])
    requires { count_of table.now ≤ length owners.old }
    ensures { owners.new ≡ filled (search_owner table.now owners.old) (count_of table.now) owners.old }
{
    for i in 0..plan::inside::count(table) {
        let in_chains = plan::inside::is_a6(plan::inside::row(table, i));
        if !in_chains {
            owners[i] = NO_OWNER;
        }
    }
}

// The fields of the records, with these targets.
pub fn set_fields(table: &[u8], targets: &[u16], fields: &mut [Fields])
    requires { (count_of table.now ≤ length targets.now) × (count_of table.now ≤ length fields.old) }
    ensures { Fielded table.now targets.now fields.new (count_of table.now) }
{
    for i in 0..plan::inside::count(table) {
        fields[i] = Fields {
            address: Halves::at(&plan::inside::address(table, i), 0),
            ttl: plan::inside::ttl(table, i),
            target: targets[i],
            length: plan::inside::prefix(table, i),
        };
    }
}
