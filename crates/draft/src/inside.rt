// What only our own layers call: the tests of the reader.
ghost use Rattle.a6.specs.Parts.{Tells};
ghost use Rattle.draft.specs.Read.{draft_number, draft_value};

use a6::inside::Found;
use octets::Refusal;

// Octets before the name: sixteen of the address, and the prefix length.
const FRONT: usize = 17;

// The tests, from left to right.
pub fn check(rdata: &[u8]) -> Result<Found<'_>, Refusal>
    ensures { Tells result (draft_number rdata.now) (draft_value rdata.now) }
{
    if rdata.len() < FRONT {
        return Err(Refusal::Short);
    }
    let prefix = rdata[16];
    if a6::inside::LONGEST < prefix {
        return Err(Refusal::Prefix);
    }
    let whole = octets::wide(prefix / 8);
    let suffix = &rdata[whole..16];
    let name = &rdata[FRONT..];
    let standard = a6::inside::ending(prefix, name)?;
    Ok(Found {
        prefix,
        suffix,
        name,
        standard,
    })
}
