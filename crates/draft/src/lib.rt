// The layout of the 1998 draft: its reader and its writer, of the same values as A6 data (T-02).
#![tactic(auto)]

ghost use Rattle.std.specs.Prelude.{◌≡◌, length};
ghost use Rattle.octets.specs.Refusals.{answered};
ghost use Rattle.draft.specs.Read.{draft_reading};
ghost use Rattle.draft.specs.Write.{draft_answer, draft_out};

use a6::Value;
use octets::{Done, Refusal};

// The value that data of this layout stands for: `Short` for data that ends too soon, `Prefix` for a prefix length over 128, `Malformed` for a malformed name,
// `LeftOver` for octets left over. Set bits among the first L are cleared.
pub fn read(rdata: &[u8]) -> Result<Value, Refusal>
    ensures { result ≡ draft_reading rdata.now }
{
    let found = inside::check(rdata)?;
    Ok(found.value())
}

// The data of a value, with zeros after it, and its length: `Prefix` for a prefix length over 128, `Malformed` for a value that no reader can give, `Room` for
// an output that is too short.
pub fn write(value: Value, out: &mut [u8]) -> Result<Done, Refusal>
    ensures value { answered result ≡ draft_answer value (length out.old) }
    ensures out_after { out.new ≡ draft_out value (length out.old) }
{
    a6::inside::lay(value.lent(), 16, out)
}

pub mod inside;
