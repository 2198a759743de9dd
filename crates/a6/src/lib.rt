// A6 data: a value, its reader and its writer (01, A6 data).
#![tactic(auto)]

ghost use Rattle.std.specs.Prelude.{◌≡◌, length};
ghost use Rattle.octets.specs.Refusals.{answered};
ghost use Rattle.a6.specs.Read.{read_of};
ghost use Rattle.a6.specs.Write.{write_answer, write_out};

use octets::{Done, Refusal};

// What A6 data says: the prefix length L, sixteen address octets whose first L bits are zero, and the prefix name, none at L = 0.
#[derive(Clone, Copy)]
pub struct Value {
    pub prefix: u8,
    pub address: [u8; 16],
    pub name: names::Name,
}

// The value that A6 data stands for: `Prefix` for a prefix length over 128, `Short` for data that ends too soon, `Malformed` for a malformed name, `LeftOver`
// for octets left over.
pub fn read(rdata: &[u8]) -> Result<Value, Refusal>
    ensures { result ≡ read_of rdata.now }
{
    let found = inside::check(rdata)?;
    Ok(found.value())
}

// The data of a value, with zeros after it, and its length: `Prefix` for a prefix length over 128, `Malformed` for a value that the reader cannot give, `Room`
// for an output that is too short.
pub fn write(value: Value, out: &mut [u8]) -> Result<Done, Refusal>
    ensures value { answered result ≡ write_answer value (length out.old) }
    ensures out_after { out.new ≡ write_out value (length out.old) }
{
    inside::lay(value.lent(), 0, out)
}

pub mod inside;
mod parts;
