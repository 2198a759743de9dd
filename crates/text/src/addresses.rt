// Addresses written.
ghost use Rattle.std.specs.Prelude.{◌≡◌, length};
ghost use Rattle.octets.specs.Refusals.{answered};
ghost use Rattle.text.specs.Answers.{text_answer, text_out};
ghost use Rattle.text.specs.AddressText.{write_address};

use octets::{Done, Refusal};

// A run of zero groups: the groups before it, and its length.
#[derive(Clone, Copy, Debug, PartialEq, Eq)]
pub struct Run {
    pub place: usize,
    pub count: usize,
}

// An address by RFC 5952, and zeros after it (T-06): how many octets its text has, or `Space` for an output that has no room for them.
pub fn write_address(address: [u8; 16], out: &mut [u8]) -> Result<Done, Refusal>
    ensures value { answered result ≡ text_answer (write_address address) (length out.old) }
    ensures out_after { out.new ≡ text_out (write_address address) (length out.old) }
{
    let mut text = [0u8; 39];
    let n = crate::inside::put_address(address, &mut text, 0);
    crate::inside::give(&text[..n], out)
}
