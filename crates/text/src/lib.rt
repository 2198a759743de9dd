// Numbers and addresses in text: each with a writer into an output, and a reader from a place.
#![tactic(auto)]

ghost use Rattle.std.specs.Prelude.{◌≡◌, length};
ghost use Rattle.octets.specs.Refusals.{answered};
ghost use Rattle.text.specs.Decimal.{write_decimal};
ghost use Rattle.text.specs.Answers.{text_answer, text_out};

use octets::{Done, Refusal};

// A number in decimal digits with no needless zero, and zeros after them (T-06): how many octets it has, or `Space` for an output that has no room for them.
pub fn write_decimal(n: u32, out: &mut [u8]) -> Result<Done, Refusal>
    ensures value { answered result ≡ text_answer (write_decimal n) (length out.old) }
    ensures out_after { out.new ≡ text_out (write_decimal n) (length out.old) }
{
    let mut text = [0u8; 10];
    let length = inside::put_number::<10>(u64::from(n), &mut text, 0);
    inside::give(&text[..length], out)
}

pub mod addresses;
pub mod inside;
pub mod numbers;
pub mod reading;
