// Names in text (T-06).
#![tactic(auto)]

ghost use Rattle.std.specs.Prelude.{◌≡◌, length};
ghost use Rattle.octets.specs.Refusals.{answered};
ghost use Rattle.nametext.specs.Characters.{is_plain};
ghost use Rattle.nametext.specs.Answers.{write_name_answer, write_name_out};

use octets::{Done, Refusal};

// The text of a name's standard form with zeros after it, and how many octets it has (T-06): `Given` for a malformed name, `Space` for an output that has no room for the text.
pub fn write_name(name: &[u8], out: &mut [u8]) -> Result<Done, Refusal>
    ensures value { answered result ≡ write_name_answer name.now (length out.old) }
    ensures out_after { out.new ≡ write_name_out name.now (length out.old) }
{
    let Some(held) = names::hold(name) else {
        octets::clear(out);
        return Err(Refusal::Given);
    };
    let mut text = [0u8; 1020];
    let length = inside::put_name(held.as_slice(), &mut text, 0);
    text::inside::give(&text[..length], out)
}

// A letter, a digit, a hyphen or an underscore. Range by range, as in `reading::may_name`.
#[tactic(auto, using(std::proofs::lemmas::Bool::Decides::nat_tests), unfolding(crate::specs::Characters::is_plain))]
fn is_plain(x: u8) -> bool
    ensures { result ≡ is_plain x }
{
    matches!(x, b'A'..=b'Z')
        || matches!(x, b'a'..=b'z')
        || matches!(x, b'0'..=b'9')
        || x == b'-'
        || x == b'_'
}

pub mod inside;
pub mod reading;
