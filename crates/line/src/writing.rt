// The fields of a record put as a line, each with the space before it.
ghost use Rattle.std.specs.Prelude.{◌≡◌, [], ◌∷◌, ◌+◌, ◌≤◌, length};
ghost use Rattle.plan.specs.Fields.{HoldsName, SoundFields};
ghost use Rattle.text.specs.Written.{Put};
ghost use Rattle.text.specs.Decimal.{write_decimal};
ghost use Rattle.text.specs.AddressText.{write_address};
ghost use Rattle.nametext.specs.Writing.{text_of};
ghost use Rattle.line.specs.FieldText.{line_room, text_room, held_octets, target_field, fields_text};

use names::Name;
use plan::inside::Fields;

// Room for a line, and what the writer of the target asks for beyond it: four octets for each octet of the name.
pub const ROOM: usize = crate::LINE + 15;

// The line of a record's fields from the start of the output on, and where it ends.
pub fn put_line(fields: Fields, out: &mut [u8]) -> usize
    requires { SoundFields fields × (length out.old ≡ line_room) }
    ensures { Put out.old out.new 0 result (fields_text fields) }
{
    let a = put_held(fields.owner, out, 0);
    let b = put_number(u64::from(fields.ttl), out, a);
    let c = put_type(out, b);
    let d = put_number(u64::from(fields.prefix), out, c);
    let e = put_address(fields.address, out, d);
    let end = put_target(fields.prefix, fields.target, out, e);
    out[end] = b'\n';
    end + 1
}

// The text of a name that is held by value.
fn put_held(name: Name, out: &mut [u8], at: usize) -> usize
    requires { HoldsName name × (at + text_room ≤ length out.old) }
    ensures { Put out.old out.new at result (text_of (held_octets name)) }
{
    nametext::inside::put_name(name.as_slice(), out, at)
}

// A space and a number.
fn put_number(n: u64, out: &mut [u8], at: usize) -> usize
    requires { at + length (32 ∷ write_decimal n) ≤ length out.old }
    ensures { Put out.old out.new at result (32 ∷ write_decimal n) }
{
    out[at] = b' ';
    text::inside::put_number::<10>(n, out, at + 1)
}

// A space and the type.
fn put_type(out: &mut [u8], at: usize) -> usize
    requires { at + 3 ≤ length out.old }
    ensures { Put out.old out.new at result (32 ∷ 65 ∷ 54 ∷ []) }
{
    let end = at + 3;
    out[at..end].copy_from_slice(b" A6");
    end
}

// A space and an address.
fn put_address(address: [u8; 16], out: &mut [u8], at: usize) -> usize
    requires { at + length (32 ∷ write_address address) ≤ length out.old }
    ensures { Put out.old out.new at result (32 ∷ write_address address) }
{
    out[at] = b' ';
    text::inside::put_address(address, out, at + 1)
}

// A space and the target, and nothing at prefix length 0.
fn put_target(prefix: u8, target: Name, out: &mut [u8], at: usize) -> usize
    requires { ((prefix ≡ 0 → ⊥) → HoldsName target) × (at + 1 + text_room ≤ length out.old) }
    ensures { Put out.old out.new at result (target_field prefix target) }
{
    if prefix == 0 {
        return at;
    }
    out[at] = b' ';
    put_held(target, out, at + 1)
}
