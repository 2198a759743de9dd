// Zone lines (T-06).
#![tactic(auto)]

ghost use Rattle.std.specs.Prelude.{◌≡◌, length};
ghost use Rattle.octets.specs.Refusals.{answered};
ghost use Rattle.line.specs.Answers.{write_line_answer, write_line_out, read_line_answer, read_line_out};

use octets::{Done, Refusal};

// The most octets that a written line has, with its octet 10.
pub const LINE: usize = 2066;

// The line of an A6 record, zeros after it, and how many octets it has: `Record` for octets that are not exactly one A6 record in order, `Space` for an output
// that is shorter than the line.
pub fn write_line(row: &[u8], out: &mut [u8]) -> Result<Done, Refusal>
    ensures value { answered result ≡ write_line_answer row.now (length out.old) }
    ensures out_after { out.new ≡ write_line_out row.now (length out.old) }
{
    let Some(record) = plan::inside::one_a6(row) else {
        octets::clear(out);
        return Err(Refusal::Record);
    };
    let mut text = [0u8; writing::ROOM];
    let n = writing::put_line(plan::inside::fields_of(record), &mut text);
    text::inside::give(&text[..n], out)
}

// The record of a line, zeros after it, and 1: `Form`, `Range` or `Name` for a line that does not stand for a record (T-06), `Space` for an output that has no
// room for one.
pub fn read_line(line: &[u8], out: &mut [u8]) -> Result<Done, Refusal>
    ensures value { answered result ≡ read_line_answer line.now (length out.old) }
    ensures out_after { out.new ≡ read_line_out line.now (length out.old) }
{
    octets::clear(out);
    let body = line.strip_suffix(b"\n").ok_or(Refusal::Form)?;
    let fields = reading::read_words(body)?;
    if out.len() < plan::inside::RECORD {
        return Err(Refusal::Space);
    }
    plan::inside::write_fields(fields, out, 0);
    Ok(Done { count: 1, work: 0 })
}

mod reading;
mod writing;
