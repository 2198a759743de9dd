// To standard output: lines, addresses and names as text. Octets of a script or of a name need not be text, so that they are written as they are.
ghost use Rattle.std.specs.Prelude.{◌<◌, length, IfSome};

use crate::text::BIT_LABEL;
use octets::Refusal;
use plan::{Fault, Refused};
use std::{fmt, io};

pub fn line(rt: &impl Print, octets: &[u8]) -> io::Result<()> {
    rt.write_all(octets)?;
    println!(rt)
}

// Whether the plan is the one that was kept.
pub fn compared(rt: &impl Print, same: bool) -> io::Result<()> {
    let words = if same {
        "the kept plan, octet for octet"
    } else {
        "not the kept plan"
    };
    println!(rt; "compare: {words}")
}

// Why a question is refused, and for a fault of the table which record and which field. It ends the question's line.
pub fn end_refused(rt: &impl Print, refused: Refused) -> io::Result<()> {
    let Refused { refusal, fault } = refused;
    let Fault { index, field } = fault;
    let number = refusal as u8;
    match refusal {
        Refusal::Record | Refusal::Repeat => {
            println!(rt; ": refused {number}, record {index}, field {field}")
        }
        _ => println!(rt; ": refused {number}"),
    }
}

// An address as eight groups of four hex digits.
#[derive(Clone, Copy)]
pub struct Groups(pub [u8; 16]);

impl fmt::Display for Groups {
    fn fmt<W: fmt::Write>(&self, f: &mut fmt::Formatter<W>) -> fmt::Result {
        let octets = self.0;
        let (groups, _) = octets.as_chunks::<2>();
        for (i, group) in groups.iter().enumerate() {
            if 0 < i {
                write!(f, ":")?;
            }
            write!(f, "{:04x}", u16::from_be_bytes(*group))?;
        }
        Ok(())
    }
}

// A label of a name.
#[derive(Clone, Copy)]
enum Label<'a> {
    Letters(&'a [u8]),
    Bits(Bits<'a>),
}

// The octets of a bit label, and how many of their bits count.
#[derive(Clone, Copy)]
struct Bits<'a> {
    octets: &'a [u8],
    count: usize,
}

impl fmt::Display for Bits<'_> {
    fn fmt<W: fmt::Write>(&self, f: &mut fmt::Formatter<W>) -> fmt::Result {
        let count = self.count;
        write!(f, "\\[x")?;
        let digits = self.octets.iter().flat_map(|x| [*x / 16, *x % 16]);
        for digit in digits.take(count.div_ceil(4)) {
            write!(f, "{digit:X}")?;
        }
        write!(f, "/{count}]")
    }
}

// The name at the front of an output, on a line after this one: its labels, a point after each. A `for` needs an iterator of its own, whose `next`
// is `split_label` again.
pub fn name(rt: &impl Print, out: &[u8]) -> io::Result<()> {
    print!(rt; "\n  ")?;
    let mut rest = out;
    while let Some((label, after)) = split_label(rest) {
        match label {
            Label::Letters(letters) => rt.write_all(letters)?,
            Label::Bits(bits) => print!(rt; "{bits}")?,
        }
        print!(rt; ".")?;
        rest = after;
    }
    Ok(())
}

// The first label of a name, and what follows it; nothing at the end of the name.
fn split_label(name: &[u8]) -> Option<(Label<'_>, &[u8])>
    ensures { IfSome result (λ split. length split.1.now < length name.now) }
{
    let (first, rest) = name.split_first()?;
    match *first {
        0 => None,
        BIT_LABEL => {
            let (written, rest) = rest.split_first()?;
            let count = labels::inside::count(*written);
            let (octets, rest) = rest.split_at_checked(count.div_ceil(8))?;
            Some((Label::Bits(Bits { octets, count }), rest))
        }
        n => {
            let (letters, rest) = rest.split_at_checked(usize::from(n))?;
            Some((Label::Letters(letters), rest))
        }
    }
}
