// Runs a script on standard input: the records of a plan as lines of a zone, and questions about the plan. The answers are the library's.
//
//     plan                               begins a plan with no records
//     OWNER A6 LENGTH ADDRESS TARGET     one record more; no target at length 0
//     OWNER DNAME TARGET                 one record more
//     lookup NAME                        its addresses, and the work
//     reverse ADDRESS                    the name at the end of the walk, and the rewrites
//     collapse NAME                      the plan with the name folded, and its records
//     keep, compare                      sets the plan aside; tells whether the plan is the one set aside
//     ; TEXT                             prints nothing
//
// Any other line is printed as it is. The stored script has the examples of RFC 2874, section 5, of 01, of T-03 and of T-04.
#![tactic(auto)]

ghost use Rattle.std.specs.Prelude.{◌≡◌, ◌≤◌, length, OnErr};

use octets::Done;
use plan::inside::{Parts, RECORD, SLOT};
use std::io;
use text::Command;

mod print;
mod text;

// The most octets of a script, and the octets of a table for 32 records.
const SCRIPT: usize = 16384;

const TABLE: usize = 32 * RECORD;

// The TTL of every record: an hour, since neither the RFC nor 01 gives its records one.
const TTL: u32 = 3600;

// The room: so many addresses; the work limit and the rewrite limit.
const ROOM: usize = 8;

const WORK: u32 = 10000;

const REWRITES: u8 = 255;

fn main(rt: HostRuntime) -> io::Result<()> {
    let mut script = [0u8; SCRIPT];
    let n = input::inside::fill(&mut rt.reader(), &mut script)?;
    run(&rt, &script[..n])
}

// The lines of a script, one after the other.
fn run(rt: &impl Print, script: &[u8]) -> io::Result<()> {
    let mut plans = Plans::new();
    for part in script.split_inclusive(|x| *x == b'\n') {
        plans.run(rt, part.strip_suffix(b"\n").unwrap_or(part))?;
    }
    Ok(())
}

// The plan, which is the first `size` octets of a table with zeros after them, and the table that was set aside.
#[derive(Drop)]
struct Plans {
    table: [u8; TABLE],
    size: usize,
    kept: [u8; TABLE],
    ghost fits: { size ≤ length table },
}

impl Plans {
    fn new() -> Plans {
        Plans {
            table: [0u8; TABLE],
            size: 0,
            kept: [0u8; TABLE],
        }
    }

    fn plan(&self) -> &[u8] {
        &self.table[..self.size]
    }

    // One line.
    fn run(&mut self, rt: &impl Print, line: &[u8]) -> io::Result<()>
        ensures { OnErr result (self.new ≡ self.old) }
    {
        match Command::read(line) {
            Command::Record {
                kind,
                prefix,
                address,
                owner,
                target,
            } => self.add(
                rt,
                Parts {
                    kind: kind.number(),
                    prefix,
                    address,
                    owner: &owner,
                    target: &target,
                    ttl: TTL,
                },
            ),
            Command::Plan => {
                self.table.fill(0);
                self.size = 0;
                Ok(())
            }
            Command::Collapse(name) => self.collapse(rt, line, &name),
            Command::Keep => {
                self.kept.copy_from_slice(&self.table);
                Ok(())
            }
            Command::Compare => print::compared(rt, self.table == self.kept),
            Command::Lookup(name) => lookup(rt, line, &name, self.plan()),
            Command::Reverse(address) => reverse(rt, line, &address, self.plan()),
            Command::Note => Ok(()),
            Command::Text => print::line(rt, line),
        }
    }

    // The plan with one record more.
    fn add(&mut self, rt: &impl Print, record: Parts<'_>) -> io::Result<()>
        ensures { OnErr result (self.new ≡ self.old) }
    {
        let size = self.size;
        if TABLE - size < RECORD {
            return println!(rt; "no room for a record");
        }
        record.write(&mut self.table, size);
        self.size = size + RECORD;
        Ok(())
    }

    // The plan with a name folded in place of the plan. A refusal leaves the plan as it is.
    fn collapse(&mut self, rt: &impl Print, line: &[u8], name: &[u8; SLOT]) -> io::Result<()>
        ensures { OnErr result (self.new ≡ self.old) }
    {
        let mut made = [0u8; TABLE];
        let outcome = collapse::collapse(self.plan(), plan::inside::name_in(name), &mut made);
        rt.write_all(line)?;
        match outcome {
            Ok(Done { count, .. }) => {
                println!(rt; ": records {count}")?;
                self.table = made;
                self.size = count as usize * RECORD;
                Ok(())
            }
            Err(refused) => print::end_refused(rt, refused),
        }
    }
}

// The addresses of a name, each on a line.
fn lookup(rt: &impl Print, line: &[u8], name: &[u8; SLOT], plan: &[u8]) -> io::Result<()> {
    let mut out = [0u8; 16 * ROOM];
    let mut ttls = [0u32; ROOM];
    let outcome = forward::lookup(plan, plan::inside::name_in(name), WORK, &mut out, &mut ttls);
    rt.write_all(line)?;
    match outcome {
        Ok(Done { count, work }) => {
            print!(rt; ": addresses {count}, work {work}")?;
            let (addresses, _) = out.as_chunks::<16>();
            for address in addresses.iter().take(count as usize) {
                print!(rt; "\n  {}", print::Groups(*address))?;
            }
            println!(rt)
        }
        Err(refused) => print::end_refused(rt, refused),
    }
}

// The name at the end of the walk from an address, on a line.
fn reverse(rt: &impl Print, line: &[u8], address: &[u8; 16], plan: &[u8]) -> io::Result<()> {
    let mut out = [0u8; 255];
    let outcome = reverse::lookup(plan, address, REWRITES, &mut out);
    rt.write_all(line)?;
    match outcome {
        Ok(Done { work, .. }) => {
            print!(rt; ": rewrites {work}")?;
            print::name(rt, &out)?;
            println!(rt)
        }
        Err(refused) => print::end_refused(rt, refused),
    }
}
