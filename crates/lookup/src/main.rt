// Looks a name up in a plan on standard input: a name slot of 256 octets, then up to 120 records. Prints each address as a line of 32 hex
// digits, then `done`, the count and the work; a refusal prints only `refused` and its number (01, program lookup),
// and for 2 and 3 the index of the record and the number of its field (T-04).
#![tactic(auto)]

use octets::{Done, Refusal};
use plan::inside::{RECORD, SLOT};
use plan::{Fault, Refused};
use std::io;

// The most octets that are read: a slot and 120 records.
const MOST: usize = SLOT + 120 * RECORD;

// The work limit, and the room: so many addresses.
const LIMIT: u32 = 10000;

const ROOM: usize = 64;

fn main(rt: HostRuntime) -> io::Result<()> {
    let mut input = [0u8; MOST + 1];
    let n = input::inside::fill(&mut rt.reader(), &mut input)?;
    answer(&rt, &input[..n])
}

// The answer to the whole input.
fn answer(rt: &impl Print, input: &[u8]) -> io::Result<()> {
    let mut out = [0u8; 16 * ROOM];
    match look(input, &mut out) {
        Ok(done) => write_done(rt, &out, done),
        Err(refused) => write_refused(rt, refused),
    }
}

// The addresses of the name that an input asks for.
fn look(input: &[u8], out: &mut [u8; 16 * ROOM]) -> Result<Done, Refused> {
    let (name, table) = split(input)?;
    let mut ttls = [0u32; ROOM];
    forward::lookup(table, name, LIMIT, out, &mut ttls)
}

// The name and the table of an input. A slot that is missing or not zero after its name comes before too many octets.
fn split(input: &[u8]) -> Result<(&[u8], &[u8]), Refusal> {
    let (slot, table) = input.split_first_chunk::<SLOT>().ok_or(Refusal::Given)?;
    let end = 1 + octets::wide(slot[0]);
    if !octets::zeros::is_blank(slot, end) {
        return Err(Refusal::Given);
    }
    if MOST < input.len() {
        return Err(Refusal::Length);
    }
    Ok((&slot[1..end], table))
}

// A line of 32 hex digits for each address, and one for the figures.
fn write_done(rt: &impl Print, out: &[u8], done: Done) -> io::Result<()> {
    let Done { count, work } = done;
    let (addresses, _) = out.as_chunks::<16>();
    for address in addresses.iter().take(count as usize) {
        println!(rt; "{:032x}", u128::from_be_bytes(*address))?;
    }
    println!(rt; "done {count} {work}")
}

// The number of a refusal, and for a fault of the table its place.
fn write_refused(rt: &impl Print, refused: Refused) -> io::Result<()> {
    let Refused { refusal, fault } = refused;
    let Fault { index, field } = fault;
    let number = refusal as u8;
    match refusal {
        Refusal::Record | Refusal::Repeat => println!(rt; "refused {number} {index} {field}"),
        _ => println!(rt; "refused {number}"),
    }
}
