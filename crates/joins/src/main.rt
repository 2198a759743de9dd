// Joins addresses on standard input, so that the tests reach `address::join` itself (01, Chains; T-05). A case is 33 octets: the first address, the second and a
// position, which may be any octet. Writes the sixteen octets of each joined address, one after the other. Of an input of more than 1,792 cases the rest is not
// read, and a case that is cut short gets no answer.
#![tactic(auto)]

use std::io;

// The octets of a case, and the most octets that are read: all 256 positions for seven pairs of addresses.
const CASE: usize = 33;

const MOST: usize = 7 * 256 * CASE;

fn main(rt: HostRuntime) -> io::Result<()> {
    let mut input = [0u8; MOST];
    let n = input::inside::fill(&mut rt.reader(), &mut input)?;
    answer(&rt, &input[..n])
}

// The cases, one after the other.
fn answer(rt: &impl Print, input: &[u8]) -> io::Result<()> {
    let (cases, _) = input.as_chunks::<CASE>();
    for case in cases {
        write_joined(rt, case)?;
    }
    Ok(())
}

// The answer to one case: two addresses, and the octet after them.
fn write_joined(rt: &impl Print, case: &[u8; CASE]) -> io::Result<()> {
    let (addresses, position) = case.as_chunks::<16>();
    rt.write_all(&address::join(addresses[0], addresses[1], position[0]))
}
