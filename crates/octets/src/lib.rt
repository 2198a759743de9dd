// Octets and answers: what every layer above shares.
#![tactic(auto)]

ghost use Rattle.std.specs.Prelude.{◌≡◌, ◌<◌, ℕ, List, length, replicate};
ghost use Rattle.octets.specs.Octets.{blank, same};
ghost use Rattle.octets.specs.Cleared.{blank_replicated};
ghost use Rattle.octets.specs.Answers.{refusal};
ghost use Rattle.octets.specs.Refusals.{answered};

// What an operation answers (01, What comes back): its number, 0 for done, and two figures that are 0 on a refusal.
#[repr(C)]
#[derive(Clone, Copy)]
pub struct Answer {
    pub number: u8,
    pub count: u32,
    pub work: u32,
}

// Why an operation refuses (01, What comes back): `as u8` gives the number.
#[derive(Clone, Copy, Debug, PartialEq, Eq)]
pub enum Refusal {
    // The table is no whole number of records, or has too many.
    Length = 1,
    // A record is not in order.
    Record = 2,
    // An earlier DNAME has the same owner.
    Repeat = 3,
    // The name or the address that was given is malformed.
    Given = 4,
    // The output has another length than is asked.
    Output = 5,
    // More work, or more rewrites, than the limit.
    Limit = 6,
    // The output has no room.
    Room = 7,
    // A rewritten name would be too long.
    TooLong = 8,
    // The collapse would revive a record.
    Reviving = 9,
    // The prefix length is over 128.
    Prefix = 10,
    // The data ends too soon.
    Short = 11,
    // The name in data is malformed, or a value is none that a reader gives.
    Malformed = 12,
    // Octets are left over.
    LeftOver = 13,
    // Text has no form that is read.
    Form = 20,
    // A number in text is out of range.
    Range = 21,
    // Labels in text that are no name.
    Name = 22,
    // The output has no room for text, or for a record that was read.
    Space = 23,
}

// What an operation that is done gives: its two figures.
#[derive(Clone, Copy, Debug, PartialEq, Eq)]
pub struct Done {
    pub count: u32,
    pub work: u32,
}

impl From<Result<Done, Refusal>> for Answer {
    ghost from_gives = { λ r a. a ≡ answered r };

    fn from(outcome: Result<Done, Refusal>) -> Answer {
        match outcome {
            Ok(done) => Answer {
                number: 0,
                count: done.count,
                work: done.work,
            },
            Err(refusal) => refused(refusal as u8),
        }
    }
}

// A refusal by its number.
pub fn refused(number: u8) -> Answer
    ensures { result ≡ refusal number }
{
    Answer {
        number,
        count: 0,
        work: 0,
    }
}

// What a list can be cleared of: an element that may be zero.
pub trait Zero: Copy {
    ghost zeros: { ℕ → List Self };

    ghost nought: { Self };

    fn zero() -> Self
        ensures { result ≡ nought };

    ghost replicated: { (n : ℕ) → zeros n ≡ replicate n nought };
}

impl Zero for u8 {
    ghost zeros = { blank };

    ghost nought = { 0 };

    ghost replicated = { blank_replicated };

    fn zero() -> u8 {
        0u8
    }
}

impl Zero for u32 {
    ghost zeros = { blank };

    ghost nought = { 0 };

    ghost replicated = { blank_replicated };

    fn zero() -> u32 {
        0u32
    }
}

// Zeros from end to end.
pub fn clear<T: Zero>(out: &mut [T])
    ensures { out.new ≡ T.zeros (length out.old) }
{
    let nought = T::zero();
    for x in out.iter_mut() {
        *x = nought;
    }
}

// Whether two lists are the same octets.
pub fn equal(a: &[u8], b: &[u8]) -> bool
    ensures { result ≡ same a.now b.now }
{
    a == b
}

// An octet as an index or a length.
pub fn wide(x: u8) -> usize
    ensures { (result ≡ x) × (result < 256) }
{
    usize::from(x)
}

pub mod inside;
pub mod numbers;
pub mod zeros;
