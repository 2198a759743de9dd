// A line's words read one after the other, each from its place on.
ghost use Rattle.std.specs.Prelude.{◌≡◌, not, ◌≤◌, ◌<◌, ltb, eqb, length, drop};
ghost use Rattle.octets.specs.Octets.{same};
ghost use Rattle.octets.specs.Answers.{earns};
ghost use Rattle.chains.specs.Graph.{max_ttl};
ghost use Rattle.text.specs.Digits.{leading};
ghost use Rattle.text.specs.Decimal.{decimal_of};
ghost use Rattle.text.specs.AddressText.{read_address};
ghost use Rattle.nametext.specs.Reading.{text_number, name_held};
ghost use Rattle.line.specs.Words.{is_blank_octet, words_of};
ghost use Rattle.line.specs.Reading.{decimal_number, address_number, with_ttl, with_address, worst, fields_in};
ghost use Rattle.line.specs.Writing.{a6_word};
ghost use Rattle.line.specs.Walk.{not_blank, word_at, word_end, passed, ttl_word, type_place, lived_number, word_numbers};
ghost use Rattle.line.specs.Walked.{value_by, Ended, WordAt, RestAt, prefix_in};

use names::Name;
use octets::Refusal;
use plan::inside::Fields;

// What is read of a word that has its form: its value, or why it has none, and the place after it. A word without its form is refused at once, since 20 anywhere
// in a line hides every other number.
#[derive(Clone, Copy)]
pub struct Word<T> {
    pub value: Result<T, Refusal>,
    pub next: usize,
}

// What is read of the words that end a line: the address, and the target, or why it is none.
#[derive(Clone, Copy)]
pub struct Rest {
    pub address: [u8; 16],
    pub target: Result<Name, Refusal>,
}

// The greatest TTL (T-01), the TTL of a line that has none, and the longest prefix.
const MAX_TTL: u32 = 2147483647;

const TTL: u32 = 300;

const LONGEST: u32 = 128;

// The words of a line, one after the other: the first bits of the address are cleared, as many as the prefix length.
pub fn read_words(body: &[u8]) -> Result<Fields, Refusal>
    ensures { let ws = with_address (with_ttl (words_of body.now)) in result ≡ value_by (worst (word_numbers ws)) (fields_in ws) }
{
    let owner = name_word(body, 0)?;
    let lived = lived_words(body, owner.next)?;
    let length = decimal_word(body, pass(body, lived.next), LONGEST)?;
    let rest = rest_words(body, length.next, length.value)?;
    // Every word has its form: 21 of any word comes before 22 of another, and only names earn 22.
    let ttl = lived.value?;
    let prefix = length.value? as u8;
    if matches!(rest.target, Err(Refusal::Range)) {
        return Err(Refusal::Range);
    }
    let owner = owner.value?;
    let target = rest.target?;
    let address = address::join([0u8; 16], rest.address, prefix);
    Ok(Fields {
        prefix,
        address,
        owner,
        target,
        ttl,
    })
}

// The TTL, where it is not left out, and the type, after an owner that ends at a place.
fn lived_words(body: &[u8], from: usize) -> Result<Word<u32>, Refusal>
    requires { from ≤ length body.now }
    ensures { WordAt (lived_number body.now from) (decimal_of (ttl_word body.now from)) (word_end body.now (type_place body.now from)) result }
{
    let at = pass(body, from);
    if is_type(body, at) {
        return Ok(Word {
            value: Ok(TTL),
            next: at + 2,
        });
    }
    let ttl = decimal_word(body, at, MAX_TTL)?;
    let place = pass(body, ttl.next);
    if !is_type(body, place) {
        return Err(Refusal::Form);
    }
    Ok(Word {
        value: ttl.value,
        next: place + 2,
    })
}

// The address, where it is not left out, and the target, where there is one, after a prefix length that ends at a place.
fn rest_words(body: &[u8], from: usize, prefix: Result<u32, Refusal>) -> Result<Rest, Refusal>
    requires { from ≤ length body.now }
    ensures { RestAt body.now from (prefix_in prefix) result }
{
    let at = pass(body, from);
    match prefix {
        // The address alone.
        Ok(0) => {
            let address = address_word(body, at)?;
            if address.next != body.len() {
                return Err(Refusal::Form);
            }
            Ok(Rest {
                address: address.value?,
                target: Ok(Name::none()),
            })
        }
        // The target alone: the address is left out.
        Ok(128) if word_end(body, at) == body.len() => {
            let target = name_word(body, at)?;
            Ok(Rest {
                address: [0u8; 16],
                target: target.value,
            })
        }
        _ => {
            let address = address_word(body, at)?;
            let target = name_word(body, pass(body, address.next))?;
            if target.next != body.len() {
                return Err(Refusal::Form);
            }
            Ok(Rest {
                address: address.value?,
                target: target.value,
            })
        }
    }
}

// The word at a place as a name.
fn name_word(body: &[u8], at: usize) -> Result<Word<Name>, Refusal>
    requires { at ≤ length body.now }
    ensures { WordAt (text_number (word_at body.now at)) (name_held (word_at body.now at)) (word_end body.now at) result }
{
    let found = nametext::reading::read_name(body, at);
    ended(found.name, body, found.next)
}

// The word at a place as a decimal of at most a bound.
fn decimal_word(body: &[u8], at: usize, bound: u32) -> Result<Word<u32>, Refusal>
    requires { at ≤ length body.now }
    ensures { WordAt (decimal_number bound (word_at body.now at)) (decimal_of (word_at body.now at)) (word_end body.now at) result }
{
    let found = text::numbers::read_decimal(body, at, bound);
    let next = found.next;
    ended(ranged(found, bound), body, next)
}

// A decimal that was read, within a bound.
fn ranged(found: text::numbers::Decimal, bound: u32) -> Result<u32, Refusal>
    ensures { result ≡ value_by (earns (not found.formed) 20 (earns (ltb bound found.value) 21 0)) found.value }
{
    if !found.formed {
        return Err(Refusal::Form);
    }
    if u64::from(bound) < found.value {
        return Err(Refusal::Range);
    }
    Ok(found.value as u32)
}

// The word at a place as an address.
fn address_word(body: &[u8], at: usize) -> Result<Word<[u8; 16]>, Refusal>
    requires { at ≤ length body.now }
    ensures { WordAt (address_number (word_at body.now at)) (read_address (word_at body.now at)) (word_end body.now at) result }
{
    let found = text::reading::read_address(body, at);
    ended(found.address.ok_or(Refusal::Form), body, found.next)
}

// A word that was read up to a place: it has no form where its value has none, or where more of it follows.
fn ended<T: Copy>(value: Result<T, Refusal>, body: &[u8], next: usize) -> Result<Word<T>, Refusal>
    ensures { Ended value (eqb (leading not_blank (drop next body.now)) 0) next result }
{
    if matches!(value, Err(Refusal::Form)) || !stops(body, next) {
        return Err(Refusal::Form);
    }
    Ok(Word { value, next })
}

// Whether an octet is a space or a tab.
#[tactic(auto, unfolding(crate::specs::Words::is_blank_octet))]
fn is_blank(x: u8) -> bool
    ensures { result ≡ is_blank_octet x }
{
    x == b' ' || x == b'\t'
}

// Whether a word ends at a place: a blank stands there, or the text ends.
fn stops(body: &[u8], at: usize) -> bool
    ensures { result ≡ eqb (leading not_blank (drop at body.now)) 0 }
{
    body.len() <= at || is_blank(body[at])
}

// The place after the blanks from a place on.
fn pass(body: &[u8], from: usize) -> usize
    ensures { result ≡ passed body.now from }
{
    text::inside::pass(body, from, is_blank)
}

// The place after the word at a place.
fn word_end(body: &[u8], at: usize) -> usize
    ensures { result ≡ word_end body.now at }
{
    text::inside::pass(body, at, |x| !is_blank(x))
}

// Whether the word at a place is A6.
fn is_type(body: &[u8], at: usize) -> bool
    requires { at ≤ length body.now }
    ensures { result ≡ same (word_at body.now at) a6_word }
{
    body[at..].starts_with(b"A6") && stops(body, at + 2)
}
