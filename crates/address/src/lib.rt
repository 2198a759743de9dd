// Addresses: sixteen octets as 128 bits, bit 0 the highest.
#![tactic(auto)]

ghost use Rattle.std.specs.Prelude.{◌≡◌, true, false, ◌/◌, ◌%◌, ◌<◌, eqb, ltb};
ghost use Rattle.address.specs.Address.{join_of, clear_to};
ghost use Rattle.address.specs.Picture.{mix};
ghost use Rattle.address.specs.Order.{order_of};

use std::cmp::Ordering;

// The first `at` bits of `high`, then the bits of `low` from `at` on; all of `high` from 128 on (01, Chains).
// By octets (T-05): whole ones of `high` before the octet that the position is in, that one mixed of both, whole ones of `low` after it.
pub fn join(high: [u8; 16], low: [u8; 16], at: u8) -> [u8; 16]
    ensures { result ≡ join_of high low at }
{
    let place = octets::wide(at / 8);
    // From 128 on the place is past the last octet and no octet is the mixed one; modulo 16 it stays inside the arrays.
    let mixed = mix(high[place % 16], low[place % 16], at % 8);
    let mut out = low;
    for k in 0..16 {
        out[k] = octet(high[k], mixed, low[k], k, place);
    }
    out
}

// How `a` stands to `b` in ascending order: by the first octets that differ.
#[tactic(auto, using(crate::proofs::OrderLaws::order_cmp))]
pub fn compare(a: &[u8], b: &[u8]) -> Ordering
    ensures { result ≡ order_of a.now b.now }
{
    a.cmp(b)
}

// Whether the first n bits are zero.
pub fn is_clear(a: &[u8], n: u8) -> bool
    ensures { result ≡ clear_to n a.now }
{
    let whole = octets::wide(n / 8);
    let (whole, rest) = a.split_at(whole.min(a.len()));
    whole.iter().all(|octet| *octet == 0)
        && rest
            .first()
            .is_none_or(|octet| octets::wide(*octet) >> (8 - n % 8) == 0)
}

// An octet with the first n bits of `high` and the other bits of `low`.
fn mix(high: u8, low: u8, n: u8) -> u8
    requires { n < 8 }
    ensures { result ≡ mix 8 n high low }
{
    let rest = 255u8 >> n;
    (high & !rest) | (low & rest)
}

// Octet k of a join: the mixed one in its place, whole ones of `high` before it and of `low` after it.
// Asked in this order, it compiles to whole words without a branch.
fn octet(high: u8, mixed: u8, low: u8, k: usize, place: usize) -> u8
    ensures { result ≡ elim (eqb k place) [ true ↦ mixed | false ↦ elim (ltb k place) [ true ↦ high | false ↦ low ] ] }
{
    if k == place {
        return mixed;
    }
    if k < place { high } else { low }
}
