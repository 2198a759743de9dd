// What only our own layers call: a piece of a bit label.
ghost use Rattle.std.specs.Prelude.{◌≡◌, ◌≤◌};
ghost use Rattle.labels.specs.Labels.{count_for};

// The bits that a count octet stands for: 256 is written as 0.
#[tactic(auto, unfolding(crate::specs::Labels::count_for))]
pub fn count(c: u8) -> usize
    ensures { (result ≡ count_for c) × (1 ≤ result) × (result ≤ 256) }
{
    if c == 0 { 256 } else { octets::wide(c) }
}
