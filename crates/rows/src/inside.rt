// Rows of sixteen octets, ascending, each address once, and their lifetimes beside them (specs/Rows).
ghost use Rattle.std.specs.Prelude.{◌≡◌, ◌+◌, ◌*◌, ◌≤◌, ◌<◌, ◌∷◌, [], length, take, drop};
ghost use Rattle.rows.specs.Halves.{whole};
ghost use Rattle.rows.specs.Rows.{put_at, lowered};

// An address by its first and its last 64 bits.
#[derive(Clone, Copy, PartialEq, Eq, PartialOrd, Ord)]
pub struct Halves {
    pub high: u64,
    pub low: u64,
}

impl Halves {
    // The sixteen octets from a place on.
    pub fn at(out: &[u8], at: usize) -> Halves
        requires { at + 16 ≤ length out.now }
        ensures { whole result ≡ take 16 (drop at out.now) }
    {
        Halves {
            high: octets::inside::half(out, at),
            low: octets::inside::half(out, at + 8),
        }
    }

    // The spot of an address among the hints. Any would do: this one mostly keeps addresses apart that differ in few bits.
    fn spot(self) -> usize
        ensures { result < 256 }
    {
        let a = self.high.wrapping_add(self.low << 3);
        let b = ((a >> 32) + a % 4294967296) % 4294967296;
        ((b as u32).wrapping_mul(2654435761) >> 24) as usize
    }
}

// How many hints there are.
const HINTS: usize = 256;

// Puts an address at the octet k, and moves what stands from k up to c.
fn put(out: &mut [u8], k: usize, c: usize, address: Halves)
    requires { (k ≤ c) × (c + 16 ≤ length out.old) }
    ensures { out.new ≡ put_at 16 k c (whole address) out.old }
{
    out.copy_within(k..c, k + 16);
    octets::inside::write(out, k, address.high);
    octets::inside::write(out, k + 8, address.low);
}

// Puts a lifetime at k, and moves what stands from k up to c one further.
fn put_life(lives: &mut [u32], k: usize, c: usize, ttl: u32)
    requires { (k ≤ c) × (c < length lives.old) }
    ensures { lives.new ≡ put_at 1 k c (ttl ∷ []) lives.old }
{
    lives.copy_within(k..c, k + 1);
    lives[k] = ttl;
}

// Makes the lifetime at k this one where it is less.
fn lower(lives: &mut [u32], k: usize, ttl: u32)
    requires { k < length lives.old }
    ensures { lives.new ≡ lowered k ttl lives.old }
{
    lives[k] = lives[k].min(ttl);
}

// The addresses that a search has found. A hint is the row where an address of its spot was last sought; whatever it is, the same is kept.
#[derive(Drop)]
pub struct Rows<'a> {
    out: &'a mut [u8],
    lives: &'a mut [u32],
    count: usize,
    full: bool,
    hints: [usize; HINTS],
    pub ghost room: { count * 16 ≤ length out.now },
    pub ghost level: { length lives.now * 16 ≡ length out.now },
}

impl<'a> Rows<'a> {
    ghost use Rattle.std.specs.Prelude.{false, ◌&&◌, nat_lt};
    ghost use Rattle.address.specs.Order.{order_of};
    ghost use Rattle.rows.specs.Rows.{row, is_same, seek, keep_at, keep_in, Ordered};
    ghost use Rattle.rows.specs.Held.{kept, Lent, none_yet};

    // None yet.
    pub fn new(out: &'a mut [u8], lives: &'a mut [u32]) -> Rows<'a>
        requires { length lives.old * 16 ≡ length out.old }
        ensures same_reference { (result.out.ghost_name ≡ out.entry.ghost_name) × (result.lives.ghost_name ≡ lives.entry.ghost_name) }
        ensures value { kept result ≡ none_yet out.old lives.old }
    {
        Rows {
            out,
            lives,
            count: 0,
            full: false,
            hints: [0; HINTS],
        }
    }

    // How many there are.
    pub fn count(&self) -> usize
        ensures { result ≡ (kept self.now).count }
    {
        self.count
    }

    // Whether there was no room for an address: nothing is kept any more.
    pub fn is_full(&self) -> bool
        ensures { result ≡ (kept self.now).full }
    {
        self.full
    }

    // Where an address belongs among the rows. They are octets of a lent output and no slice of rows, so they are halved here by place.
    fn place(&self, address: Halves) -> usize
        ensures { (result ≡ seek self.now.count self.now.out.now (whole address) 0 self.now.count) × (result ≤ self.now.count) }
    {
        let mut from = 0;
        let mut to = self.count;
        while from < to {
            let middle = (from + to) / 2;
            if Halves::at(self.out, middle * 16) < address {
                from = middle + 1;
            } else {
                to = middle;
            }
        }
        from
    }

    // Whether the row k is an address.
    fn is_at(&self, k: usize, address: Halves) -> bool
        ensures { result ≡ (nat_lt k self.now.count && is_same (order_of (row self.now.out.now k) (whole address))) }
    {
        k < self.count && Halves::at(self.out, k * 16) == address
    }

    // Puts an address at the row k with its lifetime; where it stands there, the lesser lifetime stays; where there is no room, that is marked.
    fn keep_at(&mut self, k: usize, address: Halves, ttl: u32)
        requires { (k ≤ self.old.count) × (self.old.full ≡ false) }
        ensures lent { Lent self.old self.new }
        ensures after { kept self.new ≡ keep_at k (whole address) ttl (kept self.old) }
    {
        if self.is_at(k, address) {
            lower(self.lives, k, ttl);
            return;
        }
        let end = self.count * 16;
        if end + 16 <= self.out.len() {
            put(self.out, k * 16, end, address);
            put_life(self.lives, k, self.count, ttl);
            self.count += 1;
        } else {
            self.full = true;
        }
    }

    // Keeps an address in its place with its lifetime, the lesser one where it is there; where there is no room, that is marked. The row of the
    // hint mostly is the address; if not, the address is sought, and where it is found becomes the hint.
    pub fn keep(&mut self, address: Halves, ttl: u32)
        requires { Ordered (kept self.old) × (self.old.full ≡ false) }
        ensures lent { Lent self.old self.new }
        ensures after { kept self.new ≡ keep_in (whole address) ttl (kept self.old) }
    {
        let spot = address.spot();
        let hint = self.hints[spot];
        if self.is_at(hint, address) {
            lower(self.lives, hint, ttl);
            return;
        }
        let k = self.place(address);
        self.hints[spot] = k;
        self.keep_at(k, address, ttl);
    }
}
