// The unused records as one circular list a name (specs/Links).
ghost use Rattle.std.specs.Prelude.{◌≡◌, ◌<◌, length, set, get_or};
ghost use Rattle.search.specs.Links.{Owned, Fresh, Alone, max_nodes};

use crate::inside::NODES;

// The nodes: of each, the next one and the one before it, by their numbers, since nothing here has memory of its own but arrays.
#[derive(Drop)]
pub struct Lists {
    pub next: [u16; NODES],
    pub prev: [u16; NODES],
}

// Each place its own number.
fn alone(a: &mut [u16; NODES])
    ensures { Alone a.new max_nodes }
{
    for (i, x) in a.iter_mut().enumerate() {
        *x = i as u16;
    }
}

impl Lists {
    // The node after one.
    pub fn after(&self, node: usize) -> usize
        requires { node < max_nodes }
        ensures { result ≡ get_or self.now.next node 0 }
    {
        octets::numbers::wide(self.next[node])
    }

    // Every record at the end of its owner's list, in order.
    pub fn link(&mut self, owners: &[u16])
        requires { Owned owners.now }
        ensures { Fresh owners.now self.new.next self.new.prev }
    {
        alone(&mut self.next);
        alone(&mut self.prev);
        let n = owners.len();
        for (i, owner) in owners.iter().enumerate() {
            let ends = n + octets::numbers::wide(*owner);
            let last = self.prev[ends];
            self.next[octets::numbers::wide(last)] = i as u16;
            self.next[i] = ends as u16;
            self.prev[ends] = i as u16;
            self.prev[i] = last;
        }
    }

    // Takes a node out from between its neighbours.
    pub fn unlink(&mut self, i: usize)
        requires { (i < max_nodes) × (get_or self.old.prev i 0 < max_nodes) × (get_or self.old.next i 0 < max_nodes) }
        ensures next { self.new.next ≡ set self.old.next (get_or self.old.prev i 0) (get_or self.old.next i 0) }
        ensures prev { self.new.prev ≡ set self.old.prev (get_or self.old.next i 0) (get_or self.old.prev i 0) }
    {
        let p = self.prev[i];
        let q = self.next[i];
        self.next[usize::from(p)] = q;
        self.prev[usize::from(q)] = p;
    }

    // Puts a node back, whose neighbours it still has.
    pub fn relink(&mut self, i: usize)
        requires { (i < max_nodes) × (get_or self.old.prev i 0 < max_nodes) × (get_or self.old.next i 0 < max_nodes) }
        ensures next { self.new.next ≡ set self.old.next (get_or self.old.prev i 0) i }
        ensures prev { self.new.prev ≡ set self.old.prev (get_or self.old.next i 0) i }
    {
        let p = usize::from(self.prev[i]);
        let q = usize::from(self.next[i]);
        self.next[p] = i as u16;
        self.prev[q] = i as u16;
    }
}
