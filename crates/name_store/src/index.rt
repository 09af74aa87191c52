// The index of a name store: an atom's name by its number, and its number by the name.
ghost use Rattle.std.specs.Prelude.{cond, not, ◌≡◌, ◌+◌, ◌*◌, ◌%◌, ◌≤◌, ◌<◌, [], length, get_or, drop, set};
ghost use Rattle.name_store.specs.NameStore.{decode_names, same_bytes, among};
ghost use Rattle.name_store.specs.NameIndex.{found, name_end, name_hash, buckets, Placed, Indexed};
ghost use Rattle.name_store.specs.IndexedNames.{names_of};

use crate::indexed::NameIndex;

// The values of the hash.
pub const BUCKETS: usize = 4096;

// Whether the bytes from `from` on are the same. The few behind the blocks are told one by one: a call takes longer.
fn same_from(a: &[u8], b: &[u8], from: usize) -> bool
    requires { (length a.now ≡ length b.now) × (from ≤ length a.now) }
    ensures { result ≡ same_bytes (drop from a.now) (drop from b.now) }
{
    for i in from..a.len() {
        if a[i] != b[i] {
            return false;
        }
    }
    true
}

// The same of all bytes. No byte ends the walk, so that many are compared at once.
fn same_block(a: &[u8], b: &[u8]) -> bool
    requires { length a.now ≡ length b.now }
    ensures { result ≡ same_bytes a.now b.now }
{
    let mut same = true;
    for i in 0..a.len() {
        if a[i] != b[i] {
            same = false;
        }
    }
    same
}

pub fn same_bytes(a: &[u8], b: &[u8]) -> bool
    ensures { result ≡ same_bytes a.now b.now }
{
    if a.len() != b.len() {
        return false;
    }
    let mut i: usize = 0;
    while 8 <= a.len() - i {
        let to = i + 8;
        if !same_block(&a[i..to], &b[i..to]) {
            return false;
        }
        i = to;
    }
    same_from(a, b, i)
}

// The hash with one byte more.
pub fn hash_step(h: usize, b: u8) -> usize
    requires { h < buckets }
    ensures { result ≡ (h * 31 + b) % buckets }
{
    (h * 31 + b as usize) % BUCKETS
}

pub fn hash(name: &[u8]) -> usize
    ensures { result ≡ name_hash name.now }
{
    let mut h: usize = 0;
    for b in name {
        h = hash_step(h, *b);
    }
    h
}

// The end of the name whose length byte stands at `at`.
pub fn name_end(bytes: &[u8], at: usize) -> Option<usize>
    ensures { result ≡ name_end bytes.now at }
{
    if bytes.len() <= at {
        return None;
    }
    let from = at + 1;
    let size = bytes[at] as usize;
    if bytes.len() - from < size {
        return None;
    }
    Some(from + size)
}

// The name of an atom; `starts` has a place for each atom.
pub fn name_at<'a>(bytes: &'a [u8], starts: &[u16], atom: usize) -> &'a [u8]
    requires { Placed (decode_names (length starts.now) bytes.now) bytes.now starts.now × (atom < length starts.now) }
    ensures { result.now ≡ get_or (decode_names (length starts.now) bytes.now) atom [] }
{
    let at = starts[atom] as usize;
    let from = at + 1;
    let to = from + bytes[at] as usize;
    &bytes[from..to]
}

impl<'a> NameIndex<'a> {
    // The number of a name whose hash is known. In line: a call takes as long as a short name.
    #[inline]
    pub fn find_hashed(&self, name: &[u8], h: usize) -> Option<usize>
        requires { h ≡ name_hash name.now }
        ensures { result ≡ found name.now (names_of self.now) }
    {
        let mut link = self.firsts[h] as usize;
        while 0 < link {
            let atom = link - 1;
            if same_bytes(name_at(self.bytes, self.starts, atom), name) {
                return Some(atom);
            }
            link = self.links[atom] as usize;
        }
        None
    }

    // The number of a name.
    pub fn find(&self, name: &[u8]) -> Option<usize>
        ensures { result ≡ found name.now (names_of self.now) }
    {
        let h = hash(name);
        self.find_hashed(name, h)
    }
}

// Enters the name of an atom, whose length byte stands at `at`.
pub fn enter(
    name: &[u8],
    starts: &mut [u16],
    firsts: &mut [u16],
    links: &mut [u16],
    atom: usize,
    at: usize,
)
    requires { (atom < length starts.old) × (buckets ≤ length firsts.old) × (atom < length links.old) × (atom + 1 < 65536) × (at < 65536) }
    ensures starts_after { starts.new ≡ set starts.old atom at }
    ensures firsts_after { firsts.new ≡ set firsts.old (name_hash name.now) (atom + 1) }
    ensures links_after { links.new ≡ set links.old atom (get_or firsts.old (name_hash name.now) 0) }
{
    let h = hash(name);
    starts[atom] = at as u16;
    links[atom] = firsts[h];
    firsts[h] = (atom + 1) as u16;
}

// Enters the name of an atom, unless an atom before has it.
pub fn enter_new(
    bytes: &[u8],
    name: &[u8],
    starts: &mut [u16],
    firsts: &mut [u16],
    links: &mut [u16],
    atom: usize,
    at: usize,
) -> bool
    requires indexed { Indexed (decode_names atom bytes.now) bytes.now starts.old firsts.old links.old }
    requires atom_in_bounds { (atom < length starts.old) × (atom < length links.old) × (atom + 1 < 65536) × (at < 65536) }
    ensures value { result ≡ not (among (decode_names atom bytes.now) name.now) }
    ensures starts_after { starts.new ≡ cond result (set starts.old atom at) starts.old }
    ensures firsts_after { firsts.new ≡ cond result (set firsts.old (name_hash name.now) (atom + 1)) firsts.old }
    ensures links_after { links.new ≡ cond result (set links.old atom (get_or firsts.old (name_hash name.now) 0)) links.old }
{
    let index = NameIndex {
        bytes,
        starts: &starts[..atom],
        firsts,
        links,
    };
    if index.find(name).is_some() {
        return false;
    }
    enter(name, starts, firsts, links, atom, at);
    true
}
