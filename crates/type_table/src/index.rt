// The index over the types: for each bucket of hashes a tree of the types that have such a hash. Each type there has two branches, and the
// way through a tree goes by the bits of the hash, the lowest first. A link is the number of a type and one more, or 0. Of equal types only
// the first stands in a tree, so what is found there is the first.
ghost use Rattle.std.specs.Prelude.{◌≡◌, ◌+◌, ◌/◌, ◌%◌, ◌≤◌, ◌<◌, length, set};
ghost use Rattle.area.specs.Layout.{HASHES, USES};
ghost use Rattle.type_table.specs.Hash.{HALF, hashed_list, mixed};
ghost use Rattle.type_table.specs.Known.{Passable, ReadableSignature};
ghost use Rattle.type_table.specs.Size.{hashed};
ghost use Rattle.type_table.specs.Table.{types_of, signature_of, head_of, branch_of, link_at, hash_is, hash_words, bare_words, free_place, tree_words, HeadsEmptied, Emptied};

use crate::entry::Signature;
use crate::list::known_type;
use syntax::List;

const BUCKETS: u64 = 256;

// A hash has two halves, each below this.
const HALF: u64 = 0x1_0000_0000;

// What a hash begins with; what a type is spread by; what is added to the other half.
const START: u64 = 11400714819323198485;

const SPREAD: u64 = 10368889;

const OTHER: u64 = 2654435769;

// One type more: one half takes it, the other a number, and their product is the next hash.
fn mix(h: u64, t: u8) -> u64
    ensures { result ≡ mixed h t }
{
    let a = (h % HALF + (t as u64) * SPREAD) % HALF;
    let b = (h / HALF + OTHER) % HALF;
    a * b + a + b
}

// The hash of a list's value types after a hash, and how many they are.
#[derive(Clone, Copy)]
pub struct HashedList {
    pub hash: u64,
    pub count: u32,
}

// The value types of a list, after a hash.
fn hash_list(s: &[u8], named: bool, l: List, start: u64) -> HashedList
    requires { Passable named s.now l.at l.count }
    ensures { result ≡ hashed_list start (types_of named s.now l) }
{
    let mut at = l.at;
    let mut left = l.count;
    let mut h = start;
    loop {
        match known_type(s, at, left, named) {
            Some((t, next)) => {
                h = mix(h, t);
                at = next;
                left -= 1;
            }
            None => {
                return HashedList {
                    hash: h,
                    count: l.count - left,
                };
            }
        }
    }
}

// The hash of a signature, of its value types alone; and how many parameters and results it has, which the walk over them tells.
#[derive(Clone, Copy)]
pub struct Hashed {
    pub hash: u64,
    pub params: u32,
    pub results: u32,
}

pub fn hash_of(s: &[u8], x: Signature) -> Hashed
    requires { ReadableSignature s.now x }
    ensures { result ≡ hashed (signature_of s.now x) }
{
    let p = hash_list(s, x.named, x.params, START);
    let q = hash_list(s, false, x.results, mix(p.hash, 0));
    Hashed {
        hash: q.hash,
        params: p.count,
        results: q.count,
    }
}

// Where the tree of a hash begins.
pub fn head_place(h: u64) -> usize
    ensures { result ≡ head_of h }
{
    area::HEADS + ((h / HALF % BUCKETS) as usize)
}

// The place of a type's branch, by the lowest of the bits.
pub fn branch_place(n: u32, bits: u64) -> usize
    ensures { result ≡ branch_of n bits }
{
    area::LINKS + 2 * (n as usize) + ((bits % 2) as usize)
}

// The link at a place: to a type whose branches, from `LINKS + 2 * link - 2` on, stand after it, whatever the word says.
pub fn link_at(work: &[u32], place: usize) -> u32
    requires { (place < HASHES) × (USES ≤ length work.now) }
    ensures { result ≡ link_at work.now place }
{
    let link = work[place];
    if 256 < link {
        return 0;
    }
    if place + 2 < area::LINKS + 2 * (link as usize) {
        return link;
    }
    0
}

// The two halves of a hash, a word each.
fn low_half(h: u64) -> u32
    ensures { result ≡ h % HALF }
{
    (h % HALF) as u32
}

fn high_half(h: u64) -> u32
    ensures { result ≡ h / HALF }
{
    (h / HALF) as u32
}

// Does a type have a hash?
pub fn has_hash(work: &[u32], n: u32, h: u64) -> bool
    requires { (n < 256) × (USES ≤ length work.now) }
    ensures { result ≡ hash_is work.now n h }
{
    let at = area::HASHES + 2 * (n as usize);
    if work[at] != low_half(h) {
        return false;
    }
    work[at + 1] == high_half(h)
}

// Two words are written.
fn put_words(work: &mut [u32], at: usize, a: u32, b: u32)
    requires { at + 1 < length work.old }
    ensures { work.new ≡ set (set work.old at a) (at + 1) b }
{
    work[at] = a;
    work[at + 1] = b;
}

// The hash of a type is written.
pub fn put_hash(work: &mut [u32], n: u32, h: u64)
    requires { (n < 256) × (USES ≤ length work.old) }
    ensures { work.new ≡ hash_words work.old n h }
{
    let low = low_half(h);
    let high = high_half(h);
    put_words(work, area::HASHES + 2 * (n as usize), low, high);
}

// Nothing is on a type's branches.
pub fn put_branches(work: &mut [u32], n: u32)
    requires { (n < 256) × (USES ≤ length work.old) }
    ensures { work.new ≡ bare_words work.old n }
{
    put_words(work, area::LINKS + 2 * (n as usize), 0, 0);
}

// The first place without a type on the way of a hash.
fn free_place(work: &[u32], h: u64) -> usize
    requires { USES ≤ length work.now }
    ensures { result ≡ free_place work.now h }
{
    let mut place = head_place(h);
    let mut bits = h;
    loop {
        let link = link_at(work, place);
        if link == 0 {
            return place;
        }
        place = branch_place(link - 1, bits);
        bits = bits / 2;
    }
}

// A type is put at the end of its hash's way.
pub fn put_link(work: &mut [u32], n: u32, h: u64)
    requires { (n < 256) × (USES ≤ length work.old) }
    ensures { work.new ≡ tree_words work.old n h }
{
    let place = free_place(work, h);
    work[place] = n + 1;
}

// No bucket has a type.
fn clear_heads(work: &mut [u32])
    requires { USES ≤ length work.old }
    ensures { HeadsEmptied work.old work.new }
{
    let mut i = 0;
    while i < 256 {
        work[area::HEADS + i] = 0;
        i += 1;
    }
}

// No type: no section is written of none.
pub fn clear_index(work: &mut [u32])
    requires { USES ≤ length work.old }
    ensures { Emptied work.old work.new }
{
    clear_heads(work);
    work[area::SIZE] = 0;
}
