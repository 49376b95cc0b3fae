// Counts of bytes and of words, and a ring of 32-bit words in an area of a lent store, for any capacity from 1 on. It
// knows places and a store, and not what a queue is for. A layer: the calls above it test what it asks of its caller.
#![tactic(auto)]

ghost use Rattle.std.specs.Prelude.{◌≡◌, ◌+◌, ◌<◌, ◌≤◌, length, get_or, set};
ghost use Rattle.ring.specs.Units.{words_for};
ghost use Rattle.ring.specs.Ring.{Valid, place_of, pushed_of, taken_of, cleared_of, entries};

// A number of payload bytes (`units.apart`).
#[derive(Clone, Copy)]
pub struct Bytes(pub u32);

// A number of words in a queue (`units.apart`).
#[derive(Clone, Copy, PartialEq, Eq)]
pub struct Words(pub u32);

// The words that hold `b` bytes.
pub fn words_for(b: Bytes) -> Words
    ensures { result ≡ words_for b }
{
    Words(b.0 / 4 + (b.0 % 4 + 3) / 4)
}

// A queue: its capacity, the place of its first entry within its area, and how many entries it has.
#[derive(Clone, Copy)]
pub struct Ring {
    pub cap: Words,
    pub head: u32,
    pub level: Words,
}

// The place `i` behind the head, without a division. `i` is compared with what is left before the end of the area: the
// sum could leave its type.
pub fn place(r: Ring, i: u32) -> u32
    requires { (Valid r) × (i ≤ r.cap.0) }
    ensures { (result ≡ place_of r i) × (result < r.cap.0) }
{
    let left = r.cap.0 - r.head;
    if i < left { r.head + i } else { i - left }
}

// A ring with another head and another level, put together field by field: fields that are copied in one piece stay in
// memory through a list of calls, stored one by one and loaded together, which stalls.
pub fn moved(r: Ring, head: u32, level: u32) -> Ring
    ensures { result ≡ record { cap = r.cap; head = head; level = record { 0 = level } } }
{
    Ring {
        cap: Words(r.cap.0),
        head: head,
        level: Words(level),
    }
}

// The ring with one entry more, behind the last (`ring.push`).
pub fn push(r: Ring, base: usize, store: &mut [u32], w: u32) -> Ring
    requires { (Valid r) × (r.level.0 < r.cap.0) × (base + r.cap.0 ≤ length store.old) }
    ensures { (result ≡ pushed_of r) × (store.new ≡ set store.old (base + place_of r r.level.0) w) }
{
    let at = base + place(r, r.level.0) as usize;
    store[at] = w;
    let level = r.level.0 + 1;
    moved(r, r.head, level)
}

// The entry that lies `i` after the first, or 0 where there are fewer.
pub fn look(r: Ring, base: usize, store: &[u32], i: u32) -> u32
    requires { (Valid r) × (base + r.cap.0 ≤ length store.now) }
    ensures { result ≡ get_or (entries r base store.now) i 0 }
{
    if i < r.level.0 {
        let at = base + place(r, i) as usize;
        store[at]
    } else {
        0
    }
}

// The ring without its first `n` entries (`ring.take`).
pub fn take(r: Ring, n: Words) -> Ring
    requires { (Valid r) × (n.0 ≤ r.level.0) }
    ensures { result ≡ taken_of r n.0 }
{
    let head = place(r, n.0);
    let level = r.level.0 - n.0;
    moved(r, head, level)
}

// The ring with no entry, its head at the first place (`ring.clear`).
pub fn clear(r: Ring) -> Ring
    ensures { result ≡ cleared_of r }
{
    moved(r, 0, 0)
}
