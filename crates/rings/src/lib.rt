// What the rings of a bank show: where the area of each queue begins in the lent store (`store.order`), and the first
// words of the queues. It knows no call.
#![tactic(auto)]

ghost use Rattle.std.specs.Prelude.{◌≡◌, ◌+◌, get_or};
ghost use Rattle.queues.specs.Each.{of};
ghost use Rattle.bank.specs.Queues.{queues_of};
ghost use Rattle.bank.specs.Ready.{Ready};
ghost use Rattle.model.specs.Rings.{areas, words_in};
ghost use Rattle.rings.specs.Fronts.{base_of};

use bank::{Counts, Heads};
use queues::Queue;
use ring::{Ring, Words};

// The ring of a queue.
#[tactic(auto, using(crate::proofs::Laws::ring_named))]
pub fn ring(q: Queue, k: Counts, l: Counts, h: Heads) -> Ring
    ensures { result ≡ of q (queues_of k l h) }
{
    Ring {
        cap: Words(k.of(q).0),
        head: h.of(q),
        level: Words(l.of(q).0),
    }
}

// Where the area of a queue begins in the store (`store.order`).
pub fn base(q: Queue, k: Counts) -> usize
    ensures { result ≡ base_of q k }
{
    let cmd = k.cmd.0 as usize;
    let cmdr = k.cmdr.0 as usize;
    let sdo = k.sdo.0 as usize;
    let sdi = k.sdi.0 as usize;
    match q {
        Queue::Cmd => 0,
        Queue::Cmdr => cmd,
        Queue::Sdo => cmd + cmdr,
        Queue::Sdi => cmd + cmdr + sdo,
        Queue::Ibi => cmd + cmdr + sdo + sdi,
    }
}

// The word of a queue that lies `i` behind its first, or 0 where there is none.
#[tactic(auto, using(crate::proofs::Laws::words_named, crate::proofs::Laws::stands_named))]
pub fn word(q: Queue, k: Counts, l: Counts, h: Heads, store: &[u32], i: u32) -> u32
    requires { Ready (queues_of k l h) store.now }
    ensures { result ≡ get_or (words_in (of q (areas (queues_of k l h))) store.now) i 0 }
{
    ring::look(ring(q, k, l, h), base(q, k), store, i)
}
