// What the operations of an effect do to the five rings of a lent store (`ring.push`, `ring.take`, `ring.clear`), once
// for every call.
#![tactic(auto)]

ghost use Rattle.std.specs.Prelude.{◌≡◌, ◌+◌, ◌≤◌, length};
ghost use Rattle.ring.specs.Ring.{Valid};
ghost use Rattle.bank.specs.Queues.{queues_of};
ghost use Rattle.bank.specs.Ready.{Ready};
ghost use Rattle.model.specs.Decision.{push2};
ghost use Rattle.model.specs.Rings.{area, areas, on_ring, on_store, on_rings, on_stores, view_queues};
ghost use Rattle.model.specs.Fits.{Fits, AllFit};
ghost use Rattle.effect.specs.Ops.{op_of, five_of, ops_of};
ghost use Rattle.ring_moves.specs.Moved.{moved_to};

use bank::{Counts, Heads};
use effect::{Op, Ops};
use queues::{Five, Queue};
use ring::{Ring, Words};

// Levels and heads after the operations on all five queues.
#[derive(Clone, Copy)]
pub struct Moved {
    pub levels: Counts,
    pub heads: Heads,
}

// Two words pushed, one behind the other.
#[tactic(auto, unfolding(model::specs::Rings::on_ring, model::specs::Rings::on_store))]
fn push_two(r: Ring, base: usize, store: &mut [u32], v: u32, w: u32) -> Ring
    requires { (Valid r) × (r.level.0 + 2 ≤ r.cap.0) × (base + r.cap.0 ≤ length store.old) }
    ensures { (result ≡ on_ring (push2 v w) r) × (store.new ≡ on_store (push2 v w) (area r base) store.old) }
{
    let one = ring::push(r, base, store, v);
    ring::push(one, base, store, w)
}

// One operation on one queue, whose area begins at `base`.
#[tactic(auto, unfolding(model::specs::Rings::on_ring, model::specs::Rings::on_store))]
fn apply(o: Op, r: Ring, base: usize, store: &mut [u32]) -> Ring
    requires { (Valid r) × (Fits (op_of o) r.cap.0 r.level.0) × (base + r.cap.0 ≤ length store.old) }
    ensures { (result ≡ on_ring (op_of o) r) × (store.new ≡ on_store (op_of o) (area r base) store.old) × (length store.new ≡ length store.old) }
{
    match o {
        Op::Keep => ring::moved(r, r.head, r.level.0),
        Op::Clear => ring::clear(r),
        Op::Take(k) => ring::take(r, Words(k)),
        Op::Push(w) => ring::push(r, base, store, w),
        Op::Push2(v, w) => push_two(r, base, store, v, w),
    }
}

// Levels and heads out of five rings.
fn gather(rings: Five<Ring>) -> Moved
    ensures { result ≡ moved_to rings }
{
    let levels = Five {
        cmd: Words(rings.cmd.level.0),
        cmdr: Words(rings.cmdr.level.0),
        sdo: Words(rings.sdo.level.0),
        sdi: Words(rings.sdi.level.0),
        ibi: Words(rings.ibi.level.0),
    };
    let heads = Five {
        cmd: rings.cmd.head,
        cmdr: rings.cmdr.head,
        sdo: rings.sdo.head,
        sdi: rings.sdi.head,
        ibi: rings.ibi.head,
    };
    Moved { levels, heads }
}

// The operations on all five queues.
fn move_all(o: Five<Op>, k: Counts, l: Counts, h: Heads, store: &mut [u32]) -> Moved
    requires { (Ready (queues_of k l h) store.old) × (AllFit (five_of o) (view_queues (queues_of k l h) store.old)) }
    ensures { (result ≡ moved_to (on_rings (five_of o) (queues_of k l h))) × (store.new ≡ on_stores (five_of o) (areas (queues_of k l h)) store.old) }
{
    let cmd = apply(
        o.cmd,
        rings::ring(Queue::Cmd, k, l, h),
        rings::base(Queue::Cmd, k),
        store,
    );
    let cmdr = apply(
        o.cmdr,
        rings::ring(Queue::Cmdr, k, l, h),
        rings::base(Queue::Cmdr, k),
        store,
    );
    let sdo = apply(
        o.sdo,
        rings::ring(Queue::Sdo, k, l, h),
        rings::base(Queue::Sdo, k),
        store,
    );
    let sdi = apply(
        o.sdi,
        rings::ring(Queue::Sdi, k, l, h),
        rings::base(Queue::Sdi, k),
        store,
    );
    let ibi = apply(
        o.ibi,
        rings::ring(Queue::Ibi, k, l, h),
        rings::base(Queue::Ibi, k),
        store,
    );
    gather(Five {
        cmd,
        cmdr,
        sdo,
        sdi,
        ibi,
    })
}

// The operations on all five queues, where there are any; else nothing moves.
#[tactic(auto, unfolding(model::specs::Rings::on_ring, model::specs::Rings::on_store))]
pub fn move_any(o: Ops, k: Counts, l: Counts, h: Heads, store: &mut [u32]) -> Moved
    requires { (Ready (queues_of k l h) store.old) × (AllFit (ops_of o) (view_queues (queues_of k l h) store.old)) }
    ensures { (result ≡ moved_to (on_rings (ops_of o) (queues_of k l h))) × (store.new ≡ on_stores (ops_of o) (areas (queues_of k l h)) store.old) }
{
    match o {
        Some(each) => move_all(each, k, l, h, store),
        None => Moved {
            levels: l.by_field(),
            heads: h.by_field(),
        },
    }
}
