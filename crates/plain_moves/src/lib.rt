// What the operations of an effect do to the words of the five queues (`plain.push`, `plain.take`, `plain.clear`), once
// for every call. It knows no call.
#![tactic(auto)]

ghost use Rattle.std.specs.Prelude.{◌≡◌, ◌+◌, ◌≤◌, length};
ghost use Rattle.model.specs.Decision.{take, push, push2};
ghost use Rattle.effect.specs.Ops.{op_of, five_of, ops_of};
ghost use Rattle.plain_model.specs.Areas.{plain_areas};
ghost use Rattle.plain_model.specs.Moves.{on_level, on_plain_store, on_levels, on_plain_stores};
ghost use Rattle.plain_model.specs.FitsArea.{FitsArea, AllFitAreas};

use bank::Counts;
use effect::{Op, Ops};
use plain_model::PlainArea;
use queues::Five;
use ring::Words;

// The operations on all five queues: the levels after them. Where there are none nothing moves: a word written to a full
// queue is dropped so.
#[tactic(auto, unfolding(plain_model::specs::Moves::on_plain_store))]
pub fn move_all(o: Ops, caps: Counts, levels: Counts, store: &mut [u32]) -> Counts
    requires { AllFitAreas (ops_of o) caps levels store.old }
    ensures { (result ≡ on_levels (ops_of o) levels) × (store.new ≡ on_plain_stores (ops_of o) (plain_areas caps levels) store.old) }
{
    match o {
        Some(each) => move_each(each, caps, levels, store),
        None => levels,
    }
}

fn move_each(o: Five<Op>, caps: Counts, levels: Counts, store: &mut [u32]) -> Counts
    requires { AllFitAreas (five_of o) caps levels store.old }
    ensures { (result ≡ on_levels (five_of o) levels) × (store.new ≡ on_plain_stores (five_of o) (plain_areas caps levels) store.old) }
{
    let a = plain_words::areas(caps, levels);
    let cmd = apply(o.cmd, a.cmd, store);
    let cmdr = apply(o.cmdr, a.cmdr, store);
    let sdo = apply(o.sdo, a.sdo, store);
    let sdi = apply(o.sdi, a.sdi, store);
    let ibi = apply(o.ibi, a.ibi, store);
    Five {
        cmd: Words(cmd),
        cmdr: Words(cmdr),
        sdo: Words(sdo),
        sdi: Words(sdi),
        ibi: Words(ibi),
    }
}

// One operation on one queue: the level after it. A clear writes no word (`plain.clear`).
#[tactic(auto, unfolding(plain_model::specs::Moves::on_plain_store))]
fn apply(o: Op, a: PlainArea, store: &mut [u32]) -> u32
    requires { (FitsArea (op_of o) a) × (a.base + a.cap ≤ length store.old) }
    ensures { (result ≡ on_level (op_of o) a.level) × (store.new ≡ on_plain_store (op_of o) a store.old) × (length store.new ≡ length store.old) }
{
    match o {
        Op::Keep => a.level,
        Op::Clear => 0,
        Op::Take(k) => take(store, a, k),
        Op::Push(w) => push(store, a, w),
        Op::Push2(v, w) => push_two(store, a, v, w),
    }
}

// A word goes behind the last one (`plain.push`).
#[tactic(auto, unfolding(plain_model::specs::Moves::on_plain_store))]
fn push(store: &mut [u32], a: PlainArea, w: u32) -> u32
    requires { (FitsArea (push w) a) × (a.base + a.cap ≤ length store.old) }
    ensures { (result ≡ on_level (push w) a.level) × (store.new ≡ on_plain_store (push w) a store.old) }
{
    store[a.base + a.level as usize] = w;
    a.level + 1
}

// Two words go behind the last one, the first before the second.
#[tactic(auto, unfolding(plain_model::specs::Moves::on_plain_store))]
fn push_two(store: &mut [u32], a: PlainArea, v: u32, w: u32) -> u32
    requires { (FitsArea (push2 v w) a) × (a.base + a.cap ≤ length store.old) }
    ensures { (result ≡ on_level (push2 v w) a.level) × (store.new ≡ on_plain_store (push2 v w) a store.old) }
{
    store[a.base + a.level as usize] = v;
    store[a.base + (a.level + 1) as usize] = w;
    a.level + 2
}

// The first `k` words leave a queue, and the rest moves to the front of its area (`plain.take`).
#[tactic(auto, unfolding(plain_model::specs::Moves::on_plain_store))]
fn take(store: &mut [u32], a: PlainArea, k: u32) -> u32
    requires { (FitsArea (take k) a) × (a.base + a.cap ≤ length store.old) }
    ensures { (result ≡ on_level (take k) a.level) × (store.new ≡ on_plain_store (take k) a store.old) }
{
    let left = a.level - k;
    let from = a.base + k as usize;
    store.copy_within(from..from + left as usize, a.base);
    left
}
