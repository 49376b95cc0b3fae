// Any call, decided on the rings of a bank (`dispatch`): a word is looked up where a call asks for it, and only there.
#![tactic(auto)]

ghost use Rattle.std.specs.Prelude.{◌≡◌, List, ℕ, length, get_or};
ghost use Rattle.queues.specs.Each.{of};
ghost use Rattle.bank.specs.Queues.{queues_of};
ghost use Rattle.bank.specs.Ready.{Ready};
ghost use Rattle.model.specs.Rings.{areas, words_in};
ghost use Rattle.model.specs.Bursts.{decide};
ghost use Rattle.answer.specs.Given.{view, Open};
ghost use Rattle.tables.specs.Shown.{tables_seen};
ghost use Rattle.effect.specs.Effects.{effect_of, verdict};
ghost use Rattle.rings.specs.Fronts.{fronts};

use bank::{Counts, Heads, State};
use dispatch::Words;
use effect::Effect;
use model::Call;
use queues::Queue;
use tables::Tables;

// The rings of a bank in the store that is lent.
#[derive(Clone, Copy)]
struct Lent<'a> {
    caps: Counts,
    levels: Counts,
    heads: Heads,
    store: &'a [u32],
    ghost ready: { Ready (queues_of caps levels heads) store.now },
}

impl Lent<'_> {
    // The word of a queue that lies `i` behind its first, or 0 where there is none.
    fn word(&self, q: Queue, i: u32) -> u32
        ensures { result ≡ get_or (words_in (of q (areas (queues_of self.now.caps self.now.levels self.now.heads))) self.now.store.now) i 0 }
    {
        rings::word(q, self.caps, self.levels, self.heads, self.store, i)
    }
}

impl Words for Lent<'_> {
    ghost show = { λ w f. f ≡ fronts (queues_of w.caps w.levels w.heads) w.store.now };

    fn first(&self, q: Queue) -> u32 {
        self.word(q, 0)
    }

    fn second(&self) -> u32 {
        self.word(Queue::Cmd, 1)
    }
}

// Any call.
pub fn decide(st: State, h: Heads, t: Tables, store: &[u32], len: usize, call: Call) -> Effect
    requires { Open st h t.commands.now store.now }
    ensures { (o : List ℕ) → length o ≡ len → (let s = tables_seen t.entry o in effect_of result s ≡ verdict (λ v. decide v call) (view st h s store.now)) }
{
    let words = Lent {
        caps: st.caps,
        levels: st.levels,
        heads: h,
        store,
    };
    dispatch::decide(st, &words, t, len, call)
}
