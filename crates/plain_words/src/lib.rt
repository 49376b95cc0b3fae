// Where words lie (`plain.areas`): the area of each queue in the lent store, and the words that calls look at. It knows
// no call.
#![tactic(auto)]

ghost use Rattle.std.specs.Prelude.{◌≡◌, ◌+◌, ◌≤◌, length, get_or};
ghost use Rattle.queues.specs.Each.{each};
ghost use Rattle.model.specs.Decision.{keep_all};
ghost use Rattle.plain_model.specs.Areas.{plain_area, plain_areas, plain_words};
ghost use Rattle.plain_model.specs.FitsArea.{AllFitAreas};
ghost use Rattle.plain_words.specs.Fronts.{firsts_of, plain_fronts};

use bank::Counts;
use dispatch::Words;
use plain_model::PlainArea;
use queues::{Five, Queue};

// Where the areas begin in the store: each where the one before it ends (`store.order`). The capacities are given one
// by one: a proof about a sum need not look into a state.
fn in_a_row(cmd: u32, cmdr: u32, sdo: u32, sdi: u32) -> Five<usize>
    ensures { result ≡ each 0 cmd (cmd + cmdr) (cmd + cmdr + sdo) (cmd + cmdr + sdo + sdi) }
{
    let cmdr_base = cmd as usize;
    let sdo_base = cmdr_base + cmdr as usize;
    let sdi_base = sdo_base + sdo as usize;
    let ibi_base = sdi_base + sdi as usize;
    Five {
        cmd: 0,
        cmdr: cmdr_base,
        sdo: sdo_base,
        sdi: sdi_base,
        ibi: ibi_base,
    }
}

fn area(base: usize, cap: ring::Words, level: ring::Words) -> PlainArea
    ensures { result ≡ plain_area base cap level }
{
    PlainArea {
        base,
        cap: cap.0,
        level: level.0,
    }
}

// The five queues in their areas, by capacities and levels.
pub fn areas(caps: Counts, levels: Counts) -> Five<PlainArea>
    ensures { result ≡ plain_areas caps levels }
{
    let at = in_a_row(caps.cmd.0, caps.cmdr.0, caps.sdo.0, caps.sdi.0);
    Five {
        cmd: area(at.cmd, caps.cmd, levels.cmd),
        cmdr: area(at.cmdr, caps.cmdr, levels.cmdr),
        sdo: area(at.sdo, caps.sdo, levels.sdo),
        sdi: area(at.sdi, caps.sdi, levels.sdi),
        ibi: area(at.ibi, caps.ibi, levels.ibi),
    }
}

// The word that lies `i` behind the first of a queue, or 0 where the queue has none there.
fn word(store: &[u32], a: PlainArea, i: u32) -> u32
    requires { a.base + a.level ≤ length store.now }
    ensures { result ≡ get_or (plain_words a store.now) i 0 }
{
    if i < a.level {
        return store[a.base + i as usize];
    }
    0
}

// The words that calls look at: the first of each queue and, since a CCC has two words, the second of CMD; 0 where there
// is none.
#[derive(Clone, Copy)]
pub struct FirstWords {
    pub cmd: u32,
    pub second: u32,
    pub cmdr: u32,
    pub sdo: u32,
    pub sdi: u32,
    pub ibi: u32,
}

// A decision is told them by the queue's name.
impl Words for FirstWords {
    ghost show = { λ w f. w ≡ firsts_of f };

    fn first(&self, q: Queue) -> u32 {
        match q {
            Queue::Cmd => self.cmd,
            Queue::Cmdr => self.cmdr,
            Queue::Sdo => self.sdo,
            Queue::Sdi => self.sdi,
            Queue::Ibi => self.ibi,
        }
    }

    fn second(&self) -> u32 {
        self.second
    }
}

// All of them looked up, before a call is decided.
pub fn look(caps: Counts, levels: Counts, store: &[u32]) -> FirstWords
    requires { AllFitAreas keep_all caps levels store.now }
    ensures { result ≡ firsts_of (plain_fronts caps levels store.now) }
{
    let a = areas(caps, levels);
    FirstWords {
        cmd: word(store, a.cmd, 0),
        second: word(store, a.cmd, 1),
        cmdr: word(store, a.cmdr, 0),
        sdo: word(store, a.sdo, 0),
        sdi: word(store, a.sdi, 0),
        ibi: word(store, a.ibi, 0),
    }
}
