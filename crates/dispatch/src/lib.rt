// Any call, decided on the state, the tables and the first words of the queues, on any engine: which decision is asked,
// call by call. Where a word lies is the engine's (`Words`). It writes nothing, and knows no rule of its own.
#![tactic(auto)]

ghost use Rattle.std.specs.Prelude.{◌≡◌, true, false, not, ◌&&◌, List, ℕ, ◌≤◌, length};
ghost use Rattle.queues.specs.Each.{of};
ghost use Rattle.bank.specs.Bursts.{bursting};
ghost use Rattle.bank.specs.Formed.{open_ok};
ghost use Rattle.model.specs.declared.Call.TheVariants.{Read};
ghost use Rattle.model.specs.View.{tables};
ghost use Rattle.model.specs.Laws.{is_access};
ghost use Rattle.model.specs.Registers.{row};
ghost use Rattle.model.specs.Calls.{start, interrupt};
ghost use Rattle.model.specs.Bursts.{misfit, decide};
ghost use Rattle.tables.specs.Shown.{tables_seen};
ghost use Rattle.effect.specs.Effects.{effect_of, verdict};
ghost use Rattle.effect.specs.Seen.{Fronts, seen, taken_by};

use bank::State;
use effect::Effect;
use model::Call;
use number::Refusal;
use queues::Queue;
use registers::Register;
use tables::Tables;

// The words that calls look at, as an engine has them: looked up before, or where a call asks.
pub trait Words {
    // That they are the first words of these queues.
    ghost show: { Self → Fronts → Type 0 };

    // The first word of a queue, 0 where it has none.
    fn first(&self, q: Queue) -> u32
        ensures { (f : Fronts) → show self.now f → result ≡ (of q f).first };

    // The second word of CMD, since a CCC has two, 0 where it has none.
    fn second(&self) -> u32
        ensures { (f : Fronts) → show self.now f → result ≡ f.cmd.second };
}

// Any call: 18 first (`answer.range`), tested here, once; an event in an open burst is the burst's (`burst.events`), and
// goes a way of its own, so that the code of the others need not hold where a burst stands.
pub fn decide<W: Words>(st: State, words: &W, t: Tables, len: usize, call: Call) -> Effect
    requires { open_ok st.control st.regs st.phase t.commands.now ≡ true }
    ensures { (o : List ℕ) (f : Fronts) → W.show words.now f → length o ≡ len → (let s = tables_seen t.entry o in effect_of result s ≡ verdict (λ v. decide v call) (seen st s f)) }
{
    if calls::is_misfit(call) {
        return effect::refused(st, Refusal::OutOfRange);
    }
    if burst_commands::is_bursting(st.control) & calls::is_event(call) {
        return offload::event(st, t, len, call);
    }
    outside_burst(st, words, t, len, call)
}

// A call outside a burst: an access, or an event while no burst is open. Each decision stands in a crate of its own name.
fn outside_burst<W: Words>(st: State, words: &W, t: Tables, len: usize, call: Call) -> Effect
    requires { (open_ok st.control st.regs st.phase t.commands.now ≡ true) × (misfit call ≡ false) × ((bursting st.control && not (is_access call)) ≡ false) }
    ensures { (o : List ℕ) (f : Fronts) → W.show words.now f → length o ≡ len → (let s = tables_seen t.entry o in effect_of result s ≡ verdict (λ v. decide v call) (seen st s f)) }
{
    match call {
        // `map.reads`, `take.read`
        Call::Read(offset) => read_at(st, words, t, offset),
        // `access.order`, `map.bits`
        Call::Write(offset, v) => write::write(registers::register_at(offset), st, v),
        // `start.tests`, `start.opens`
        Call::Start => start(st, words.first(Queue::Cmd), words.second(), t.flags),
        // `send.tests`, `send.byte`
        Call::Send => payload::send(st, words.first(Queue::Sdo)),
        // `receive.tests`, `receive.byte`
        Call::Receive(byte) => payload::receive(st, byte),
        // `finish.tests`, `finish.receipt`, `finish.removal`
        Call::Finish(code) => finish::finish(st, code),
        // `interrupt.tests`, `interrupt.entry`
        Call::Interrupt(address, byte) => interrupt(st, t.flags, address, byte),
        // `request.tests`, `request.opens`
        Call::Request(v, w) => addresses::request(st, v, w),
        // `take.tests`, `take.address`
        Call::Take => addresses::take_address(st, words.first(Queue::Sdo)),
        // `trigger.tests`, `trigger.opens`
        Call::Trigger => trigger::trigger(st, t.flags, t.commands, len),
    }
}

// A read: the register at the offset (`map.offsets`) shows what it has, or gives the word that it takes.
fn read_at<W: Words>(st: State, words: &W, t: Tables, offset: u16) -> Effect
    ensures { (o : List ℕ) (f : Fronts) → W.show words.now f → (let s = tables_seen t.entry o in effect_of result s ≡ verdict (λ v. decide v (Read offset)) (seen st s f)) }
{
    let r = registers::register_at(offset);
    let w = taken_word(r, words);
    read::read(r, st, w, t)
}

// The word that a read of a register takes (`take.read`), 0 where it takes none.
fn taken_word<W: Words>(r: Register, words: &W) -> u32
    ensures { (f : Fronts) → W.show words.now f → result ≡ taken_by (row r) f }
{
    match r {
        Register::CmdrFifo => words.first(Queue::Cmdr),
        Register::SdiFifo => words.first(Queue::Sdi),
        Register::IbiFifo => words.first(Queue::Ibi),
        _ => 0,
    }
}

// A start: `w` and `x` are the first words of CMD; bits 7:1 of a command name its device (`command.word`).
fn start(st: State, w: u32, x: u32, flags: &[u8; 128]) -> Effect
    ensures { (c p o : List ℕ) (f : Fronts) → w ≡ f.cmd.first → x ≡ f.cmd.second → (let t = tables flags.now c p o in effect_of result t ≡ verdict start (seen st t f)) }
{
    let at = (w / 2 % 0x80) as usize;
    start::start(st, w, x, flags[at])
}

// An interrupt request, with the flags of its device (`device.flags`).
fn interrupt(st: State, flags: &[u8; 128], address: u8, byte: u8) -> Effect
    requires { address ≤ 127 }
    ensures { (c p o : List ℕ) (f : Fronts) → (let t = tables flags.now c p o in effect_of result t ≡ verdict (λ v. interrupt v address byte) (seen st t f)) }
{
    interrupt::interrupt(st, flags[address as usize], address, byte)
}
