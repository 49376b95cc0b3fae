// Register reads, as decisions: which register goes to which row of `read_rows`. `word` is the first of the queue that
// the register takes from: see `taken_by`.
#![tactic(auto)]

ghost use Rattle.std.specs.Prelude.{◌≡◌, List, ℕ};
ghost use Rattle.model.specs.Registers.{row, read};
ghost use Rattle.tables.specs.Shown.{tables_seen};
ghost use Rattle.effect.specs.Effects.{effect_of, verdict};
ghost use Rattle.effect.specs.Seen.{Fronts, seen, taken_by};

use bank::State;
use effect::Effect;
use number::Refusal;
use queues::Queue;
use read_rows::show;
use registers::Register;
use tables::Tables;

// A read of a register: 4 where there is none (`map.offsets`); one that is only written gives 0 (`map.write-only`).
pub fn read(r: Register, st: State, word: u32, t: Tables) -> Effect
    ensures { (o : List ℕ) (f : Fronts) → word ≡ taken_by (row r) f → (let v = tables_seen t.entry o in effect_of result v ≡ verdict (read (row r)) (seen st v f)) }
{
    let p = st.phase;
    let Tables {
        flags,
        commands,
        payloads,
    } = t;
    let k = st.caps;
    let l = st.levels;
    let g = st.regs;
    match r {
        Register::Version => show(st, 0x00000100),
        Register::Id => show(st, u32::from(g.id)),
        Register::Scratch => show(st, g.scratch),
        Register::Enable => show(st, shown::word_if(st.control.held, 1)),
        Register::IrqMask => show(st, u32::from(g.mask)),
        Register::IrqPending => show(st, shown::sources_in(st, g.mask)),
        Register::IrqSource => show(st, shown::sources_in(st, 0xff)),
        Register::CmdRoom => show(st, bank::room(k.cmd.0, l.cmd.0)),
        Register::CmdrLevel => show(st, l.cmdr.0),
        Register::SdoRoom => show(st, bank::room(k.sdo.0, l.sdo.0)),
        Register::SdiLevel => show(st, l.sdi.0),
        Register::IbiLevel => show(st, l.ibi.0),
        Register::CmdFifo => show(st, 0),
        Register::CmdrFifo => read_rows::take(Queue::Cmdr, st, word),
        Register::SdoFifo => show(st, 0),
        Register::SdiFifo => read_rows::take(Queue::Sdi, st, word),
        Register::IbiFifo => read_rows::take(Queue::Ibi, st, word),
        Register::FifoStatus => show(st, shown::status_word(l.cmdr.0, l.ibi.0, l.sdi.0)),
        Register::Ops => show(st, shown::ops_word(phases::is_idle(p), g.ops)),
        Register::IbiConfig => show(st, 0),
        Register::DevChar => show(
            st,
            shown::device_word(g.selected, bank::entry_at(flags, g.selected as usize, 0)),
        ),
        Register::Watermark(i) => show(st, watermarks::count_at(g.marks, i)),
        Register::OffloadCmd(i) => show(st, bank::entry_at(commands, i as usize, 0)),
        Register::OffloadSdo(i) => show(st, bank::entry_at(payloads, i as usize, 0)),
        Register::Unmapped => effect::refused(st, Refusal::NoRegister),
    }
}
