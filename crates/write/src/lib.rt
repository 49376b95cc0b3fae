// Register writes, as decisions: which register goes to which write of `write_cells` and `write_control`, and which are
// refused.
#![tactic(auto)]

ghost use Rattle.std.specs.Prelude.{◌≡◌};
ghost use Rattle.model.specs.View.{Tables};
ghost use Rattle.model.specs.Registers.{row, write};
ghost use Rattle.effect.specs.Effects.{effect_of, verdict};
ghost use Rattle.effect.specs.Seen.{Fronts, seen};

use bank::State;
use effect::{Effect, refused};
use number::Refusal;
use registers::Register;

// A write to a register: 4 where there is none (`map.offsets`), 2 where it is read-only (`map.read-only`).
pub fn write(r: Register, st: State, x: u32) -> Effect
    ensures { (t : Tables) (f : Fronts) → effect_of result t ≡ verdict (λ v. write (row r) v x) (seen st t f) }
{
    match r {
        Register::Version => refused(st, Refusal::DroppedReadOnly),
        Register::Id => refused(st, Refusal::DroppedReadOnly),
        Register::Scratch => write_cells::write_scratch(st, x),
        Register::Enable => write_control::write_enable(st, x),
        Register::IrqMask => write_cells::write_mask(st, x),
        Register::IrqPending => write_control::write_pending(st, x),
        Register::IrqSource => refused(st, Refusal::DroppedReadOnly),
        Register::CmdRoom => refused(st, Refusal::DroppedReadOnly),
        Register::CmdrLevel => refused(st, Refusal::DroppedReadOnly),
        Register::SdoRoom => refused(st, Refusal::DroppedReadOnly),
        Register::SdiLevel => refused(st, Refusal::DroppedReadOnly),
        Register::IbiLevel => refused(st, Refusal::DroppedReadOnly),
        Register::CmdFifo => write_control::write_cmd(st, x),
        Register::CmdrFifo => refused(st, Refusal::DroppedReadOnly),
        Register::SdoFifo => write_control::write_sdo(st, x),
        Register::SdiFifo => refused(st, Refusal::DroppedReadOnly),
        Register::IbiFifo => refused(st, Refusal::DroppedReadOnly),
        Register::FifoStatus => refused(st, Refusal::DroppedReadOnly),
        Register::Ops => write_cells::write_ops(st, x),
        Register::IbiConfig => write_cells::write_config(st, x),
        Register::DevChar => write_cells::write_device(st, x),
        Register::Watermark(i) => watermarks::write_watermark(st, i, x),
        Register::OffloadCmd(i) => write_cells::write_offload_cmd(st, i, x),
        Register::OffloadSdo(i) => write_cells::write_offload_sdo(st, i, x),
        Register::Unmapped => refused(st, Refusal::NoRegister),
    }
}
