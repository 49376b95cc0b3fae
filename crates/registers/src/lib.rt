// The register map (`map.offsets`): which register stands at an offset. Reads and writes share it; it knows nothing of
// what a register does.
#![tactic(auto)]

ghost use Rattle.std.specs.Prelude.{◌≡◌};
ghost use Rattle.registers.specs.Map.{register_at};

// The registers, by 001's names. An offload register has its place in its memory, 0 to 15; a watermark the number of its
// queue, 0 to 4 (`watermark.keeps`).
#[derive(Clone, Copy)]
pub enum Register {
    Version,
    Id,
    Scratch,
    Enable,
    IrqMask,
    IrqPending,
    IrqSource,
    CmdRoom,
    CmdrLevel,
    SdoRoom,
    SdiLevel,
    IbiLevel,
    CmdFifo,
    CmdrFifo,
    SdoFifo,
    SdiFifo,
    IbiFifo,
    FifoStatus,
    Ops,
    IbiConfig,
    DevChar,
    Watermark(u32),
    OffloadCmd(u32),
    OffloadSdo(u32),
    // Any other offset.
    Unmapped,
}

// The register at an offset.
#[tactic(auto, unfolding(crate::specs::Map::named, crate::specs::Map::entry_at, crate::specs::Map::offload))]
pub fn register_at(offset: u16) -> Register
    ensures { result ≡ register_at offset }
{
    match offset {
        0x000 => Register::Version,
        0x004 => Register::Id,
        0x008 => Register::Scratch,
        0x040 => Register::Enable,
        0x080 => Register::IrqMask,
        0x084 => Register::IrqPending,
        0x088 => Register::IrqSource,
        0x0c0 => Register::CmdRoom,
        0x0c4 => Register::CmdrLevel,
        0x0c8 => Register::SdoRoom,
        0x0cc => Register::SdiLevel,
        0x0d0 => Register::IbiLevel,
        0x0d4 => Register::CmdFifo,
        0x0d8 => Register::CmdrFifo,
        0x0dc => Register::SdoFifo,
        0x0e0 => Register::SdiFifo,
        0x0e4 => Register::IbiFifo,
        0x0e8 => Register::FifoStatus,
        0x100 => Register::Ops,
        0x140 => Register::IbiConfig,
        0x180 => Register::DevChar,
        0x200 => Register::Watermark(0),
        0x204 => Register::Watermark(1),
        0x208 => Register::Watermark(2),
        0x20c => Register::Watermark(3),
        0x210 => Register::Watermark(4),
        0x2c0..=0x2fc => {
            if offset % 4 == 0 {
                Register::OffloadCmd(u32::from((offset - 0x2c0) / 4))
            } else {
                Register::Unmapped
            }
        }
        0x300..=0x33c => {
            if offset % 4 == 0 {
                Register::OffloadSdo(u32::from((offset - 0x300) / 4))
            } else {
                Register::Unmapped
            }
        }
        _ => Register::Unmapped,
    }
}
