// What registers show, as words: sources, status, OPS, DEV_CHAR. Numbers and bits put together; no read by itself.
#![tactic(auto)]

ghost use Rattle.std.specs.Prelude.{◌≡◌, ◌&&◌, ◌+◌, ◌*◌, ◌^◌, ◌<◌, ◌≤◌, eqb, get_or};
ghost use Rattle.bank.specs.Bits.{bit, word_if};
ghost use Rattle.model.specs.View.{Tables};
ghost use Rattle.model.specs.Registers.{sources};
ghost use Rattle.effect.specs.Seen.{Fronts, seen};

use bank::State;

// A weight where a test holds, else 0.
pub fn word_if(test: bool, w: u32) -> u32
    ensures { (result ≡ word_if test w) × (result ≤ w) }
{
    if test { w } else { 0 }
}

// The source bits that the mask has. Over plain bools: a proof about the sum need not look into a state.
fn source_bits(m: u8, a: bool, b: bool, c: bool, d: bool, e: bool, f: bool, g: bool, h: bool) -> u32
    ensures { result ≡ word_if (a && bit 0 m) 1 + word_if (b && bit 1 m) 2 + word_if (c && bit 2 m) 4 + word_if (d && bit 3 m) 8 + word_if (e && bit 4 m) 0x10 + word_if (f && bit 5 m) 0x20 + word_if (g && bit 6 m) 0x40 + word_if (h && bit 7 m) 0x80 }
{
    let m = u32::from(m);
    word_if(a & bank::bit(0, m), 1)
        + word_if(b & bank::bit(1, m), 2)
        + word_if(c & bank::bit(2, m), 4)
        + word_if(d & bank::bit(3, m), 8)
        + word_if(e & bank::bit(4, m), 0x10)
        + word_if(f & bank::bit(5, m), 0x20)
        + word_if(g & bank::bit(6, m), 0x40)
        + word_if(h & bank::bit(7, m), 0x80)
}

// The interrupt sources that the mask has: all for IRQ_SOURCE (`source.read`), those of IRQ_MASK for IRQ_PENDING
// (`pending.read`). Bits 0 to 4 are `source.levels`.
pub fn sources_in(st: State, m: u8) -> u32
    ensures { (t : Tables) (f : Fronts) → result ≡ sources m (seen st t f) }
{
    let l = st.levels;
    let w = st.regs.marks;
    let c = st.control;
    source_bits(
        m,
        l.cmd.0 < w.cmd.0,
        w.cmdr.0 < l.cmdr.0,
        l.sdo.0 < w.sdo.0,
        w.sdi.0 < l.sdi.0,
        w.ibi.0 < l.ibi.0,
        c.cmdrpending,
        c.ibipending,
        c.daapending,
    )
}

// FIFO_STATUS, by the levels (`status.read`).
pub fn status_word(cmdr: u32, ibi: u32, sdi: u32) -> u32
    ensures { result ≡ word_if (eqb cmdr 0) 1 + word_if (eqb ibi 0) 2 + word_if (eqb sdi 0) 4 }
{
    word_if(cmdr == 0, 1) + word_if(ibi == 0, 2) + word_if(sdi == 0, 4)
}

// OPS, with its bit 7 (`ops.keeps`).
pub fn ops_word(idle: bool, ops: u8) -> u32
    ensures { result ≡ word_if idle 0x80 + ops }
{
    word_if(idle, 0x80) + u32::from(ops)
}

// DEV_CHAR: the selected address and its flags (`dev-char.read`).
pub fn device_word(selected: u8, f: u8) -> u32
    ensures { result ≡ selected * 2 ^ 9 + f * 2 }
{
    u32::from(selected) * 0x200 + u32::from(f) * 2
}
