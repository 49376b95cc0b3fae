// A state and its heads as the words of an image. A layer, no interface.
#![tactic(auto)]

ghost use Rattle.std.specs.Prelude.{◌≡◌};
ghost use Rattle.image_model.specs.Image.{image_of};

use bank::{Heads, State};
use image_model::Image;

// Written in the order of the definition's places.
pub fn encode(s: State, h: Heads, image: &mut Image)
    ensures { image.new ≡ image_of s h }
{
    let n = s.caps;
    let l = s.levels;
    let g = s.regs;
    let m = g.marks;
    let c = s.control;
    let w = c.latest;
    let p = s.phase;
    let t = phases::transfer_of(p);
    *image = [
        n.cmd.0,
        m.cmd.0,
        h.cmd,
        l.cmd.0,
        n.cmdr.0,
        m.cmdr.0,
        h.cmdr,
        l.cmdr.0,
        n.sdo.0,
        m.sdo.0,
        h.sdo,
        l.sdo.0,
        n.sdi.0,
        m.sdi.0,
        h.sdi,
        l.sdi.0,
        n.ibi.0,
        m.ibi.0,
        h.ibi,
        l.ibi.0,
        u32::from(g.id),
        g.scratch,
        u32::from(g.mask),
        u32::from(g.ops),
        u32::from(g.config),
        u32::from(g.selected),
        u32::from(c.held),
        u32::from(c.sync),
        u32::from(c.ibisync),
        u32::from(c.cmdrpending),
        u32::from(c.ibipending),
        u32::from(c.daapending),
        u32::from(c.burst),
        w.cmdr,
        w.sdi,
        w.ibi,
        phases::stage_of(p),
        t.kind as u32,
        u32::from(t.header),
        t.length.0,
        t.moved.0,
        u32::from(t.attached),
        t.part,
    ];
}
