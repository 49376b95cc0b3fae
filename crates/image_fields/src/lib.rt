// A state and its heads out of the words of an image. Layers, no interface.
#![tactic(auto)]

ghost use Rattle.std.specs.Prelude.{◌≡◌, ◌+◌, ◌≤◌, ◌<◌};
ghost use Rattle.image_model.specs.Image.{size, counts_in, heads_in, byte_in, bit_in, kind_in, transfer_in, phase_in, regs_in, latest_in, control_in, state_in};

use bank::{Control, Counts, Heads, Kind, Latest, Phase, Regs, State, Transfer};
use image_model::Image;
use queues::Five;
use ring::{Bytes, Words};

fn counts_in(image: &Image, at: usize) -> Counts
    requires { at + 17 ≤ size }
    ensures { result ≡ counts_in image.now at }
{
    Five {
        cmd: Words(image[at]),
        cmdr: Words(image[at + 4]),
        sdo: Words(image[at + 8]),
        sdi: Words(image[at + 12]),
        ibi: Words(image[at + 16]),
    }
}

pub fn heads_in(image: &Image) -> Heads
    ensures { result ≡ heads_in image.now }
{
    Five {
        cmd: image[2],
        cmdr: image[6],
        sdo: image[10],
        sdi: image[14],
        ibi: image[18],
    }
}

fn byte_in(image: &Image, at: usize) -> u8
    requires { at < size }
    ensures { result ≡ byte_in image.now at }
{
    (image[at] % 256) as u8
}

fn bit_in(image: &Image, at: usize) -> bool
    requires { at < size }
    ensures { result ≡ bit_in image.now at }
{
    image[at] == 1
}

// No `TryFrom`: by the definitions every number says a kind, and every number a phase.
fn kind_in(n: u32) -> Kind
    ensures { result ≡ kind_in n }
{
    match n {
        0 => Kind::Private,
        1 => Kind::Direct,
        _ => Kind::Broadcast,
    }
}

fn phase_in(n: u32, t: Transfer) -> Phase
    ensures { result ≡ phase_in n t }
{
    match n {
        0 => Phase::Idle,
        1 => Phase::Writing(t),
        2 => Phase::Reading(t),
        3 => Phase::Unrequested(t),
        4 => Phase::Requested(t),
        _ => Phase::Answered(t),
    }
}

fn regs_in(image: &Image) -> Regs
    ensures { result ≡ regs_in image.now }
{
    Regs {
        id: byte_in(image, 20),
        scratch: image[21],
        mask: byte_in(image, 22),
        ops: byte_in(image, 23),
        config: byte_in(image, 24),
        selected: byte_in(image, 25),
        marks: counts_in(image, 1),
    }
}

fn latest_in(image: &Image) -> Latest
    ensures { result ≡ latest_in image.now }
{
    Latest {
        cmdr: image[33],
        sdi: image[34],
        ibi: image[35],
    }
}

fn control_in(image: &Image) -> Control
    ensures { result ≡ control_in image.now }
{
    Control {
        held: bit_in(image, 26),
        sync: byte_in(image, 27),
        ibisync: byte_in(image, 28),
        cmdrpending: bit_in(image, 29),
        ibipending: bit_in(image, 30),
        daapending: bit_in(image, 31),
        burst: byte_in(image, 32),
        latest: latest_in(image),
    }
}

fn transfer_in(image: &Image) -> Transfer
    ensures { result ≡ transfer_in image.now }
{
    Transfer {
        kind: kind_in(image[37]),
        header: bit_in(image, 38),
        length: Bytes(image[39]),
        moved: Bytes(image[40]),
        attached: bit_in(image, 41),
        part: image[42],
    }
}

pub fn state_in(image: &Image) -> State
    ensures { result ≡ state_in image.now }
{
    State {
        caps: counts_in(image, 0),
        levels: counts_in(image, 3),
        regs: regs_in(image),
        control: control_in(image),
        phase: phase_in(image[36], transfer_in(image)),
    }
}
