// The calls of a host on pieces that have their lengths: a set-up, and one call. Layers, no interface.
#![tactic(auto)]

ghost use Rattle.std.specs.Prelude.{◌≡◌, true};
ghost use Rattle.bank.specs.Formed.{well_formed};
ghost use Rattle.model.specs.Engine.{step};
ghost use Rattle.model.specs.Rings.{rings};
ghost use Rattle.answer.specs.Given.{bank_with};
ghost use Rattle.answer.specs.Memory.{memory, lent, controller_of};
ghost use Rattle.image_model.specs.Image.{encoded};
ghost use Rattle.host_model.specs.Host.{set_up_in, call_of, hosted};
ghost use Rattle.host_parts.specs.Lent.{kept_lent, kept_left, lent_all, left_all, fresh, gave, packed_step, step_on};

use bank::{Heads, Sizes, State};
use image_model::Image;
use model::Call;
use number::Refusal;

// A set-up. Where it is done, image and tables take its bank.
pub fn set_up(
    image: &mut Image,
    flags: &mut [u8; 128],
    commands: &mut [u32; 16],
    payloads: &mut [u32; 16],
    caps: Sizes,
    marks: Sizes,
    id: u32,
) -> u32
    ensures { fresh result (kept_left image flags commands payloads) ≡ set_up_in (kept_lent image flags commands payloads) caps marks id }
{
    let r = setup::set_up(caps, marks, id);
    // The number of the C interface.
    let number = r.answer.number;
    if number != 0 {
        return number;
    }
    let f = r.bank.flags;
    let c = r.bank.commands;
    let p = r.bank.payloads;
    *flags = f;
    *commands = c;
    *payloads = p;
    image_words::encode(r.bank.state, r.bank.heads, image);
    number
}

// The call that numbers name.
fn call_of(letter: u32, offset: u32, first: u32, second: u32) -> Option<Call>
    ensures { result ≡ call_of letter offset first second }
{
    if host_parts::is_trigger(letter, offset, first, second) {
        return Some(Call::Trigger);
    }
    let letter = u8::try_from(letter).ok()?;
    let offset = u16::try_from(offset).ok()?;
    record::named(letter, 0, offset, first, second)
}

// A call on a well-formed bank, whose image is then written.
fn make(
    s: State,
    h: Heads,
    image: &mut Image,
    flags: &mut [u8; 128],
    commands: &mut [u32; 16],
    payloads: &mut [u32; 16],
    store: &mut [u32],
    output: &mut [u32],
    c: Call,
) -> u64
    requires { well_formed (bank_with s h (memory flags commands payloads store output).tables) ≡ true }
    ensures { gave result (left_all image flags commands payloads store output) ≡ packed_step (hosted (step rings (controller_of s h (lent flags commands payloads store output)) c)) }
{
    let fault = faults::length_fault(s.caps, store.len());
    let y = serve::step_parts(s, h, flags, commands, payloads, store, output, fault, c);
    image_words::encode(y.state, y.heads, image);
    host_parts::packed(y.answer)
}

// One call, on words of a state and tables: the bank is tested where the tables lie.
pub fn step(
    image: &mut Image,
    flags: &mut [u8; 128],
    commands: &mut [u32; 16],
    payloads: &mut [u32; 16],
    store: &mut [u32],
    output: &mut [u32],
    letter: u32,
    offset: u32,
    first: u32,
    second: u32,
) -> u64
    requires { encoded image.old ≡ true }
    ensures { gave result (left_all image flags commands payloads store output) ≡ step_on (call_of letter offset first second) (lent_all image flags commands payloads store output) }
{
    let s = image_fields::state_in(image);
    let h = image_fields::heads_in(image);
    if !formed::parts_formed(s, h, flags, commands) {
        return host_parts::refused(u32::from(Refusal::NotWellFormed));
    }
    match call_of(letter, offset, first, second) {
        Some(c) => make(s, h, image, flags, commands, payloads, store, output, c),
        None => host_parts::refused(u32::from(Refusal::WrongRecord)),
    }
}
