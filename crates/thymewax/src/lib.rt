// The archive for hosts in C, Rust and Python, but for the replay (crate thymewax_replay): exported calls on numbers and lent
// memory. A host keeps a short image of the state and lends the tables where they lie. The image is a slice, whose length
// is tested, since another version may have another; the tables are arrays, a pointer in C: 128 addresses and 16 words are
// the controller's, and what no call tests at run time costs none. Every call takes any input.
#![tactic(auto)]

ghost use Rattle.std.specs.Prelude.{◌≡◌};
ghost use Rattle.image_model.specs.Image.{size};
ghost use Rattle.host_model.specs.Host.{version, set_up_in, call_of, section_in};
ghost use Rattle.host_parts.specs.Lent.{kept_lent, kept_left, lent_all, left_all, fresh, sizes_given, gave, step_on};

use image_model::SIZE;
use number::Refusal;
use queues::Five;

// The version of layout and calls: the header and the bindings have the same number.
#[unsafe(no_mangle)]
pub extern "C" fn thymewax_version() -> u32
    ensures { result ≡ version }
{
    2
}

// How many words an image has.
#[unsafe(no_mangle)]
pub extern "C" fn thymewax_image_words() -> usize
    ensures { result ≡ size }
{
    SIZE
}

// Five capacities, five watermarks and the ID, into image and tables: 0, 23, or 21 for an image of another length.
#[unsafe(no_mangle)]
pub extern "C" fn thymewax_set_up(
    image: &mut [u32],
    flags: &mut [u8; 128],
    commands: &mut [u32; 16],
    payloads: &mut [u32; 16],
    cmd: u32,
    cmdr: u32,
    sdo: u32,
    sdi: u32,
    ibi: u32,
    cmdmark: u32,
    cmdrmark: u32,
    sdomark: u32,
    sdimark: u32,
    ibimark: u32,
    id: u32,
) -> u32
    ensures { fresh result (kept_left image flags commands payloads) ≡ set_up_in (kept_lent image flags commands payloads) (sizes_given cmd cmdr sdo sdi ibi) (sizes_given cmdmark cmdrmark sdomark sdimark ibimark) id }
{
    let Some(words) = image.as_mut_array::<SIZE>() else {
        return u32::from(Refusal::NotWellFormed);
    };
    let caps = Five {
        cmd,
        cmdr,
        sdo,
        sdi,
        ibi,
    };
    let marks = Five {
        cmd: cmdmark,
        cmdr: cmdrmark,
        sdo: sdomark,
        sdi: sdimark,
        ibi: ibimark,
    };
    host_calls::set_up(words, flags, commands, payloads, caps, marks, id)
}

// One call: its letter, an offset and two values, as a record of a trace has them. 27 for numbers that name no call.
#[unsafe(no_mangle)]
pub extern "C" fn thymewax_step(
    image: &mut [u32],
    flags: &mut [u8; 128],
    commands: &mut [u32; 16],
    payloads: &mut [u32; 16],
    store: &mut [u32],
    output: &mut [u32],
    letter: u32,
    offset: u32,
    first: u32,
    second: u32,
) -> u64
    ensures { gave result (left_all image flags commands payloads store output) ≡ step_on (call_of letter offset first second) (lent_all image flags commands payloads store output) }
{
    let Some(image) = image.as_mut_array::<SIZE>() else {
        return host_parts::refused(u32::from(Refusal::NotWellFormed));
    };
    if !image::is_encoded(image) {
        return host_parts::refused(u32::from(Refusal::NotWellFormed));
    }
    host_calls::step(
        image, flags, commands, payloads, store, output, letter, offset, first, second,
    )
}

// Where a section of a trace lies. Gives 0, 24, 25 or 26; at 0 `place` takes its first byte and its length in bytes.
#[unsafe(no_mangle)]
pub extern "C" fn thymewax_section(file: &[u8], i: u32, place: &mut [u32]) -> u32
    ensures { let h = section_in file.now i place.old in (result ≡ h.number) × (place.new ≡ h.place) }
{
    let r = match trace::look_up(file, i) {
        Ok(r) => r,
        Err(why) => return u32::from(why),
    };
    host_parts::tell_place(0, r.start as u32, file[r].len(), place)
}
