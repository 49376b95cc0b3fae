// What the calls of a host are made of: an answer packed into one number, the test for the trigger's numbers, and what is
// told in lent memory.
#![tactic(auto)]

ghost use Rattle.std.specs.Prelude.{◌≡◌, set};
ghost use Rattle.host_model.specs.Host.{triggers, packed_of, told_in, placed_in};

use bank::Answer;
use number::Refusal;
use playback_model::Report;

// A value in the low half, its number in the high half. No `From`: `bank`, which has the type, knows no host.
pub fn packed(a: Answer) -> u64
    ensures { result ≡ packed_of a }
{
    u64::from(a.value) + 0x1_0000_0000 * u64::from(a.number)
}

pub fn refused(number: u32) -> u64
    ensures { result ≡ packed_of (record { value = 0; number = number }) }
{
    packed(Answer { value: 0, number })
}

// Whether numbers are the trigger's.
pub fn is_trigger(letter: u32, offset: u32, first: u32, second: u32) -> bool
    ensures { result ≡ triggers letter offset first second }
{
    matches!((letter, offset, first, second), (0x47, 0, 0, 0))
}

// A word of lent memory, where it has that word.
fn put(ws: &mut [u32], i: usize, w: u32)
    ensures { ws.new ≡ set ws.old i w }
{
    if i < ws.len() {
        ws[i] = w;
    }
}

// What a replay tells, in lent memory, where records may have been done; its number.
pub fn tell(t: Report, told: &mut [u32]) -> u32
    ensures { (result ≡ t.number) × (told.new ≡ told_in t told.old) }
{
    if t.number == 0 || t.number == u32::from(Refusal::WrongRecord) {
        put(told, 0, (t.count % 0x1_0000_0000) as u32);
        put(told, 1, t.answer.value);
        put(told, 2, t.answer.number);
    }
    t.number
}

// Where a section begins and how many bytes it has, in lent memory, where it is not refused; the number of its look-up.
pub fn tell_place(number: u32, start: u32, bytes: usize, place: &mut [u32]) -> u32
    ensures { (result ≡ number) × (place.new ≡ placed_in number start bytes place.old) }
{
    if number == 0 {
        put(place, 0, start);
        put(place, 1, (bytes % 0x1_0000_0000) as u32);
    }
    number
}
