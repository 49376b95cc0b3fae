// A host's replay, on image and tables of any contents. Words that no state has, and an image of another length, are
// answered by the same loop: on a bank that is not well formed, on which each record is answered 21. A layer, no interface.
#![tactic(auto)]

ghost use Rattle.std.specs.Prelude.{◌≡◌, true, false, length, MatchOption};
ghost use Rattle.answer.specs.Memory.{lent_without, left_without, controller_of};
ghost use Rattle.playback_model.specs.Replay.{replay_of};
ghost use Rattle.image_model.specs.Image.{size, encoded, Kept, is_kept};
ghost use Rattle.player.specs.Given.{reached_with};
ghost use Rattle.host_parts.specs.Lent.{lent_all, left_all, gave, replay_on};

use bank::{Heads, State};
use image_model::{Image, SIZE};
use replayed::Reached;

// The words of an image where they lie, where a state has them.
fn said(image: &[u32]) -> Option<&Image>
    ensures { MatchOption result ((k : Kept) → k.image ≡ image.now → is_kept k ≡ false) (λ ws. (length image.now ≡ size) × (ws.now ≡ image.now) × (encoded image.now ≡ true)) }
{
    let Some(words) = image.as_array::<SIZE>() else {
        return None;
    };
    if !image::is_encoded(words) {
        return None;
    }
    Some(words)
}

// Replay of a section on a bank by its parts, with the tables where they lie and an empty output.
fn on_parts(
    s: State,
    h: Heads,
    flags: &mut [u8; 128],
    commands: &mut [u32; 16],
    payloads: &mut [u32; 16],
    store: &mut [u32],
    file: &[u8],
    i: u32,
    limit: usize,
) -> Reached
    ensures { reached_with result (left_without flags commands payloads store) ≡ replay_of file.now i limit (controller_of s h (lent_without flags commands payloads store)) }
{
    let records = match trace::part(file, i) {
        Ok(records) => records,
        Err(why) => return replayed::reach(s, h, u32::from(why), 0, replayed::NO_ANSWER),
    };
    let n = record::whole(limit, records);
    let fault = faults::parts_fault(s, h, flags, commands, store.len());
    let mut none = [0u32; 0];
    player::replay_parts(
        s, h, flags, commands, payloads, store, &mut none, fault, records, n,
    )
}

// What is kept of a bank becomes that of the bank that the records left; anything else stays. Words of no state are
// answered by the same call, so that the records have one loop: on the bank that zeros say, which is not well formed, since
// its queues have no room.
pub fn replay(
    image: &mut [u32],
    flags: &mut [u8; 128],
    commands: &mut [u32; 16],
    payloads: &mut [u32; 16],
    store: &mut [u32],
    file: &[u8],
    i: u32,
    limit: usize,
    told: &mut [u32],
) -> u32
    ensures { gave result (left_all image flags commands payloads store told) ≡ replay_on file.now i limit (lent_all image flags commands payloads store told) }
{
    let said = said(image);
    let words = said.unwrap_or(&[0; SIZE]);
    let s = image_fields::state_in(words);
    let h = image_fields::heads_in(words);
    let y = on_parts(s, h, flags, commands, payloads, store, file, i, limit);
    if said.is_none() {
        return host_parts::tell(y.told, told);
    }
    let words = image.as_mut_array::<SIZE>().unwrap();
    image_words::encode(y.state, y.heads, words);
    host_parts::tell(y.told, told)
}
