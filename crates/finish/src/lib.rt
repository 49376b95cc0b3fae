// The finish outside a burst, as a decision (`finish.tests`, `finish.receipt`, `finish.removal`), of a code that passed
// 18. It knows the state and the code.
#![tactic(auto)]

ghost use Rattle.std.specs.Prelude.{◌≡◌, ◌<◌, ◌≤◌, true};
ghost use Rattle.number.specs.Refusals.{told};
ghost use Rattle.bank.specs.Formed.{phase_ok};
ghost use Rattle.model.specs.View.{Tables};
ghost use Rattle.model.specs.Commands.{receipt_word};
ghost use Rattle.model.specs.Calls.{finish, padded, receipted, removed, removes};
ghost use Rattle.effect.specs.Effects.{effect_of, verdict, number};
ghost use Rattle.effect.specs.Seen.{Fronts, seen};

use bank::{Control, Phase, State, Transfer};
use effect::Effect;
use number::Refusal;
use ring::Words;

// Whether bytes of a read are left that fill no word: that word goes to SDI (`finish.receipt`).
#[tactic(auto, unfolding(model::specs::Calls::padded))]
fn is_padded(p: Phase) -> bool
    ensures { result ≡ padded p }
{
    let t = phases::transfer_of(p);
    let words = ring::words_for(t.moved);
    phases::is_reading(p) & (t.moved.0 / 4 < words.0)
}

// Whether the payload of the open transfer leaves SDO with it: a write that ends with 4, 6 or 8 (`finish.removal`).
fn does_remove(p: Phase, code: u8) -> bool
    ensures { result ≡ removes p code }
{
    phases::is_writing(p) & ((code == 4) | (code == 6) | (code == 8))
}

// How many words leave then, of `level` in SDO: as many as the commanded length needs, or all if there are fewer.
fn removed_words(t: Transfer, level: Words) -> u32
    ensures { result ≡ removed t level.0 }
{
    ring::words_for(t.length).0.min(level.0)
}

// The tests of a finish (`finish.tests`).
#[tactic(auto, unfolding(model::specs::Calls::finish))]
fn finish_tests(st: State, code: u8) -> Result<(), Refusal>
    ensures { (t : Tables) (f : Fronts) → told result ≡ number (finish (seen st t f) code) }
{
    let p = st.phase;
    effect::while_open(st)?;
    if !endings::is_allowed(p, code) {
        return Err(Refusal::EndingNotAllowed);
    }
    let k = st.caps;
    let l = st.levels;
    if (k.cmdr.0 <= l.cmdr.0) | (is_padded(p) & (k.sdi.0 <= l.sdi.0)) {
        return Err(Refusal::NoRoom);
    }
    Ok(())
}

// The receipt of a transfer (`receipt.word`).
#[tactic(auto, unfolding(model::specs::Commands::receipt_word))]
fn receipt(code: u8, moved: u32, sync: u8) -> u32
    requires { (code ≤ 15) × (moved < 4096) }
    ensures { result ≡ receipt_word code moved sync }
{
    code as u32 * 0x100000 + moved * 0x100 + sync as u32
}

// One receipt more: the next sync (`receipt.sync`), and pending bit 5 (`source.receipt`).
fn counted(c: Control) -> Control
    ensures { result ≡ receipted c }
{
    Control {
        sync: c.sync.wrapping_add(1),
        cmdrpending: true,
        ..c
    }
}

// The open transfer ends with a code; its receipt is the value (`finish.receipt`), and the payload of a write that failed
// leaves SDO (`finish.removal`).
pub fn finish(st: State, code: u8) -> Effect
    requires { (phase_ok st.phase ≡ true) × (code ≤ 15) }
    ensures { (t : Tables) (f : Fronts) → effect_of result t ≡ verdict (λ v. finish v code) (seen st t f) }
{
    let p = st.phase;
    if let Err(why) = finish_tests(st, code) {
        return effect::refused(st, why);
    }
    let t = phases::transfer_of(p);
    let r = receipt(code, t.moved.0, st.control.sync);
    let n = removed_words(t, st.levels.sdo);
    let removes = does_remove(p, code);
    let pads = is_padded(p);
    let o = effect::receipt_and(r, removes, n, pads, t.part);
    let phase = Phase::Idle;
    let control = counted(st.control);
    effect::done(
        State {
            control,
            phase,
            ..st
        },
        r,
        0,
        o,
    )
}
