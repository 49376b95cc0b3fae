// Which code may end the open transfer (`finish.codes`), in a burst and outside. It knows a phase and a code.
#![tactic(auto)]

ghost use Rattle.std.specs.Prelude.{◌≡◌};
ghost use Rattle.model.specs.Calls.{ends_entdaa, ends_other, allowed};

use bank::Phase;

// Whether a code may end an ENTDAA.
fn ends_entdaa(p: Phase, code: u8) -> bool
    ensures { result ≡ ends_entdaa p code }
{
    ((code == 0) & !phases::is_requested(p)) | ((code == 4) & phases::is_unrequested(p))
}

// Whether a code may end any other transfer whose device was attached.
fn ends_other(p: Phase, code: u8) -> bool
    ensures { result ≡ ends_other p code }
{
    let t = phases::transfer_of(p);
    let k = t.kind;
    let reads = phases::is_reading(p);
    let nothing = t.moved.0 == 0;
    let everything = t.moved.0 == t.length.0;
    let ccc = !phases::is_private(k);
    let wide = phases::is_broadcast(k);
    ((code == 4) & nothing & (ccc | t.header))
        | ((code == 6) & nothing & !wide)
        | ((code == 0) & (everything | (reads & !ccc)))
        | ((code == 1) & reads & ccc & !everything)
}

// Whether a code may end the open transfer.
#[tactic(auto, unfolding(model::specs::Calls::allowed))]
pub fn is_allowed(p: Phase, code: u8) -> bool
    ensures { result ≡ allowed p code }
{
    let rest = bank::select(
        phases::is_assigning(p),
        ends_entdaa(p, code),
        ends_other(p, code),
    );
    bank::select(phases::is_unattached(p), code == 8, rest)
}
