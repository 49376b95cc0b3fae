// Whether words are an image: those of the state that they say. Each field is tested by its range: no state is put
// together and compared. A layer, no interface: the calls above test the length once.
#![tactic(auto)]

ghost use Rattle.std.specs.Prelude.{◌≡◌, [], ◌∷◌, eqb, leb};
ghost use Rattle.std.specs.List.{list_all};
ghost use Rattle.ring.specs.Units.{bytes};
ghost use Rattle.image_model.specs.Image.{phase_words, kind_in, phase_in, same, encoded};

use image_model::Image;

// The number of a phase, then kind, header, length, moved, attached and part of its transfer.
#[tactic(auto, using(image_model::proofs::Encoded::open_test))]
fn is_phase(at: u32, k: u32, a: u32, l: u32, m: u32, b: u32, p: u32) -> bool
    ensures { result ≡ same (at ∷ k ∷ a ∷ l ∷ m ∷ b ∷ p ∷ []) (phase_words (phase_in at (record { kind = kind_in k; header = eqb a 1; length = bytes l; moved = bytes m; attached = eqb b 1; part = p }))) }
{
    if at == 0 {
        return (k == 0) & (a == 0) & (l == 0) & (m == 0) & (b == 0) & (p == 0);
    }
    (at <= 5) & (k <= 2) & (a <= 1) & (b <= 1)
}

fn all_at_most(ws: &[u32], most: u32) -> bool
    ensures { result ≡ list_all (λ w. leb w most) ws.now }
{
    ws.iter().all(|w| *w <= most)
}

// The fields of a byte, those of a bit, and the phase. Any other word may be any number.
#[tactic(auto, using(image_model::proofs::Encoded::encoded_by_fields))]
pub fn is_encoded(image: &Image) -> bool
    ensures { result ≡ encoded image.now }
{
    let bytes = [
        image[20], image[22], image[23], image[24], image[25], image[27], image[28], image[32],
    ];
    let bits = [image[26], image[29], image[30], image[31]];
    all_at_most(&bytes, 255)
        & all_at_most(&bits, 1)
        & is_phase(
            image[36], image[37], image[38], image[39], image[40], image[41], image[42],
        )
}
