// The letters of lines and of a trace's records: which call a letter names, by the values of its fields.
#![tactic(auto)]

ghost use Rattle.std.specs.Prelude.{◌≡◌};
ghost use Rattle.letters.specs.Forms.{form_of};
ghost use Rattle.letters.specs.Named.{named_by};

use model::Call;

// The call of a letter, by the values of its last field and of the field before it. No field's value is cut.
#[tactic(auto, unfolding(crate::specs::Forms::forms, crate::specs::Forms::form_with))]
pub fn call(letter: u8, v: u32, w: u32) -> Option<Call>
    ensures { result ≡ named_by (form_of letter) v w }
{
    match letter {
        b'W' => Some(Call::Write((v % 65536) as u16, w)),
        b'R' => Some(Call::Read((w % 65536) as u16)),
        b'S' => Some(Call::Start),
        b'T' => Some(Call::Send),
        b'X' => Some(Call::Receive((w % 256) as u8)),
        b'F' => Some(Call::Finish((w % 256) as u8)),
        b'I' => Some(Call::Interrupt((v % 256) as u8, (w % 256) as u8)),
        b'D' => Some(Call::Request(v, w)),
        b'A' => Some(Call::Take),
        _ => None,
    }
}
