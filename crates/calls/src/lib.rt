// What is told of a call by itself, on any engine: whether an argument is out of its range (`answer.range`), whether it
// is an event; and, as laws, what follows for its decision, and which word a read takes.
#![tactic(auto)]

ghost use Rattle.std.specs.Prelude.{◌≡◌, not};
ghost use Rattle.model.specs.Laws.{is_access};
ghost use Rattle.model.specs.Bursts.{misfit};

use model::Call;

// Whether an argument of a call is out of its range (`answer.range`).
pub fn is_misfit(call: Call) -> bool
    ensures { result ≡ misfit call }
{
    match call {
        Call::Finish(code) => 15 < code,
        Call::Interrupt(address, _) => 127 < address,
        _ => false,
    }
}

// Whether a call is an event, and no access.
pub fn is_event(call: Call) -> bool
    ensures { result ≡ not (is_access call) }
{
    !matches!(call, Call::Read(_) | Call::Write(_, _))
}
