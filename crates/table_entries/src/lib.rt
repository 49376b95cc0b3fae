// One entry of a lent table, or of the lent output, gets another value.
#![tactic(auto)]

ghost use Rattle.std.specs.Prelude.{◌≡◌, set};
ghost use Rattle.model.specs.View.{tables};
ghost use Rattle.effect.specs.Effects.{tables_by};

use effect::Table;

// One entry of a table. At a place past the end nothing is stored, so that no caller has to test the place.
fn put<T: Copy>(table: &mut [T], i: u32, v: T)
    ensures { table.new ≡ set table.old i v }
{
    let at = i as usize;
    if at < table.len() {
        table[at] = v;
    }
}

// Tables one by one, here and in what calls it: a host lends them so, and where a struct of `&mut` was lent in their place,
// what it left was not proved to be what its parts left.
#[tactic(auto, unfolding(effect::specs::Effects::tables_by))]
pub fn put_table(
    t: Table,
    flags: &mut [u8; 128],
    commands: &mut [u32; 16],
    payloads: &mut [u32; 16],
    output: &mut [u32],
)
    ensures { tables flags.new commands.new payloads.new output.new ≡ tables_by t (tables flags.old commands.old payloads.old output.old) }
{
    match t {
        Table::Same => {}
        Table::Flags(i, v) => put(flags, i, v),
        Table::Command(i, v) => put(commands, i, v),
        Table::Payload(i, v) => put(payloads, i, v),
        Table::Output(i, v) => put(output, i, v),
    }
}
