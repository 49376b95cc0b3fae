// The program `plain_session`: what `session` prints, from the plain engine (`plain.agrees`).
#![tactic(auto)]

use lines::Reading;

// Where the input cannot be read, or the output not be written, it ends, after the line that is open then.
fn main(rt: HostRuntime) {
    let mut console = plain_console::begin();
    // A line is one of a session alone. Its reading is put back field by field: whole, with what lies between the fields, it
    // would be stored and loaded for each byte.
    let _ = console.run_to_last(&mut rt.stdin(), &mut rt.stdout(), |line, b| {
        let r = line.reading.eat(b);
        line.reading = Reading {
            letter: r.letter,
            ..r
        };
    });
}
