// A program for tests: what `trial` prints, from the plain engine (`plain.agrees`).
#![tactic(auto)]

// Where the input cannot be read, or the output not be written, it ends, after the line that is open then.
fn main(rt: HostRuntime) {
    let mut console = plain_console::begin();
    let _ = console.run_to_last(&mut rt.stdin(), &mut rt.stdout(), |line, b| line.extend(b));
}
