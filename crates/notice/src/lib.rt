// What a program does where its input or its output fails (`program.failure`): it counts the answers that were written
// whole, and says on standard error what happened. It knows bytes and writers.
#![tactic(auto)]

ghost use Rattle.std.specs.Prelude.{◌≡◌, ℕ, List, ◌+◌, ◌/◌, ◌%◌, ◌^◌, ◌≤◌, ◌++◌, length, take};
ghost use Rattle.std.specs.Io.KnownBytes.{Appends};
ghost use Rattle.notice.specs.Notice.{Noticed, sent_of};

use std::io::Write;

// Writes all bytes, or those before the first write that fails or takes none: how many were written.
pub fn write_counted<W: Write>(to: &mut W, bytes: &[u8]) -> usize
    ensures bound { result ≤ length bytes.now }
    ensures written { Appends (W.contents to.old) (W.contents to.new) (take result bytes.now) }
{
    // `write_all` does not tell how many bytes went before it failed.
    let mut done: usize = 0;
    while done < bytes.len() {
        let n = to.write(&bytes[done..]).unwrap_or(0);
        if n == 0 {
            return done;
        }
        done += n;
    }
    done
}

// How many answers were written, those of a text among them: lines of twelve bytes, of which only whole ones count.
pub fn counted(answers: u64, bytes: usize) -> u64
    ensures { result ≡ (answers + bytes / 12) % 2 ^ 64 }
{
    answers.wrapping_add(bytes as u64 / 12)
}

// What a program ends on before its end: an input that cannot be read, or an output that cannot be written.
#[derive(Clone, Copy)]
pub enum Failed {
    Input,
    Output,
}

// Writes a text of answers, and counts those that were written.
pub fn send<W: Write>(to: &mut W, text: &[u8], answers: &mut u64) -> Result<(), Failed>
    ensures { (n : ℕ) × (n ≤ length text.now) × Appends (W.contents to.old) (W.contents to.new) (take n text.now) × (answers.new ≡ (answers.old + n / 12) % 2 ^ 64) × (result ≡ sent_of n (length text.now)) }
{
    let n = write_counted(to, text);
    *answers = counted(*answers, n);
    if n < text.len() {
        return Err(Failed::Output);
    }
    Ok(())
}

// Bytes behind those before a place, and the place behind them.
fn append(out: &mut [u8], at: usize, text: &[u8]) -> usize
    requires { at + length text.now ≤ length out.old }
    ensures { (take result out.new ≡ take at out.old ++ text.now) × (result ≡ at + length text.now) }
{
    let end = at + text.len();
    out[at..end].copy_from_slice(text);
    end
}

// A line of words and a number, and how many bytes of `out` it fills: a layer, no interface.
pub fn line(words: &[u8], n: u64, out: &mut [u8]) -> usize
    requires { length words.now + 21 ≤ length out.old }
    ensures { Noticed words.now n (take result out.new) × (result ≤ length words.now + 21) }
{
    let mut digits = [0u8; 20];
    let k = io::decimal(n, &mut digits);
    let at = append(out, 0, words);
    let end = append(out, at, &digits[..k]);
    append(out, end, b"\n")
}

// Says the words and the number on standard error, and gives how many bytes were written: a layer, no interface. Where
// standard error fails too, nothing can be said.
pub fn tell<W: Write>(errors: &mut W, words: &[u8], n: u64) -> usize
    requires { length words.now ≤ 64 }
    ensures bound { result ≤ length words.now + 21 }
    ensures written { (text : List ℕ) × Noticed words.now n text × Appends (W.contents errors.old) (W.contents errors.new) (take result text) }
{
    let mut text = [0u8; 85];
    let m = line(words, n, &mut text);
    write_counted(errors, &text[..m])
}
