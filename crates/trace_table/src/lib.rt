// Mark and table of a trace file (`trace.form`): whether they are right, and what an entry says. It knows the file's
// bytes, and no record. Layers: the caller has to know that an entry lies inside the file.
#![tactic(auto)]

ghost use Rattle.std.specs.Prelude.{◌≡◌, ◌+◌, ◌*◌, ◌<◌, ◌≤◌, length};
ghost use Rattle.number.specs.Refusals.{told};
ghost use Rattle.trace_model.specs.Format.{mark, begins_with, sections, start_at, count_at, section_place, starts_right, table_right, fault};

use number::Refusal;

// Whether the file opens with the mark.
#[tactic(auto, using(trace_model::proofs::Table::opens))]
pub fn marked(file: &[u8]) -> bool
    ensures { result ≡ begins_with mark file.now }
{
    file.starts_with(b"I3TR")
}

// The start and the record count of a section, out of the table.
pub fn start_at(file: &[u8], i: u32) -> u32
    requires { 14 + 8 * i ≤ length file.now }
    ensures { result ≡ start_at file.now i }
{
    little_endian::four_at(file, 6 + 8 * (i as usize))
}

pub fn count_at(file: &[u8], i: u32) -> u32
    requires { 14 + 8 * i ≤ length file.now }
    ensures { result ≡ count_at file.now i }
{
    little_endian::four_at(file, 10 + 8 * (i as usize))
}

// The place behind so many records of 12 bytes, the first of which is at `start`.
pub fn past(start: u64, records: u32) -> u64
    requires { start < 281474976710656 }
    ensures { result ≡ start + 12 * records }
{
    start + 12 * u64::from(records)
}

// Whether the starts of a table are right, and where its last section ends: also where they are not, so no `Option`.
#[derive(Clone, Copy)]
pub struct Walked {
    pub right: bool,
    pub end: u64,
}

// The starts of a table of `n` sections, one after another. By number: an entry is read as a look-up reads it.
#[tactic(auto, unfolding(trace_model::specs::Format::starts_right, trace_model::specs::Format::records))]
pub fn walk(file: &[u8], n: u32) -> Walked
    requires { (n ≡ sections file.now) × (n ≤ 64) × (6 + 8 * n ≤ length file.now) }
    ensures { (result.right ≡ starts_right file.now n) × (result.end ≡ section_place file.now n) }
{
    let mut right = true;
    let mut end = 6 + 8 * u64::from(n);
    for i in 0..n {
        right &= u64::from(start_at(file, i)) == end;
        end = past(end, count_at(file, i));
    }
    Walked { right, end }
}

// Whether the table is whole and right, and the file ends where it says.
#[tactic(auto, unfolding(trace_model::specs::Format::table_right))]
fn table_right(file: &[u8]) -> bool
    ensures { result ≡ table_right file.now }
{
    if file.len() < 6 {
        return false;
    }
    let n = u32::from(little_endian::two_at(file, 4));
    if !(1..=64).contains(&n) {
        return false;
    }
    if file.len() < 6 + 8 * (n as usize) {
        return false;
    }
    let t = walk(file, n);
    t.right & (t.end == file.len() as u64) & (file.len() <= 0x100_0000)
}

// What is wrong with the file as a whole: 24, or 25 (`trace.refused`).
#[tactic(auto, unfolding(trace_model::specs::Format::fault))]
pub fn check(file: &[u8]) -> Result<(), Refusal>
    ensures { told result ≡ fault file.now }
{
    if !marked(file) {
        return Err(Refusal::WrongMark);
    }
    if !table_right(file) {
        return Err(Refusal::WrongTable);
    }
    Ok(())
}
