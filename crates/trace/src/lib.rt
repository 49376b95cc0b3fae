// Trace files: the look-up of a section, as a part of the lent bytes (`trace.section`, `trace.refused`), and what the
// first bytes tell a reader that has no more yet. It knows no record.
#![tactic(auto)]

ghost use Rattle.std.specs.Prelude.{◌≡◌, ◌+◌, ◌-◌, ◌*◌, ◌≤◌, length, take, drop, IfOk};
ghost use Rattle.number.specs.Refusals.{told};
ghost use Rattle.trace_model.specs.Format.{sections, look_number, section_start, section};
ghost use Rattle.trace_model.specs.Head.{table_told, count_told, head_of};

use number::Refusal;
use std::ops::Range;
use trace_model::Head;

// Where section i lies in the file, or why it is not there: 24, 25, 26 (`trace.refused`).
#[tactic(auto, unfolding(trace_model::specs::Format::look_number), using(trace_model::proofs::Table::sound))]
pub fn look_up(file: &[u8], i: u32) -> Result<Range<usize>, Refusal>
    ensures number { told result ≡ look_number file.now i }
    ensures place { IfOk result (λ r. (r.start ≡ section_start file.now i) × (r.start ≤ r.end) × (r.end ≤ length file.now) × (r.end ≤ 0x1000000) × (take (r.end - r.start) (drop r.start file.now) ≡ section file.now i)) }
{
    trace_table::check(file)?;
    if u32::from(little_endian::two_at(file, 4)) <= i {
        return Err(Refusal::NoSuchSection);
    }
    let start = trace_table::start_at(file, i);
    let end = trace_table::past(u64::from(start), trace_table::count_at(file, i));
    Ok(start as usize..end as usize)
}

// The records of section i, as a part of the file, or why it is not there (`trace.section`, `trace.refused`).
pub fn part(file: &[u8], i: u32) -> Result<&[u8], Refusal>
    ensures number { told result ≡ look_number file.now i }
    ensures result_value { IfOk result (λ r. r.now ≡ section file.now i) }
    ensures uncopied { IfOk result (λ r. (r.ref_ptr.0 ≡ file.entry.ref_ptr.0) × (r.ref_ptr.1 ≡ section_start file.now i + file.entry.ref_ptr.1)) }
{
    Ok(&file[look_up(file, i)?])
}

// The same without the reason: no records where the section is not there.
pub fn section(file: &[u8], i: u32) -> &[u8]
    ensures result_value { result.now ≡ section file.now i }
    ensures uncopied { (result.ref_ptr.0 ≡ file.entry.ref_ptr.0) × (result.ref_ptr.1 ≡ section_start file.now i + file.entry.ref_ptr.1) }
{
    match part(file, i) {
        Ok(records) => records,
        Err(_) => &file[..0],
    }
}

// The first byte of section i; 0 where it is not there.
pub fn section_start(file: &[u8], i: u32) -> u32
    ensures { result ≡ section_start file.now i }
{
    match look_up(file, i) {
        Ok(r) => r.start as u32,
        Err(_) => 0,
    }
}

// What a table of `n` sections tells that is there as a whole.
fn table_told(bytes: &[u8], n: u32) -> Head
    requires { (n ≡ sections bytes.now) × (n ≤ 64) × (6 + 8 * n ≤ length bytes.now) }
    ensures { result ≡ table_told bytes.now }
{
    let t = trace_table::walk(bytes, n);
    if !t.right | (0x100_0000 < t.end) {
        return Head::Wrong(Refusal::WrongTable);
    }
    let len = 6 + 8 * (n as usize);
    Head::Right(len, (t.end as usize - len) / 12)
}

// What the count of sections tells, and the table where it is there.
fn count_told(bytes: &[u8]) -> Head
    requires { 6 ≤ length bytes.now }
    ensures { result ≡ count_told bytes.now }
{
    let n = u32::from(little_endian::two_at(bytes, 4));
    if !(1..=64).contains(&n) {
        return Head::Wrong(Refusal::WrongTable);
    }
    if bytes.len() < 6 + 8 * (n as usize) {
        return Head::More;
    }
    table_told(bytes, n)
}

// What the first bytes of a file tell.
pub fn read_head(bytes: &[u8]) -> Head
    ensures { result ≡ head_of bytes.now }
{
    if bytes.len() < 4 {
        return Head::More;
    }
    if !trace_table::marked(bytes) {
        return Head::Wrong(Refusal::WrongMark);
    }
    if bytes.len() < 6 {
        return Head::More;
    }
    count_told(bytes)
}
