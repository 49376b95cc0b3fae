// One controller's state (`bank.one`): the numbers of its queues, registers, control bits, the open transfer, device
// table and offload memories; what a phase and a burst say of the transfer; and, as definitions, set-up and when a bank
// is well formed. It knows no call.
#![tactic(auto)]

ghost use Rattle.std.specs.Prelude.{◌≡◌, cond, ◌+◌, ◌-◌, ◌<◌, get_or};
ghost use Rattle.number.specs.Refusals.{number_of};
ghost use Rattle.bank.specs.Bits.{bit};
ghost use Rattle.bank.specs.SetUp.{size_ok, marks_ok, cleared, total};

use number::Refusal;
use queues::Five;
use ring::{Bytes, Words};

// A count of words for each queue: capacities, levels or watermarks.
pub type Counts = Five<Words>;

// Where the first word of each queue lies within its area of the store.
pub type Heads = Five<u32>;

// Five capacities, or five watermarks, as a caller gives them.
pub type Sizes = Five<u32>;

// The registers that a reset leaves (`enable.keeps`): ID, SCRATCH, IRQ_MASK, OPS but its bit 7, IBI_CONFIG, the address
// that DEV_CHAR selects, and the watermarks.
#[derive(Clone, Copy)]
pub struct Regs {
    pub id: u8,
    pub scratch: u32,
    pub mask: u8,
    pub ops: u8,
    pub config: u8,
    pub selected: u8,
    pub marks: Counts,
}

// The words last read from the queues that the driver reads, since the release; 0 where none was (`take.empty`).
#[derive(Clone, Copy, PartialEq, Eq)]
pub struct Latest {
    pub cmdr: u32,
    pub sdi: u32,
    pub ibi: u32,
}

// What a reset sets besides the queues and the transfer (`enable.reset`): the ENABLE bit, the sync of receipts and that
// of interrupts, the pending bits 5, 6 and 7, where an offload burst stands (0 where none is open, else 1 more than
// the place of the command whose transfer is open: a number and no `Option`, since `bursting`, `place` and a host's image
// have it so), and the words last read.
#[derive(Clone, Copy, PartialEq, Eq)]
pub struct Control {
    pub held: bool,
    pub sync: u8,
    pub ibisync: u8,
    pub cmdrpending: bool,
    pub ibipending: bool,
    pub daapending: bool,
    pub burst: u8,
    pub latest: Latest,
}

#[derive(Clone, Copy)]
pub enum Kind {
    Private,
    // A CCC for one device.
    Direct,
    // A CCC for all.
    Broadcast,
}

// An open transfer: the fields of its command that a later event asks for, the bytes moved, whether its device was
// attached when it opened, and the part word, which has the bytes gathered, or those left to send, at its top.
#[derive(Clone, Copy)]
pub struct Transfer {
    pub kind: Kind,
    pub header: bool,
    pub length: Bytes,
    pub moved: Bytes,
    pub attached: bool,
    pub part: u32,
}

// The phase of the transfer. An address assignment (ENTDAA) has had no request, has one open, or has had some and none
// is open.
#[derive(Clone, Copy)]
pub enum Phase {
    Idle,
    Writing(Transfer),
    Reading(Transfer),
    Unrequested(Transfer),
    Requested(Transfer),
    Answered(Transfer),
}

// What calls decide by, besides words of queues and tables. Where the queues lie is not told here.
#[derive(Clone, Copy)]
pub struct State {
    pub caps: Counts,
    pub levels: Counts,
    pub regs: Regs,
    pub control: Control,
    pub phase: Phase,
}

// The state of one controller (`bank.one`), without the words of its queues: beside what calls decide by, where the
// queues lie, the flags of the 128 devices (`device.flags`: bit 0 attached, bit 1 may interrupt, bit 2 sends a data
// byte), the offload commands and the offload data words.
#[derive(Clone, Copy)]
pub struct Bank {
    pub state: State,
    pub heads: Heads,
    pub flags: [u8; 128],
    pub commands: [u32; 16],
    pub payloads: [u32; 16],
}

// What a call answers (`answer.pair`).
#[derive(Clone, Copy)]
pub struct Answer {
    pub value: u32,
    pub number: u32,
}

impl Answer {
    // Done, with a value.
    pub fn done(value: u32) -> Answer
        ensures { result ≡ record { value = value; number = 0 } }
    {
        Answer { value, number: 0 }
    }

    // A refusal has the value 0 (`answer.refusal`).
    pub fn refused(why: Refusal) -> Answer
        ensures { result ≡ record { value = 0; number = number_of why } }
    {
        Answer {
            value: 0,
            number: u32::from(why),
        }
    }
}

// What set-up gives.
#[derive(Clone, Copy)]
pub struct SetUp {
    pub bank: Bank,
    pub answer: Answer,
}

// Whether a capacity is in range (`set-up.numbers`).
pub fn size_ok(least: u32, cap: u32) -> bool
    ensures { result ≡ size_ok least cap }
{
    (least <= cap) & (cap <= 1024)
}

// Whether each watermark is at most its queue's capacity (`set-up.numbers`).
#[tactic(auto, unfolding(crate::specs::SetUp::marks_ok))]
pub fn marks_ok(marks: Counts, caps: Counts) -> bool
    ensures { result ≡ marks_ok marks caps }
{
    (marks.cmd.0 <= caps.cmd.0)
        & (marks.cmdr.0 <= caps.cmdr.0)
        & (marks.sdo.0 <= caps.sdo.0)
        & (marks.sdi.0 <= caps.sdi.0)
        & (marks.ibi.0 <= caps.ibi.0)
}

// A control with its syncs and pending bits 0, no burst open and no word read.
pub fn cleared_control(held: bool) -> Control
    ensures { result ≡ cleared held }
{
    let latest = Latest {
        cmdr: 0,
        sdi: 0,
        ibi: 0,
    };
    Control {
        held,
        sync: 0,
        ibisync: 0,
        cmdrpending: false,
        ibipending: false,
        daapending: false,
        burst: 0,
        latest,
    }
}

// One of two values, by a test.
pub fn select<T: Copy>(test: bool, yes: T, no: T) -> T
    ensures { result ≡ cond test yes no }
{
    if test { yes } else { no }
}

// A sum over plain numbers: a proof about it need not look into a bank.
fn sum_of_five(a: u32, b: u32, c: u32, d: u32, e: u32) -> usize
    ensures { result ≡ a + b + c + d + e }
{
    a as usize + b as usize + c as usize + d as usize + e as usize
}

// The length of the store that five queues of these capacities need.
pub fn total_of(k: Counts) -> usize
    ensures { result ≡ total k }
{
    sum_of_five(k.cmd.0, k.cmdr.0, k.sdo.0, k.sdi.0, k.ibi.0)
}

// The parts of a state put together field by field: see `Five::by_field`.
fn regs_by_field(g: Regs) -> Regs
    ensures { result ≡ g }
{
    Regs {
        id: g.id,
        scratch: g.scratch,
        mask: g.mask,
        ops: g.ops,
        config: g.config,
        selected: g.selected,
        marks: g.marks.by_field(),
    }
}

fn control_by_field(c: Control) -> Control
    ensures { result ≡ c }
{
    let latest = Latest {
        cmdr: c.latest.cmdr,
        sdi: c.latest.sdi,
        ibi: c.latest.ibi,
    };
    Control {
        held: c.held,
        sync: c.sync,
        ibisync: c.ibisync,
        cmdrpending: c.cmdrpending,
        ibipending: c.ibipending,
        daapending: c.daapending,
        burst: c.burst,
        latest,
    }
}

impl State {
    // The same state, put together field by field.
    pub fn by_field(self) -> State
        ensures { result ≡ self }
    {
        State {
            caps: self.caps.by_field(),
            levels: self.levels.by_field(),
            regs: regs_by_field(self.regs),
            control: control_by_field(self.control),
            phase: self.phase,
        }
    }
}

// Whether bit `k` of a word is set.
pub fn bit(k: u32, v: u32) -> bool
    requires { k < 32 }
    ensures { result ≡ bit k v }
{
    v >> k & 1 == 1
}

// The free places of a queue (`room.read`).
pub fn room(cap: u32, level: u32) -> u32
    ensures { result ≡ cap - level }
{
    cap.saturating_sub(level)
}

// An entry of a table, or `none` past its end.
pub fn entry_at<T: Copy>(table: &[T], i: usize, none: T) -> T
    ensures { result ≡ get_or table.now i none }
{
    table.get(i).copied().unwrap_or(none)
}
