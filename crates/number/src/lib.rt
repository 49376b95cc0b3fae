// Why a call is refused, with the number of the answer, by the names that header, bindings and docs/ANSWERS.md have for
// them. 0 is done and is no refusal. Of 19 alone the call is made all the same (`take.address`).
#![tactic(auto)]

ghost use Rattle.std.specs.Prelude.{◌≡◌};
ghost use Rattle.number.specs.Refusals.{number_of};

#[derive(Clone, Copy, PartialEq, Eq)]
pub enum Refusal {
    // A word written to a full CMD or SDO was dropped.
    DroppedFull = 1,
    // A write to a read-only register was dropped.
    DroppedReadOnly = 2,
    // The queue that was read is empty.
    Empty = 3,
    // No register there.
    NoRegister = 4,
    // Held in reset.
    HeldInReset = 5,
    // A transfer is open.
    TransferOpen = 6,
    // No transfer is open.
    NoTransfer = 7,
    // Not in this mode.
    NotInThisMode = 8,
    // No whole command waits.
    NoCommand = 9,
    // Not with this transfer, or not now.
    NotThisKind = 10,
    // Commanded length reached.
    LengthReached = 11,
    // SDO is empty.
    SdoEmpty = 12,
    // No room in the receiving queue or in the output.
    NoRoom = 13,
    // Ending not allowed here.
    EndingNotAllowed = 14,
    // SDO not empty at the start of ENTDAA.
    SdoNotEmpty = 15,
    // Interrupt request not heard.
    NotHeard = 16,
    // Interrupt request not acknowledged.
    NotAcknowledged = 17,
    // Argument out of range.
    OutOfRange = 18,
    // The address word had a wrong parity bit.
    WrongParity = 19,
    // The transfer's device is not attached.
    NotAttached = 20,
    // The bank is not well formed.
    NotWellFormed = 21,
    // The store has another length.
    StoreLength = 22,
    // A set-up number is out of range.
    SetUpOutOfRange = 23,
    // The trace's mark is wrong.
    WrongMark = 24,
    // The trace's table or length is wrong.
    WrongTable = 25,
    // The trace has no such section.
    NoSuchSection = 26,
    // A record of the trace is wrong.
    WrongRecord = 27,
    // The burst has no commands.
    BurstHasNoCommands = 28,
    // A command of the burst is not carried.
    NotCarried = 29,
    // The watermark written is above the capacity of its queue: dropped.
    WatermarkAboveCapacity = 30,
}

impl From<Refusal> for u32 {
    ghost from_gives = { λ why n. n ≡ number_of why };

    fn from(why: Refusal) -> u32 {
        why as u32
    }
}
