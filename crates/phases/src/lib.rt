// What a phase says of the open transfer: specs/Phases.antt in code.
#![tactic(auto)]

ghost use Rattle.std.specs.Prelude.{◌≡◌, ◌<◌};
ghost use Rattle.bank.specs.Phases.{stage, idle, writing, reading, assigning, unrequested, requested, transfer, private, broadcast, unattached, limit, part_bytes};

use bank::{Kind, Phase, Transfer};
use ring::Bytes;

// ── Which phase ────────────────────────────────────────────────────────────────────────────────────────────────

pub fn is_idle(p: Phase) -> bool
    ensures { result ≡ idle p }
{
    matches!(p, Phase::Idle)
}

pub fn is_writing(p: Phase) -> bool
    ensures { result ≡ writing p }
{
    matches!(p, Phase::Writing(_))
}

pub fn is_reading(p: Phase) -> bool
    ensures { result ≡ reading p }
{
    matches!(p, Phase::Reading(_))
}

// An address assignment (ENTDAA), in any of its three states.
pub fn is_assigning(p: Phase) -> bool
    ensures { result ≡ assigning p }
{
    matches!(
        p,
        Phase::Unrequested(_) | Phase::Requested(_) | Phase::Answered(_)
    )
}

pub fn is_unrequested(p: Phase) -> bool
    ensures { result ≡ unrequested p }
{
    matches!(p, Phase::Unrequested(_))
}

pub fn is_requested(p: Phase) -> bool
    ensures { result ≡ requested p }
{
    matches!(p, Phase::Requested(_))
}

// The number of a phase, for an image. A variant has its transfer, so there is no `as`.
pub fn stage_of(p: Phase) -> u32
    ensures { result ≡ stage p }
{
    match p {
        Phase::Idle => 0,
        Phase::Writing(_) => 1,
        Phase::Reading(_) => 2,
        Phase::Unrequested(_) => 3,
        Phase::Requested(_) => 4,
        Phase::Answered(_) => 5,
    }
}

// ── The open transfer ──────────────────────────────────────────────────────────────────────────────────────────

pub fn is_private(k: Kind) -> bool
    ensures { result ≡ private k }
{
    matches!(k, Kind::Private)
}

pub fn is_broadcast(k: Kind) -> bool
    ensures { result ≡ broadcast k }
{
    matches!(k, Kind::Broadcast)
}

// The open transfer, or one of zeros.
pub fn transfer_of(p: Phase) -> Transfer
    ensures { result ≡ transfer p }
{
    match p {
        Phase::Idle => Transfer {
            kind: Kind::Private,
            header: false,
            length: Bytes(0),
            moved: Bytes(0),
            attached: false,
            part: 0,
        },
        Phase::Writing(t)
        | Phase::Reading(t)
        | Phase::Unrequested(t)
        | Phase::Requested(t)
        | Phase::Answered(t) => t,
    }
}

// Whether the transfer has a device, and that was not attached when it opened (`start.attached`).
pub fn is_unattached(p: Phase) -> bool
    ensures { result ≡ unattached p }
{
    let t = transfer_of(p);
    !is_assigning(p) & !is_broadcast(t.kind) & !t.attached
}

// The most bytes that the transfer may have moved (`formed.moved`).
pub fn limit_of(p: Phase) -> Bytes
    ensures { result.0 ≡ limit p }
{
    let none = is_assigning(p) | is_unattached(p);
    bank::select(none, Bytes(0), transfer_of(p).length)
}

// The bytes that the part word has outside a burst (`formed.part`).
pub fn part_bytes(p: Phase) -> Bytes
    ensures { (result.0 ≡ part_bytes p) × (result.0 < 4) }
{
    let over = transfer_of(p).moved.0 % 4;
    Bytes(bank::select(is_reading(p), over, (4 - over) % 4))
}
