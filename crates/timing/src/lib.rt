// What `timing_list` and `timing_each` share: the bank that they set up, and where the last answer goes.
#![tactic(auto)]

ghost use Rattle.std.specs.Prelude.{◌≡◌};
ghost use Rattle.timing.specs.Timing.{fresh_of, kept_in};

use bank::{Answer, Bank};
use queues::Five;

// A bank with queues of `cap` words, the watermark 1 for CMD and SDO, one less than `cap` for the other three, and ID
// 0.
pub fn fresh(cap: u32) -> Bank
    ensures { result ≡ fresh_of cap }
{
    let caps = Five {
        cmd: cap,
        cmdr: cap,
        sdo: cap,
        sdi: cap,
        ibi: cap,
    };
    let most = cap.saturating_sub(1);
    let marks = Five {
        cmd: 1,
        cmdr: most,
        sdo: 1,
        sdi: most,
        ibi: most,
    };
    setup::set_up(caps, marks, 0).bank
}

// The last answer, where there is room for it.
pub fn keep(last: &mut [u32], a: Answer)
    ensures { last.new ≡ kept_in last.old a }
{
    if 1 < last.len() {
        last[0] = a.value;
        last[1] = a.number;
    }
}
