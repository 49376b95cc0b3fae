// Every rule on calls, as definitions: what a call decides by, what it decides, and two engines that carry it out, on
// rings in a lent store and on plain lists; their laws, and demand 3 of paper 00. The only code is the type of a call.
#![tactic(auto)]

// A call: a register read or write (01, 'Register map'), one of the seven events (01, 'Bus events'), or the trigger of
// an offload burst (`trigger.opens`).
#[derive(Clone, Copy)]
pub enum Call {
    // Offset.
    Read(u16),
    // Offset, value.
    Write(u16, u32),
    Start,
    Send,
    // Byte.
    Receive(u8),
    // Code.
    Finish(u8),
    // Address, byte.
    Interrupt(u8, u8),
    // Two words.
    Request(u32, u32),
    Take,
    Trigger,
}
