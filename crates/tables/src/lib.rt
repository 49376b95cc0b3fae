// The tables of a bank where they lie, as one value: what decisions are given of them. It knows no call.
#![tactic(auto)]

// The flags of the 128 devices (`device.flags`), the offload commands and the offload data words (`offload.keeps`).
#[derive(Clone, Copy)]
pub struct Tables<'a> {
    pub flags: &'a [u8; 128],
    pub commands: &'a [u32; 16],
    pub payloads: &'a [u32; 16],
}
