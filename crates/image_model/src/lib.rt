// A bank as an image, a list of words. specs/ has the words of a bank, the bank that words say, and which words are an
// image; proofs/ has their laws. No function is here.
#![tactic(auto)]

// How many words an image has.
pub const SIZE: usize = 43;

// The words of an image. What takes one asks for no length: the archive's calls, which are lent any slice, test it once.
pub type Image = [u32; SIZE];
