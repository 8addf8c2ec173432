// Encoding and decoding, of a frame alone and of woven frames. The calls take any number for the setting: the questions are asked here.
#![tactic(auto)]

pub mod decode;
pub mod encode;
pub mod woven;
