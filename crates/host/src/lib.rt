// The functions that a C program calls (include/orderlink.h), thin over the proved library: the three of 01 here, those of 02 each in a module of its own.
// They take and give what C has: numbers, areas of bytes and structs, where the library has enums and results.
#![tactic(auto)]

pub mod woven;

ghost use Rattle.display.specs.Marks.{Marked};
ghost use Rattle.link.specs.Encoding.{Encoded};
ghost use Rattle.link.specs.Decoding.{Decoded};

use display::Marks;
use question::answer::{Answer, Counts};

// struct orderlink_answer orderlink_encode(uint64_t setting, const uint8_t *message, size_t message_len,
//                                          uint8_t *transmission, size_t transmission_len);
// Encodes a message; the transmission area holds its transmission, or is unchanged after a refusal.
#[unsafe(no_mangle)]
pub extern "C" fn orderlink_encode(setting: u64, message: &[u8], transmission: &mut [u8]) -> Answer
    ensures { Encoded setting message.now transmission.old result transmission.new }
{
    Answer::from(link::encode::encode(setting, message, transmission).map(|()| Counts::default()))
}

// struct orderlink_answer orderlink_decode(uint64_t setting, const uint8_t *reception, size_t reception_len,
//                                          uint8_t *message, size_t message_len,
//                                          uint8_t *transmission, size_t transmission_len);
// Decodes a reception; the areas hold the message that fits and its transmission, zeros if no message fits, or are unchanged after a refusal.
#[unsafe(no_mangle)]
pub extern "C" fn orderlink_decode(
    setting: u64,
    reception: &[u8],
    message: &mut [u8],
    transmission: &mut [u8],
) -> Answer
    ensures { Decoded setting reception.now message.old transmission.old result message.new transmission.new }
{
    Answer::from(link::decode::decode(setting, reception, message, transmission))
}

// struct orderlink_marks orderlink_marks(uint64_t setting, const uint8_t *reception, size_t reception_len,
//                                        const uint8_t *transmission, size_t transmission_len, uint64_t j);
// Marks the differences of a reception and a transmission in window j, and the unknown symbols.
#[unsafe(no_mangle)]
pub extern "C" fn orderlink_marks(
    setting: u64,
    reception: &[u8],
    transmission: &[u8],
    j: u64,
) -> Marks
    ensures { Marked setting reception.now transmission.now j result }
{
    Marks::from(display::mark::marks(setting, reception, transmission, j))
}
