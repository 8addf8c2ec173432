// The functions on woven frames that a C program calls (include/orderlink.h), thin over the proved library.
ghost use Rattle.weave.specs.Weaving.{woven, unwoven, Laid};
ghost use Rattle.link.specs.Woven.{DecodedWoven};

use link::woven::WovenAnswer;
use question::answer::{Answer, Counts};

// struct orderlink_answer orderlink_weave(uint64_t setting, uint64_t frames, const uint8_t *in, size_t in_len,
//                                         uint8_t *out, size_t out_len);
// Weaves frames that lie one after another; the out area is unchanged after a refusal.
#[unsafe(no_mangle)]
pub extern "C" fn orderlink_weave(
    setting: u64,
    frames: u64,
    incoming: &[u8],
    out: &mut [u8],
) -> Answer
    ensures { Laid setting frames incoming.now (woven frames incoming.now) out.old result out.new }
{
    Answer::from(weave::weave(setting, frames, incoming, out).map(|()| Counts::default()))
}

// struct orderlink_answer orderlink_unweave(uint64_t setting, uint64_t frames, const uint8_t *in, size_t in_len,
//                                           uint8_t *out, size_t out_len);
// The frames of a woven area, one after another; the out area is unchanged after a refusal.
#[unsafe(no_mangle)]
pub extern "C" fn orderlink_unweave(
    setting: u64,
    frames: u64,
    incoming: &[u8],
    out: &mut [u8],
) -> Answer
    ensures { Laid setting frames incoming.now (unwoven frames incoming.now) out.old result out.new }
{
    Answer::from(weave::unweave(setting, frames, incoming, out).map(|()| Counts::default()))
}

// struct orderlink_woven orderlink_decode_woven(uint64_t setting, uint64_t frames, const uint8_t *reception, size_t reception_len,
//                                               uint8_t *message, size_t message_len,
//                                               uint8_t *transmission, size_t transmission_len);
// Decodes the frames of a woven area; both areas are unchanged after a refusal, and hold zeros in the places of a frame that no message fits.
#[unsafe(no_mangle)]
pub extern "C" fn orderlink_decode_woven(
    setting: u64,
    frames: u64,
    reception: &[u8],
    message: &mut [u8],
    transmission: &mut [u8],
) -> WovenAnswer
    ensures { DecodedWoven setting frames reception.now message.old transmission.old result message.new transmission.new }
{
    WovenAnswer::from(link::woven::decode_woven(setting, frames, reception, message, transmission))
}
