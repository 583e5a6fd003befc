// A frame's header read off the wire, the payload behind it, and the next identification.

#![tactic(auto)]

pub mod addresses;
pub mod checksum;
pub mod layout;
mod reading;

ghost use Rattle.std.specs.Prelude.{◌≡◌};
ghost use Rattle.frame.specs.Reading.{read_frame, header_stated, payload_of, next_identification};

use crate::layout::{BITS_4, BITS_16, DHL_AT, WORDS, word_at};
use crate::reading::{fault_of, fields_refusal, frame_refusal, header_of, place_of};
use hall::refusals::Fault;

// What a frame says. The header's length is in bytes.
#[derive(Clone, Copy)]
pub struct Header {
    pub protocol: u32,
    pub payload_length: u32,
    pub identification: u32,
    pub retry: u32,
    pub ttl: u32,
    pub source: u32,
    pub destination: u32,
    pub proxy: Option<u32>,
    pub header_length: u32,
}

// A frame's fields, or its refusal: the place is the first byte of the field that a refusal of 13 to 16 is about, and 0 with every other.
pub fn read_frame(frame: &[u8]) -> Result<Header, Fault>
    ensures { header_stated result ≡ read_frame frame.now }
{
    match frame_refusal(frame) {
        Ok(()) => Ok(header_of(frame)),
        Err(refusal) => Err(fault_of(refusal)),
    }
}

// The place of a frame's refusal, 0 where it tells none or the frame is accepted.
pub fn header_place(frame: &[u8]) -> u32
    ensures { result ≡ (read_frame frame.now).place }
{
    if frame.len() < 4 * WORDS {
        return 0;
    }
    match fields_refusal(frame) {
        Ok(()) => 0,
        Err(refusal) => place_of(refusal),
    }
}

// A frame's payload, as a part of the frame; an empty part where it is refused.
pub fn payload_of(frame: &[u8]) -> &[u8]
    ensures { result.now ≡ payload_of frame.now }
{
    if frame_refusal(frame).is_err() {
        return &frame[..0];
    }
    let first = word_at(frame, 0);
    let start = 4 * (first / DHL_AT % BITS_4) as usize;
    let length = (first % BITS_16) as usize;
    let rest = &frame[start..];
    &rest[..length]
}

// The identification after a given one.
pub fn next_identification(id: u32) -> u32
    ensures { result ≡ next_identification id }
{
    id.wrapping_add(1)
}
