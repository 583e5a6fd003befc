// The parts of a line, each written at a place of a room that has enough behind it; answered is the next place.
ghost use Rattle.std.specs.Prelude.{◌≡◌, ◌+◌, ◌≤◌, length};
ghost use Rattle.report.specs.Texts.{decimal, number_with, ending_text, packet_head, uids_text};
ghost use Rattle.words.specs.Rooms.{put};

use crate::lengths::digits;
use crate::{DELIVERED, PacketReport};

const DIGIT_ZERO: u32 = 48;

const SPACE: u8 = 32;

const COLON: u8 = 58;

// A text.
pub(crate) fn put_bytes(room: &mut [u8], at: usize, text: &[u8]) -> usize
    requires { at + length text.now ≤ length room.old }
    ensures next { result ≡ at + length text.now }
    ensures room { room.new ≡ put room.old at text.now }
{
    words::put_bytes(room, at, text);
    at + text.len()
}

// A number in decimal, from its first digit on.
pub(crate) fn put_number(room: &mut [u8], at: usize, v: u32) -> usize
    requires { at + length (decimal v) ≤ length room.old }
    ensures next { result ≡ at + length (decimal v) }
    ensures room { room.new ≡ put room.old at (decimal v) }
{
    if v < 10 {
        room[at] = (DIGIT_ZERO + v) as u8;
        return at + 1;
    }
    let next = at + digits(v);
    itoa::write_digits(u64::from(v), room, next);
    next
}

// A number in decimal with a byte behind it.
pub(crate) fn put_with(room: &mut [u8], at: usize, v: u32, behind: u8) -> usize
    requires { at + length (number_with behind v) ≤ length room.old }
    ensures next { result ≡ at + length (number_with behind v) }
    ensures room { room.new ≡ put room.old at (number_with behind v) }
{
    let next = put_number(room, at, v);
    room[next] = behind;
    next + 1
}

// An ending: DELIVERED, or DROP and its number.
pub(crate) fn put_ending(room: &mut [u8], at: usize, ending: u32) -> usize
    requires { at + length (ending_text ending) ≤ length room.old }
    ensures next { result ≡ at + length (ending_text ending) }
    ensures room { room.new ≡ put room.old at (ending_text ending) }
{
    if ending == DELIVERED {
        return put_bytes(room, at, b"DELIVERED ");
    }
    let number_at = put_bytes(room, at, b"DROP");
    put_with(room, number_at, ending, SPACE)
}

// Uids, a space before each.
pub(crate) fn put_uids(room: &mut [u8], at: usize, uids: &[u32]) -> usize
    requires { at + length (uids_text uids.now) ≤ length room.old }
    ensures next { result ≡ at + length (uids_text uids.now) }
    ensures room { room.new ≡ put room.old at (uids_text uids.now) }
{
    let mut next = at;
    for uid in uids {
        room[next] = SPACE;
        next = put_number(room, next + 1, *uid);
    }
    next
}

// A packet's line up to its colon.
pub(crate) fn put_packet(room: &mut [u8], at: usize, p: PacketReport) -> usize
    requires { at + length (packet_head p) ≤ length room.old }
    ensures next { result ≡ at + length (packet_head p) }
    ensures room { room.new ≡ put room.old at (packet_head p) }
{
    let dst_at = put_with(room, at, p.source, SPACE);
    let ending_at = put_with(room, dst_at, p.dst, SPACE);
    let links_at = put_ending(room, ending_at, p.ending);
    let reroutes_at = put_with(room, links_at, p.links, SPACE);
    let colon_at = put_with(room, reroutes_at, p.reroutes, SPACE);
    room[colon_at] = COLON;
    colon_at + 1
}
