// The trace's text, line by line, written to lent room.

#![tactic(auto)]

mod lengths;
mod puts;

ghost use Rattle.std.specs.Prelude.{◌≡◌};
ghost use Rattle.report.specs.Texts.{hall_line, refused_line, end_line, packet_line};
ghost use Rattle.words.specs.Rooms.{room_of};
ghost use Rattle.report.specs.Rooms.{written_of, written_stated};

use crate::lengths::{end_length, hall_length, packet_fits, passed, refused_length, room_behind};
use crate::puts::{put_bytes, put_packet, put_uids, put_with};
use forward::endings::Ending;
use hall::Hall;
use hall::refusals::Refusal;

// The room that the longest line wants from its place on.
pub const LINE_ROOM: usize = 2877;

const SPACE: u8 = 32;

const NEWLINE: u8 = 10;

// The ending that is told by a word of its own.
const DELIVERED: u32 = Ending::Delivered as u32;

// What became of a packet. Its ending is a number, since a C program tells any.
#[derive(Clone, Copy)]
pub struct PacketReport {
    pub source: u32,
    pub dst: u32,
    pub ending: u32,
    pub links: u32,
    pub reroutes: u32,
}

// `HALL n k b`.
pub fn hall_line(room: &mut [u8], at: usize, h: Hall) -> Result<usize, Refusal>
    ensures answer { written_stated result ≡ written_of room.old at (hall_line h) }
    ensures room { room.new ≡ room_of room.old at (hall_line h) }
{
    if !room_behind(room.len(), at, hall_length(h)) {
        return Err(Refusal::ShortRoom);
    }
    let n_at = put_bytes(room, at, b"HALL ");
    let k_at = put_with(room, n_at, h.n, SPACE);
    let b_at = put_with(room, k_at, h.k, SPACE);
    let end = put_with(room, b_at, h.b, NEWLINE);
    Ok(end)
}

// `REFUSED number place`.
pub fn refused_line(room: &mut [u8], at: usize, number: u32, place: u32) -> Result<usize, Refusal>
    ensures answer { written_stated result ≡ written_of room.old at (refused_line number place) }
    ensures room { room.new ≡ room_of room.old at (refused_line number place) }
{
    if !room_behind(room.len(), at, refused_length(number, place)) {
        return Err(Refusal::ShortRoom);
    }
    let number_at = put_bytes(room, at, b"REFUSED ");
    let place_at = put_with(room, number_at, number, SPACE);
    let end = put_with(room, place_at, place, NEWLINE);
    Ok(end)
}

// `END packets`.
pub fn end_line(room: &mut [u8], at: usize, packets: u32) -> Result<usize, Refusal>
    ensures answer { written_stated result ≡ written_of room.old at (end_line packets) }
    ensures room { room.new ≡ room_of room.old at (end_line packets) }
{
    if !room_behind(room.len(), at, end_length(packets)) {
        return Err(Refusal::ShortRoom);
    }
    let packets_at = put_bytes(room, at, b"END ");
    let end = put_with(room, packets_at, packets, NEWLINE);
    Ok(end)
}

// `source dst ENDING links reroutes : uids`, with one uid more than links.
pub fn packet_line(
    room: &mut [u8],
    at: usize,
    p: PacketReport,
    uids: &[u32],
) -> Result<usize, Refusal>
    ensures answer { written_stated result ≡ written_of room.old at (packet_line p uids.now) }
    ensures room { room.new ≡ room_of room.old at (packet_line p uids.now) }
{
    if !packet_fits(room.len(), at, p, uids) {
        return Err(Refusal::ShortRoom);
    }
    let uids_at = put_packet(room, at, p);
    let newline_at = put_uids(room, uids_at, &uids[..passed(p.links, uids.len())]);
    room[newline_at] = NEWLINE;
    Ok(newline_at + 1)
}
