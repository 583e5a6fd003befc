// How long a line and each of its parts will be, so that a line is measured before a byte of it is written.
ghost use Rattle.std.specs.Prelude.{◌≡◌, min, ◌+◌, ◌≤◌, leb, length};
ghost use Rattle.report.specs.Texts.{decimal, ending_text, uids_text, packet_head, hall_line, refused_line, end_line, packet_line};

use crate::{DELIVERED, LINE_ROOM, PacketReport};
use hall::Hall;

// Whether a room of a length has so many bytes from a place on.
pub(crate) fn room_behind(length: usize, at: usize, wanted: usize) -> bool
    ensures { result ≡ leb (at + wanted) length }
{
    if length < wanted {
        return false;
    }
    at <= length - wanted
}

// The digits of a number in decimal, at most ten.
pub(crate) fn digits(v: u32) -> usize
    ensures length { result ≡ length (decimal v) }
    ensures most { result ≤ 10 }
{
    // Most numbers of a line are small, and one of a single digit takes no logarithm.
    if v < 10 {
        return 1;
    }
    v.ilog10() as usize + 1
}

// HALL and three numbers, a byte behind each.
pub(crate) fn hall_length(h: Hall) -> usize
    ensures { result ≡ length (hall_line h) }
{
    digits(h.n) + digits(h.k) + digits(h.b) + 8
}

// REFUSED and two numbers, a byte behind each.
pub(crate) fn refused_length(number: u32, place: u32) -> usize
    ensures { result ≡ length (refused_line number place) }
{
    digits(number) + digits(place) + 10
}

// END and a number, a byte behind each.
pub(crate) fn end_length(packets: u32) -> usize
    ensures { result ≡ length (end_line packets) }
{
    digits(packets) + 5
}

// DELIVERED, or DROP and its number, and a space.
fn ending_length(ending: u32) -> usize
    ensures length { result ≡ length (ending_text ending) }
    ensures most { result ≤ 15 }
{
    if ending == DELIVERED {
        return 10;
    }
    digits(ending) + 5
}

// Four numbers and an ending, a space behind each, and a colon.
fn head_length(p: PacketReport) -> usize
    ensures length { result ≡ length (packet_head p) }
    ensures most { result ≤ 60 }
{
    digits(p.source)
        + digits(p.dst)
        + ending_length(p.ending)
        + digits(p.links)
        + digits(p.reroutes)
        + 5
}

// Uids, a space before each.
fn uids_length(uids: &[u32]) -> usize
    requires { length uids.now ≤ 256 }
    ensures length { result ≡ length (uids_text uids.now) }
    ensures most { result ≤ 2816 }
{
    uids.iter().map(|uid| digits(*uid) + 1).sum()
}

// How many uids there are to tell of a packet that crossed so many links: at most 256, and no more than are given.
pub(crate) fn passed(links: u32, given: usize) -> usize
    ensures { result ≡ min (min (links + 1) 256) given }
{
    (links as usize + 1).min(256).min(given)
}

// A packet's line, to its newline.
fn packet_length(p: PacketReport, uids: &[u32]) -> usize
    ensures { result ≡ length (packet_line p uids.now) }
{
    head_length(p) + uids_length(&uids[..passed(p.links, uids.len())]) + 1
}

// Whether a room of a length has room for a packet's line from a place on: measured only where the longest line would not fit.
pub(crate) fn packet_fits(room: usize, at: usize, p: PacketReport, uids: &[u32]) -> bool
    ensures { result ≡ leb (at + length (packet_line p uids.now)) room }
{
    if room_behind(room, at, LINE_ROOM) {
        return true;
    }
    room_behind(room, at, packet_length(p, uids))
}
