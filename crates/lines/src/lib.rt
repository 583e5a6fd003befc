// The lines of a trace: what a sheet's trace says first, and the journey of each of its packets.

#![tactic(auto)]

ghost use Rattle.std.specs.Prelude.{◌≡◌, ◌-◌, ◌≤◌, ◌<◌, length};
ghost use Rattle.words.specs.Rooms.{put, room_of};
ghost use Rattle.sheet.specs.Answers.{sheet_of};
ghost use Rattle.forward.specs.Answers.{journey_told, journey_stated};
ghost use Rattle.report.specs.Rooms.{written_of, written_stated};
ghost use Rattle.report.specs.Texts.{packet_line};
ghost use Rattle.lines.specs.Traces.{opening_text, journey_at, report_of, journey_text, journey_refusal, unless_written, unless_room, written_by_number, line_count, line_text, fitting_text, fitting_piece, piece_of, piece_told, piece_stated, room_piece};

use forward::{Journey, Packet};
use hall::refusals::Refusal;
use report::PacketReport;
use sheet::Sheet;
use sheetparts::SheetPacket;

// The first line of a trace that is not written, and the place behind the text that is.
#[derive(Clone, Copy)]
pub struct Piece {
    pub next: u32,
    pub end: usize,
}

// The first line, by what reading the sheet answered: its hall, or its refusal.
pub fn opening_line(room: &mut [u8], at: usize, read: Sheet) -> Result<usize, Refusal>
    ensures answer { written_stated result ≡ written_of room.old at (opening_text read) }
    ensures room { room.new ≡ room_of room.old at (opening_text read) }
{
    if read.refusal != 0 {
        return report::refused_line(room, at, read.refusal, read.place);
    }
    report::hall_line(room, at, read.hall)
}

// The journey of packet i, which has no proxy.
fn journey_at(sheet: &[u8], read: Sheet, i: u32) -> Result<Journey, Refusal>
    ensures { journey_stated result ≡ journey_at sheet.now read i }
{
    let p = sheetparts::packet_fields(sheet, i);
    let packet = Packet {
        dst: p.dst,
        has_proxy: false,
        proxy: 0,
        retry: p.retry,
        ttl: p.ttl,
    };
    forward::journey_of(read.hall, p.source, packet, sheetparts::codes_part(sheet))
}

// The line of a packet and its journey.
fn told_line(room: &mut [u8], at: usize, p: SheetPacket, j: &Journey) -> Result<usize, Refusal>
    ensures answer { written_stated result ≡ written_of room.old at (packet_line (report_of p (journey_told j.now)) j.now.uids) }
    ensures room { room.new ≡ room_of room.old at (packet_line (report_of p (journey_told j.now)) j.now.uids) }
{
    let told = PacketReport {
        source: p.source,
        dst: p.dst,
        ending: j.ending.number(),
        links: j.links,
        reroutes: j.reroutes,
    };
    report::packet_line(room, at, told, &j.uids)
}

// The line of packet i's journey, for whoever has read the sheet. A refusal is told by its number, since a `Sheet` may have any.
pub fn journey_line(
    room: &mut [u8],
    at: usize,
    sheet: &[u8],
    read: Sheet,
    i: u32,
) -> Result<usize, u32>
    ensures answer { written_by_number result ≡ unless_written (journey_refusal sheet.now read i) room.old at (journey_text sheet.now read i) }
    ensures room { room.new ≡ unless_room (journey_refusal sheet.now read i) room.old at (journey_text sheet.now read i) }
{
    if read.refusal != 0 {
        return Err(read.refusal);
    }
    if read.packets <= i {
        return Err(Refusal::BadRange.number());
    }
    let p = sheetparts::packet_fields(sheet, i);
    match &journey_at(sheet, read, i) {
        Ok(j) => told_line(room, at, p, j).map_err(Refusal::number),
        Err(refusal) => Err(refusal.number()),
    }
}

// The line of packet i's journey of an accepted sheet, which refuses none.
fn told_at(room: &mut [u8], at: usize, sheet: &[u8], read: Sheet, i: u32) -> Result<usize, Refusal>
    requires { (read ≡ sheet_of sheet.now) × (read.refusal ≡ 0) × (i < read.packets) }
    ensures answer { written_stated result ≡ written_of room.old at (journey_text sheet.now read i) }
    ensures room { room.new ≡ room_of room.old at (journey_text sheet.now read i) }
{
    let p = sheetparts::packet_fields(sheet, i);
    // A journey is looked at where it lies, since it is large.
    let Ok(j) = &journey_at(sheet, read, i) else {
        unreachable!()
    };
    told_line(room, at, p, j)
}

// Line i of a sheet's trace.
fn line_at(room: &mut [u8], at: usize, sheet: &[u8], read: Sheet, i: u32) -> Result<usize, Refusal>
    requires { (read ≡ sheet_of sheet.now) × (i < line_count read) }
    ensures answer { written_stated result ≡ written_of room.old at (line_text sheet.now read i) }
    ensures room { room.new ≡ room_of room.old at (line_text sheet.now read i) }
{
    if i == 0 {
        return opening_line(room, at, read);
    }
    if i <= read.packets {
        return told_at(room, at, sheet, read, i - 1);
    }
    report::end_line(room, at, read.packets)
}

// The lines that a trace has.
fn line_count(read: Sheet) -> u32
    requires { read.refusal ≡ 0 → read.packets ≤ 65536 }
    ensures { result ≡ line_count read }
{
    if read.refusal != 0 {
        return 1;
    }
    read.packets + 2
}

// As many whole lines as fit the room, from a line on, of so many that there are: the first that is not written, and the place behind the text.
fn put_lines(room: &mut [u8], sheet: &[u8], read: Sheet, from: u32, count: u32) -> Piece
    requires { (read ≡ sheet_of sheet.now) × (count ≡ line_count read) × (from ≤ count) }
    ensures answer { piece_told result ≡ fitting_piece sheet.now read (length room.old) from (count - from) }
    ensures room { room.new ≡ put room.old 0 (fitting_text sheet.now read (length room.old) from (count - from)) }
{
    let mut end: usize = 0;
    for next in from..count {
        let Ok(behind) = line_at(room, end, sheet, read, next) else {
            return Piece { next, end };
        };
        end = behind;
    }
    Piece { next: count, end }
}

// As many whole lines of a sheet's trace as fit the room, from line `from` on: the first line that is not written, and the place behind the text.
pub fn trace_piece(room: &mut [u8], sheet: &[u8], from: u32) -> Result<Piece, Refusal>
    ensures answer { piece_stated result ≡ piece_of sheet.now from room.old }
    ensures room { room.new ≡ room_piece sheet.now from room.old }
{
    let read = sheet::read_sheet(sheet);
    let count = line_count(read);
    if count <= from {
        return Err(Refusal::BadRange);
    }
    let piece = put_lines(room, sheet, read, from, count);
    if piece.next == from {
        return Err(Refusal::ShortRoom);
    }
    Ok(piece)
}
