// The calls about the lines of a trace for a caller outside of Rattle, on plain numbers and slices.

#![tactic(auto)]

ghost use Rattle.std.specs.Prelude.{◌≡◌};
ghost use Rattle.sheet.specs.Answers.{sheet_of};
ghost use Rattle.report.specs.Texts.{hall_line, refused_line, end_line, packet_line};
ghost use Rattle.words.specs.Rooms.{room_of};
ghost use Rattle.report.specs.Rooms.{written_of, written_stated};
ghost use Rattle.lines.specs.Traces.{opening_text, journey_text, journey_refusal, unless_written, unless_room, piece_of, room_piece};
ghost use Rattle.hall.specs.Halls.{hall_of};
ghost use Rattle.calls_lines.specs.Outcomes.{report_of, end_of, next_told, end_told};

use hall::Hall;
use hall::refusals::Refusal;
use report::PacketReport;

// A line's refusal, whose number is returned; the place behind the line is told where there is none, and 0 returned.
fn tell_end(line: Result<usize, Refusal>, end: &mut usize) -> u32
    ensures number { result ≡ (written_stated line).refusal }
    ensures end { end.new ≡ end_of (written_stated line) end.old }
{
    match line {
        Ok(place) => {
            *end = place;
            0
        }
        Err(refusal) => refusal.number(),
    }
}

pub fn calls_opening_line(sheet: &[u8], at: usize, room: &mut [u8], end: &mut usize) -> u32
    ensures number { result ≡ (written_of room.old at (opening_text (sheet_of sheet.now))).refusal }
    ensures room { room.new ≡ room_of room.old at (opening_text (sheet_of sheet.now)) }
    ensures end { end.new ≡ end_of (written_of room.old at (opening_text (sheet_of sheet.now))) end.old }
{
    let read = sheet::read_sheet(sheet);
    tell_end(lines::opening_line(room, at, read), end)
}

pub fn calls_journey_line(sheet: &[u8], i: u32, at: usize, room: &mut [u8], end: &mut usize) -> u32
    ensures number { result ≡ (unless_written (journey_refusal sheet.now (sheet_of sheet.now) i) room.old at (journey_text sheet.now (sheet_of sheet.now) i)).refusal }
    ensures room { room.new ≡ unless_room (journey_refusal sheet.now (sheet_of sheet.now) i) room.old at (journey_text sheet.now (sheet_of sheet.now) i) }
    ensures end { end.new ≡ end_of (unless_written (journey_refusal sheet.now (sheet_of sheet.now) i) room.old at (journey_text sheet.now (sheet_of sheet.now) i)) end.old }
{
    let read = sheet::read_sheet(sheet);
    match lines::journey_line(room, at, sheet, read, i) {
        Ok(behind) => {
            *end = behind;
            0
        }
        Err(number) => number,
    }
}

pub fn calls_end_line(packets: u32, at: usize, room: &mut [u8], end: &mut usize) -> u32
    ensures number { result ≡ (written_of room.old at (end_line packets)).refusal }
    ensures room { room.new ≡ room_of room.old at (end_line packets) }
    ensures end { end.new ≡ end_of (written_of room.old at (end_line packets)) end.old }
{
    tell_end(report::end_line(room, at, packets), end)
}

pub fn calls_hall_line(
    n: u32,
    k: u32,
    b: u32,
    count: u32,
    at: usize,
    room: &mut [u8],
    end: &mut usize,
) -> u32
    ensures number { result ≡ (written_of room.old at (hall_line (hall_of n k b count))).refusal }
    ensures room { room.new ≡ room_of room.old at (hall_line (hall_of n k b count)) }
    ensures end { end.new ≡ end_of (written_of room.old at (hall_line (hall_of n k b count))) end.old }
{
    tell_end(report::hall_line(room, at, Hall { n, k, b, count }), end)
}

pub fn calls_refused_line(
    number: u32,
    place: u32,
    at: usize,
    room: &mut [u8],
    end: &mut usize,
) -> u32
    ensures number { result ≡ (written_of room.old at (refused_line number place)).refusal }
    ensures room { room.new ≡ room_of room.old at (refused_line number place) }
    ensures end { end.new ≡ end_of (written_of room.old at (refused_line number place)) end.old }
{
    tell_end(report::refused_line(room, at, number, place), end)
}

pub fn calls_packet_line(
    source: u32,
    dst: u32,
    ending: u32,
    links: u32,
    reroutes: u32,
    uids: &[u32],
    at: usize,
    room: &mut [u8],
    end: &mut usize,
) -> u32
    ensures number { result ≡ (written_of room.old at (packet_line (report_of source dst ending links reroutes) uids.now)).refusal }
    ensures room { room.new ≡ room_of room.old at (packet_line (report_of source dst ending links reroutes) uids.now) }
    ensures end { end.new ≡ end_of (written_of room.old at (packet_line (report_of source dst ending links reroutes) uids.now)) end.old }
{
    let told = PacketReport {
        source,
        dst,
        ending,
        links,
        reroutes,
    };
    tell_end(report::packet_line(room, at, told, uids), end)
}

pub fn calls_trace_piece(
    sheet: &[u8],
    from: u32,
    room: &mut [u8],
    next: &mut u32,
    end: &mut usize,
) -> u32
    ensures number { result ≡ (piece_of sheet.now from room.old).refusal }
    ensures room { room.new ≡ room_piece sheet.now from room.old }
    ensures next { next.new ≡ next_told (piece_of sheet.now from room.old) next.old }
    ensures end { end.new ≡ end_told (piece_of sheet.now from room.old) end.old }
{
    let piece = match lines::trace_piece(room, sheet, from) {
        Ok(piece) => piece,
        Err(refusal) => return refusal.number(),
    };
    *next = piece.next;
    *end = piece.end;
    0
}
