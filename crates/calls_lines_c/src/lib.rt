// What a C program calls of the crate calls_lines: each of its functions, with the same clauses.

#![tactic(auto)]

ghost use Rattle.std.specs.Prelude.{◌≡◌};
ghost use Rattle.sheet.specs.Answers.{sheet_of};
ghost use Rattle.report.specs.Texts.{hall_line, refused_line, end_line, packet_line};
ghost use Rattle.words.specs.Rooms.{room_of};
ghost use Rattle.report.specs.Rooms.{written_of};
ghost use Rattle.lines.specs.Traces.{opening_text, journey_text, journey_refusal, unless_written, unless_room, piece_of, room_piece};
ghost use Rattle.hall.specs.Halls.{hall_of};
ghost use Rattle.calls_lines.specs.Outcomes.{report_of, end_of, next_told, end_told};

#[unsafe(no_mangle)]
pub extern "C" fn calls_opening_line(
    sheet: &[u8],
    at: usize,
    room: &mut [u8],
    end: &mut usize,
) -> u32
    ensures number { result ≡ (written_of room.old at (opening_text (sheet_of sheet.now))).refusal }
    ensures room { room.new ≡ room_of room.old at (opening_text (sheet_of sheet.now)) }
    ensures end { end.new ≡ end_of (written_of room.old at (opening_text (sheet_of sheet.now))) end.old }
{
    calls_lines::calls_opening_line(sheet, at, room, end)
}

#[unsafe(no_mangle)]
pub extern "C" fn calls_journey_line(
    sheet: &[u8],
    i: u32,
    at: usize,
    room: &mut [u8],
    end: &mut usize,
) -> u32
    ensures number { result ≡ (unless_written (journey_refusal sheet.now (sheet_of sheet.now) i) room.old at (journey_text sheet.now (sheet_of sheet.now) i)).refusal }
    ensures room { room.new ≡ unless_room (journey_refusal sheet.now (sheet_of sheet.now) i) room.old at (journey_text sheet.now (sheet_of sheet.now) i) }
    ensures end { end.new ≡ end_of (unless_written (journey_refusal sheet.now (sheet_of sheet.now) i) room.old at (journey_text sheet.now (sheet_of sheet.now) i)) end.old }
{
    calls_lines::calls_journey_line(sheet, i, at, room, end)
}

#[unsafe(no_mangle)]
pub extern "C" fn calls_end_line(packets: u32, at: usize, room: &mut [u8], end: &mut usize) -> u32
    ensures number { result ≡ (written_of room.old at (end_line packets)).refusal }
    ensures room { room.new ≡ room_of room.old at (end_line packets) }
    ensures end { end.new ≡ end_of (written_of room.old at (end_line packets)) end.old }
{
    calls_lines::calls_end_line(packets, at, room, end)
}

#[unsafe(no_mangle)]
pub extern "C" fn calls_hall_line(
    n: u32,
    k: u32,
    b: u32,
    count: u32,
    at: usize,
    room: &mut [u8],
    end: &mut usize,
) -> u32
    ensures number { result ≡ (written_of room.old at (hall_line (hall_of n k b count))).refusal }
    ensures room { room.new ≡ room_of room.old at (hall_line (hall_of n k b count)) }
    ensures end { end.new ≡ end_of (written_of room.old at (hall_line (hall_of n k b count))) end.old }
{
    calls_lines::calls_hall_line(n, k, b, count, at, room, end)
}

#[unsafe(no_mangle)]
pub extern "C" fn calls_refused_line(
    number: u32,
    place: u32,
    at: usize,
    room: &mut [u8],
    end: &mut usize,
) -> u32
    ensures number { result ≡ (written_of room.old at (refused_line number place)).refusal }
    ensures room { room.new ≡ room_of room.old at (refused_line number place) }
    ensures end { end.new ≡ end_of (written_of room.old at (refused_line number place)) end.old }
{
    calls_lines::calls_refused_line(number, place, at, room, end)
}

#[unsafe(no_mangle)]
pub extern "C" fn calls_packet_line(
    source: u32,
    dst: u32,
    ending: u32,
    links: u32,
    reroutes: u32,
    uids: &[u32],
    at: usize,
    room: &mut [u8],
    end: &mut usize,
) -> u32
    ensures number { result ≡ (written_of room.old at (packet_line (report_of source dst ending links reroutes) uids.now)).refusal }
    ensures room { room.new ≡ room_of room.old at (packet_line (report_of source dst ending links reroutes) uids.now) }
    ensures end { end.new ≡ end_of (written_of room.old at (packet_line (report_of source dst ending links reroutes) uids.now)) end.old }
{
    calls_lines::calls_packet_line(source, dst, ending, links, reroutes, uids, at, room, end)
}

#[unsafe(no_mangle)]
pub extern "C" fn calls_trace_piece(
    sheet: &[u8],
    from: u32,
    room: &mut [u8],
    next: &mut u32,
    end: &mut usize,
) -> u32
    ensures number { result ≡ (piece_of sheet.now from room.old).refusal }
    ensures room { room.new ≡ room_piece sheet.now from room.old }
    ensures next { next.new ≡ next_told (piece_of sheet.now from room.old) next.old }
    ensures end { end.new ≡ end_told (piece_of sheet.now from room.old) end.old }
{
    calls_lines::calls_trace_piece(sheet, from, room, next, end)
}
