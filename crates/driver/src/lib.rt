// The calls for a driver in C: header, route, step and the table of a step, on plain numbers and byte slices.

#![tactic(auto)]

ghost use Rattle.std.specs.Prelude.{◌≡◌};
ghost use Rattle.route.specs.Answers.{route_between};
ghost use Rattle.ends.specs.Answers.{of_step_table};
ghost use Rattle.forward.specs.Answers.{step_of};
ghost use Rattle.forward.specs.Packets.{ending_in, next_in, packet_of};
ghost use Rattle.frame.specs.Reading.{read_frame};
ghost use Rattle.header.specs.Writing.{write_refusal, room_written};
ghost use Rattle.hall.specs.Halls.{hall_of};
ghost use Rattle.hall.specs.Rooms.{told, written};
ghost use Rattle.words.specs.Words.{words_bytes};
ghost use Rattle.driver.specs.Outcomes.{of_route, of_header, fields_of, of_step};

use forward::Packet;
use forward::endings::Onward;
use hall::Hall;
use hall::refusals::Refusal;
use header::Fields;
use words::put_words;

// The words of an answer that is not refused, at the start of the room, and 0; or the number of a short room, and the room as lent.
fn tell(words: &[u32], room: &mut [u8]) -> u32
    ensures number { result ≡ told (0, words_bytes words.now) room.old }
    ensures room { room.new ≡ written (0, words_bytes words.now) room.old }
{
    if room.len() / 4 < words.len() {
        return Refusal::ShortRoom.number();
    }
    put_words(room, 0, words);
    0
}

// The route from x to y: its links + 1 uids.
pub fn tbexlum_route(n: u32, k: u32, b: u32, count: u32, x: u32, y: u32, room: &mut [u8]) -> u32
    ensures number { result ≡ told (of_route (route_between (hall_of n k b count) x y)) room.old }
    ensures room { room.new ≡ written (of_route (route_between (hall_of n k b count) x y)) room.old }
{
    match route::route_between(Hall { n, k, b, count }, x, y) {
        Ok(route) => tell(&route.uids[..route.links as usize + 1], room),
        Err(refusal) => refusal.number(),
    }
}

// A frame's header, read.
pub fn tbexlum_read_header(frame: &[u8], room: &mut [u8]) -> u32
    ensures number { result ≡ told (of_header (read_frame frame.now)) room.old }
    ensures room { room.new ≡ written (of_header (read_frame frame.now)) room.old }
{
    match frame::read_frame(frame) {
        Ok(header) => tell(
            &[
                header.header_length,
                header.protocol,
                header.payload_length,
                header.identification,
                header.retry,
                header.ttl,
                header.source,
                header.destination,
                u32::from(header.proxy.is_some()),
                header.proxy.unwrap_or(0),
            ],
            room,
        ),
        Err(fault) => fault.refusal.number(),
    }
}

// The place that goes with the number of a frame's header: the first byte of the field that 13 to 16 are about, 0 with every other number.
pub fn tbexlum_header_place(frame: &[u8]) -> u32
    ensures { result ≡ (read_frame frame.now).place }
{
    frame::header_place(frame)
}

// A header written to the start of the room; `has_proxy` is 0 where there is no proxy.
pub fn tbexlum_write_header(
    protocol: u8,
    payload_length: u16,
    identification: u32,
    retry: u8,
    ttl: u8,
    source: u32,
    destination: u32,
    has_proxy: u32,
    proxy: u32,
    room: &mut [u8],
) -> u32
    ensures number { result ≡ write_refusal (fields_of protocol payload_length identification retry ttl source destination has_proxy proxy) room.old }
    ensures room { room.new ≡ room_written (fields_of protocol payload_length identification retry ttl source destination has_proxy proxy) room.old }
{
    let fields = Fields {
        protocol,
        payload_length,
        identification,
        retry,
        ttl,
        source,
        destination,
        has_proxy: has_proxy != 0,
        proxy,
    };
    match header::write_header(fields, room) {
        Ok(()) => 0,
        Err(refusal) => refusal.number(),
    }
}

// The table that a server's step is lent, from the hall table.
pub fn tbexlum_step_table(
    n: u32,
    k: u32,
    b: u32,
    count: u32,
    table: &[u8],
    uid: u32,
    room: &mut [u8],
) -> u32
    ensures number { result ≡ told (of_step_table (hall_of n k b count) table.now uid) room.old }
    ensures room { room.new ≡ written (of_step_table (hall_of n k b count) table.now uid) room.old }
{
    match ends::step_table(Hall { n, k, b, count }, table, uid, room) {
        Ok(()) => 0,
        Err(refusal) => refusal.number(),
    }
}

// The number of a packet's ending, 0 where it goes on.
fn ending_of(onward: Onward) -> u32
    ensures { result ≡ ending_in onward }
{
    match onward {
        Onward::To { next: _ } => 0,
        Onward::Ends { ending } => ending.number(),
    }
}

// The next uid of a packet that goes on, 0 where it ends.
fn next_of(onward: Onward) -> u32
    ensures { result ≡ next_in onward }
{
    match onward {
        Onward::To { next } => next,
        Onward::Ends { ending: _ } => 0,
    }
}

// One forwarding step at a server, over the table that it is lent; `has_proxy` is 0 where there is no proxy.
pub fn tbexlum_step(
    n: u32,
    k: u32,
    b: u32,
    count: u32,
    uid: u32,
    dst: u32,
    has_proxy: u32,
    proxy: u32,
    retry: u8,
    ttl: u8,
    table: &[u8],
    room: &mut [u8],
) -> u32
    ensures number { result ≡ told (of_step (step_of (hall_of n k b count) uid (packet_of dst has_proxy proxy retry ttl) table.now)) room.old }
    ensures room { room.new ≡ written (of_step (step_of (hall_of n k b count) uid (packet_of dst has_proxy proxy retry ttl) table.now)) room.old }
{
    let packet = Packet {
        dst,
        has_proxy: has_proxy != 0,
        proxy,
        retry,
        ttl,
    };
    match forward::forward_step(Hall { n, k, b, count }, uid, packet, table) {
        Ok(step) => tell(
            &[
                ending_of(step.onward),
                next_of(step.onward),
                step.packet.dst,
                u32::from(step.packet.has_proxy),
                step.packet.proxy,
                u32::from(step.packet.retry),
                u32::from(step.packet.ttl),
                step.reroutes,
            ],
            room,
        ),
        Err(refusal) => refusal.number(),
    }
}
