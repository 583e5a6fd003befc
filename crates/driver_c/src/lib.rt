// What a C program calls of the crate driver: each of its functions, with the same clauses.

#![tactic(auto)]

ghost use Rattle.std.specs.Prelude.{◌≡◌};
ghost use Rattle.route.specs.Answers.{route_between};
ghost use Rattle.ends.specs.Answers.{of_step_table};
ghost use Rattle.forward.specs.Answers.{step_of};
ghost use Rattle.forward.specs.Packets.{packet_of};
ghost use Rattle.frame.specs.Reading.{read_frame};
ghost use Rattle.header.specs.Writing.{write_refusal, room_written};
ghost use Rattle.hall.specs.Halls.{hall_of};
ghost use Rattle.hall.specs.Rooms.{told, written};
ghost use Rattle.driver.specs.Outcomes.{of_route, of_header, fields_of, of_step};

// The route from x to y: its links + 1 uids.
#[unsafe(no_mangle)]
pub extern "C" fn tbexlum_route(
    n: u32,
    k: u32,
    b: u32,
    count: u32,
    x: u32,
    y: u32,
    room: &mut [u8],
) -> u32
    ensures number { result ≡ told (of_route (route_between (hall_of n k b count) x y)) room.old }
    ensures room { room.new ≡ written (of_route (route_between (hall_of n k b count) x y)) room.old }
{
    driver::tbexlum_route(n, k, b, count, x, y, room)
}

// A frame's header, read.
#[unsafe(no_mangle)]
pub extern "C" fn tbexlum_read_header(frame: &[u8], room: &mut [u8]) -> u32
    ensures number { result ≡ told (of_header (read_frame frame.now)) room.old }
    ensures room { room.new ≡ written (of_header (read_frame frame.now)) room.old }
{
    driver::tbexlum_read_header(frame, room)
}

// The place that goes with the number of a frame's header: the first byte of the field that 13 to 16 are about, 0 with every other number.
#[unsafe(no_mangle)]
pub extern "C" fn tbexlum_header_place(frame: &[u8]) -> u32
    ensures { result ≡ (read_frame frame.now).place }
{
    driver::tbexlum_header_place(frame)
}

// A header written to the start of the room; `has_proxy` is 0 where there is no proxy.
#[unsafe(no_mangle)]
pub extern "C" fn tbexlum_write_header(
    protocol: u8,
    payload_length: u16,
    identification: u32,
    retry: u8,
    ttl: u8,
    source: u32,
    destination: u32,
    has_proxy: u32,
    proxy: u32,
    room: &mut [u8],
) -> u32
    ensures number { result ≡ write_refusal (fields_of protocol payload_length identification retry ttl source destination has_proxy proxy) room.old }
    ensures room { room.new ≡ room_written (fields_of protocol payload_length identification retry ttl source destination has_proxy proxy) room.old }
{
    driver::tbexlum_write_header(
        protocol,
        payload_length,
        identification,
        retry,
        ttl,
        source,
        destination,
        has_proxy,
        proxy,
        room,
    )
}

// The table that a server's step is lent, from the hall table.
#[unsafe(no_mangle)]
pub extern "C" fn tbexlum_step_table(
    n: u32,
    k: u32,
    b: u32,
    count: u32,
    table: &[u8],
    uid: u32,
    room: &mut [u8],
) -> u32
    ensures number { result ≡ told (of_step_table (hall_of n k b count) table.now uid) room.old }
    ensures room { room.new ≡ written (of_step_table (hall_of n k b count) table.now uid) room.old }
{
    driver::tbexlum_step_table(n, k, b, count, table, uid, room)
}

// One forwarding step at a server, over the table that it is lent; `has_proxy` is 0 where there is no proxy.
#[unsafe(no_mangle)]
pub extern "C" fn tbexlum_step(
    n: u32,
    k: u32,
    b: u32,
    count: u32,
    uid: u32,
    dst: u32,
    has_proxy: u32,
    proxy: u32,
    retry: u8,
    ttl: u8,
    table: &[u8],
    room: &mut [u8],
) -> u32
    ensures number { result ≡ told (of_step (step_of (hall_of n k b count) uid (packet_of dst has_proxy proxy retry ttl) table.now)) room.old }
    ensures room { room.new ≡ written (of_step (step_of (hall_of n k b count) uid (packet_of dst has_proxy proxy retry ttl) table.now)) room.old }
{
    driver::tbexlum_step(
        n, k, b, count, uid, dst, has_proxy, proxy, retry, ttl, table, room,
    )
}
