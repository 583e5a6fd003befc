// What a C program calls of the crate calls_packets: each of its functions, with the same clauses.

#![tactic(auto)]

ghost use Rattle.std.specs.Prelude.{◌≡◌};
ghost use Rattle.local.specs.Answers.{distances_of, next_hop_of};
ghost use Rattle.forward.specs.Packets.{packet_of};
ghost use Rattle.forward.specs.Answers.{journey_of};
ghost use Rattle.broadcast.specs.Broadcasts.{broadcast_of};
ghost use Rattle.frame.specs.Reading.{next_identification};
ghost use Rattle.hall.specs.Rooms.{told, written};
ghost use Rattle.hall.specs.Halls.{hall_of};
ghost use Rattle.calls_packets.specs.Outcomes.{of_distances, of_origin, of_next_hop, of_broadcast, rounds_told, of_payload, of_passed, of_counts};

#[unsafe(no_mangle)]
pub extern "C" fn calls_distances(
    n: u32,
    k: u32,
    b: u32,
    count: u32,
    uid: u32,
    table: &[u8],
    room: &mut [u8],
) -> u32
    ensures number { result ≡ told (of_distances (distances_of (hall_of n k b count) uid table.now)) room.old }
    ensures room { room.new ≡ written (of_distances (distances_of (hall_of n k b count) uid table.now)) room.old }
{
    calls_packets::calls_distances(n, k, b, count, uid, table, room)
}

#[unsafe(no_mangle)]
pub extern "C" fn calls_distances_origin(
    n: u32,
    k: u32,
    b: u32,
    count: u32,
    uid: u32,
    table: &[u8],
    room: &mut [u32],
) -> u32
    ensures number { result ≡ told (of_origin (distances_of (hall_of n k b count) uid table.now)) room.old }
    ensures room { room.new ≡ written (of_origin (distances_of (hall_of n k b count) uid table.now)) room.old }
{
    calls_packets::calls_distances_origin(n, k, b, count, uid, table, room)
}

#[unsafe(no_mangle)]
pub extern "C" fn calls_next_hop(
    n: u32,
    k: u32,
    b: u32,
    count: u32,
    uid: u32,
    target: u32,
    table: &[u8],
    room: &mut [u32],
) -> u32
    ensures number { result ≡ told (of_next_hop (next_hop_of (hall_of n k b count) uid target table.now)) room.old }
    ensures room { room.new ≡ written (of_next_hop (next_hop_of (hall_of n k b count) uid target table.now)) room.old }
{
    calls_packets::calls_next_hop(n, k, b, count, uid, target, table, room)
}

#[unsafe(no_mangle)]
pub extern "C" fn calls_payload(frame: &[u8], room: &mut [u8]) -> u32
    ensures number { result ≡ told (of_payload frame.now) room.old }
    ensures room { room.new ≡ written (of_payload frame.now) room.old }
{
    calls_packets::calls_payload(frame, room)
}

#[unsafe(no_mangle)]
pub extern "C" fn calls_next_identification(id: u32) -> u32
    ensures { result ≡ next_identification id }
{
    calls_packets::calls_next_identification(id)
}

#[unsafe(no_mangle)]
pub extern "C" fn calls_broadcast(
    n: u32,
    k: u32,
    b: u32,
    count: u32,
    table: &[u8],
    source: u32,
    scope: u32,
    rounds: &mut [u16],
    room: &mut [u32],
) -> u32
    ensures number { result ≡ told (of_broadcast (broadcast_of (hall_of n k b count) table.now source scope rounds.old)) room.old }
    ensures rounds { rounds.new ≡ rounds_told (hall_of n k b count) table.now source scope rounds.old room.old }
    ensures room { room.new ≡ written (of_broadcast (broadcast_of (hall_of n k b count) table.now source scope rounds.old)) room.old }
{
    calls_packets::calls_broadcast(n, k, b, count, table, source, scope, rounds, room)
}

#[unsafe(no_mangle)]
pub extern "C" fn calls_journey(
    n: u32,
    k: u32,
    b: u32,
    count: u32,
    source: u32,
    dst: u32,
    has_proxy: u32,
    proxy: u32,
    retry: u8,
    ttl: u8,
    table: &[u8],
    room: &mut [u32],
) -> u32
    ensures number { result ≡ told (of_passed (journey_of (hall_of n k b count) source (packet_of dst has_proxy proxy retry ttl) table.now)) room.old }
    ensures room { room.new ≡ written (of_passed (journey_of (hall_of n k b count) source (packet_of dst has_proxy proxy retry ttl) table.now)) room.old }
{
    calls_packets::calls_journey(
        n, k, b, count, source, dst, has_proxy, proxy, retry, ttl, table, room,
    )
}

#[unsafe(no_mangle)]
pub extern "C" fn calls_journey_counts(
    n: u32,
    k: u32,
    b: u32,
    count: u32,
    source: u32,
    dst: u32,
    has_proxy: u32,
    proxy: u32,
    retry: u8,
    ttl: u8,
    table: &[u8],
    room: &mut [u32],
) -> u32
    ensures number { result ≡ told (of_counts (journey_of (hall_of n k b count) source (packet_of dst has_proxy proxy retry ttl) table.now)) room.old }
    ensures room { room.new ≡ written (of_counts (journey_of (hall_of n k b count) source (packet_of dst has_proxy proxy retry ttl) table.now)) room.old }
{
    calls_packets::calls_journey_counts(
        n, k, b, count, source, dst, has_proxy, proxy, retry, ttl, table, room,
    )
}
