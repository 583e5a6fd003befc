// The calls about a packet's way for a caller outside of Rattle, on plain numbers and slices.

#![tactic(auto)]

ghost use Rattle.std.specs.Prelude.{◌≡◌};
ghost use Rattle.local.specs.Answers.{distances_of, next_hop_of};
ghost use Rattle.forward.specs.Packets.{packet_of};
ghost use Rattle.forward.specs.Answers.{journey_of};
ghost use Rattle.broadcast.specs.Broadcasts.{broadcast_of};
ghost use Rattle.frame.specs.Reading.{next_identification};
ghost use Rattle.hall.specs.Rooms.{told, written};
ghost use Rattle.hall.specs.Halls.{hall_of};
ghost use Rattle.calls_packets.specs.Outcomes.{of_distances, of_origin, of_next_hop, of_broadcast, rounds_told, of_payload, of_passed, of_counts};

use forward::Packet;
use hall::Hall;
use rooms::tell;

pub fn calls_distances(
    n: u32,
    k: u32,
    b: u32,
    count: u32,
    uid: u32,
    table: &[u8],
    room: &mut [u8],
) -> u32
    ensures number { result ≡ told (of_distances (distances_of (hall_of n k b count) uid table.now)) room.old }
    ensures room { room.new ≡ written (of_distances (distances_of (hall_of n k b count) uid table.now)) room.old }
{
    match local::distances_of(Hall { n, k, b, count }, uid, table) {
        Ok(distances) => tell(0, &distances.distance, room),
        Err(refusal) => refusal.number(),
    }
}

pub fn calls_distances_origin(
    n: u32,
    k: u32,
    b: u32,
    count: u32,
    uid: u32,
    table: &[u8],
    room: &mut [u32],
) -> u32
    ensures number { result ≡ told (of_origin (distances_of (hall_of n k b count) uid table.now)) room.old }
    ensures room { room.new ≡ written (of_origin (distances_of (hall_of n k b count) uid table.now)) room.old }
{
    match local::distances_of(Hall { n, k, b, count }, uid, table) {
        Ok(distances) => tell(0, &[distances.origin, distances.count], room),
        Err(refusal) => refusal.number(),
    }
}

pub fn calls_next_hop(
    n: u32,
    k: u32,
    b: u32,
    count: u32,
    uid: u32,
    target: u32,
    table: &[u8],
    room: &mut [u32],
) -> u32
    ensures number { result ≡ told (of_next_hop (next_hop_of (hall_of n k b count) uid target table.now)) room.old }
    ensures room { room.new ≡ written (of_next_hop (next_hop_of (hall_of n k b count) uid target table.now)) room.old }
{
    match local::next_hop(Hall { n, k, b, count }, uid, target, table) {
        Ok(None) => tell(0, &[0, 0], room),
        Ok(Some(next)) => tell(0, &[1, next], room),
        Err(refusal) => refusal.number(),
    }
}

pub fn calls_payload(frame: &[u8], room: &mut [u8]) -> u32
    ensures number { result ≡ told (of_payload frame.now) room.old }
    ensures room { room.new ≡ written (of_payload frame.now) room.old }
{
    match frame::read_frame(frame) {
        Ok(_) => tell(0, frame::payload_of(frame), room),
        Err(fault) => fault.refusal.number(),
    }
}

pub fn calls_next_identification(id: u32) -> u32
    ensures { result ≡ next_identification id }
{
    frame::next_identification(id)
}

// Where the room for the counts is short, the broadcast is asked without room: that is always refused, and writes nothing.
pub fn calls_broadcast(
    n: u32,
    k: u32,
    b: u32,
    count: u32,
    table: &[u8],
    source: u32,
    scope: u32,
    rounds: &mut [u16],
    room: &mut [u32],
) -> u32
    ensures number { result ≡ told (of_broadcast (broadcast_of (hall_of n k b count) table.now source scope rounds.old)) room.old }
    ensures rounds { rounds.new ≡ rounds_told (hall_of n k b count) table.now source scope rounds.old room.old }
    ensures room { room.new ≡ written (of_broadcast (broadcast_of (hall_of n k b count) table.now source scope rounds.old)) room.old }
{
    let h = Hall { n, k, b, count };
    if room.len() < 2 {
        let Err(refusal) = broadcast::broadcast_rounds(h, table, source, scope, &mut rounds[..0])
        else {
            unreachable!()
        };
        return refusal.number();
    }
    match broadcast::broadcast_rounds(h, table, source, scope, rounds) {
        Ok(broadcast) => tell(0, &[broadcast.reached, broadcast.last], room),
        Err(refusal) => refusal.number(),
    }
}

pub fn calls_journey(
    n: u32,
    k: u32,
    b: u32,
    count: u32,
    source: u32,
    dst: u32,
    has_proxy: u32,
    proxy: u32,
    retry: u8,
    ttl: u8,
    table: &[u8],
    room: &mut [u32],
) -> u32
    ensures number { result ≡ told (of_passed (journey_of (hall_of n k b count) source (packet_of dst has_proxy proxy retry ttl) table.now)) room.old }
    ensures room { room.new ≡ written (of_passed (journey_of (hall_of n k b count) source (packet_of dst has_proxy proxy retry ttl) table.now)) room.old }
{
    let packet = Packet {
        dst,
        has_proxy: has_proxy != 0,
        proxy,
        retry,
        ttl,
    };
    match &forward::journey_of(Hall { n, k, b, count }, source, packet, table) {
        Ok(journey) => tell(0, &journey.uids, room),
        Err(refusal) => refusal.number(),
    }
}

pub fn calls_journey_counts(
    n: u32,
    k: u32,
    b: u32,
    count: u32,
    source: u32,
    dst: u32,
    has_proxy: u32,
    proxy: u32,
    retry: u8,
    ttl: u8,
    table: &[u8],
    room: &mut [u32],
) -> u32
    ensures number { result ≡ told (of_counts (journey_of (hall_of n k b count) source (packet_of dst has_proxy proxy retry ttl) table.now)) room.old }
    ensures room { room.new ≡ written (of_counts (journey_of (hall_of n k b count) source (packet_of dst has_proxy proxy retry ttl) table.now)) room.old }
{
    let packet = Packet {
        dst,
        has_proxy: has_proxy != 0,
        proxy,
        retry,
        ttl,
    };
    match &forward::journey_of(Hall { n, k, b, count }, source, packet, table) {
        Ok(journey) => tell(
            0,
            &[journey.ending.number(), journey.links, journey.reroutes],
            room,
        ),
        Err(refusal) => refusal.number(),
    }
}
