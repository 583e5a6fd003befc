// The calls about a hall, its routes and its tables for a caller outside of Rattle, on plain numbers and slices.

#![tactic(auto)]

ghost use Rattle.std.specs.Prelude.{◌≡◌, [], ◌∷◌};
ghost use Rattle.hall.specs.Answers.{size_of, sizes_of};
ghost use Rattle.cells.specs.Answers.{uid_of, tuple_of, cell_around, neighbour_of, link_between};
ghost use Rattle.route.specs.Answers.{route_between};
ghost use Rattle.ports.specs.Answers.{check_of};
ghost use Rattle.hall.specs.Rooms.{told, written};
ghost use Rattle.hall.specs.Halls.{hall_of};
ghost use Rattle.calls_hall.specs.Outcomes.{of_sizes, of_uid, of_tuple, of_cell, of_neighbour, of_link, of_route, of_part};

use hall::Hall;
use rooms::tell;

pub fn calls_sizes(n: u32, k: u32, b: u32, count: u32, room: &mut [u32]) -> u32
    ensures number { result ≡ told (of_sizes (sizes_of (hall_of n k b count))) room.old }
    ensures room { room.new ≡ written (of_sizes (sizes_of (hall_of n k b count))) room.old }
{
    match hall::sizes_of(Hall { n, k, b, count }) {
        Ok(sizes) => tell(0, &sizes, room),
        Err(refusal) => refusal.number(),
    }
}

pub fn calls_size_of(n: u32, k: u32, b: u32, count: u32, level: u32) -> u32
    ensures { result ≡ size_of (hall_of n k b count) level }
{
    hall::size_of(Hall { n, k, b, count }, level)
}

pub fn calls_uid(
    n: u32,
    k: u32,
    b: u32,
    count: u32,
    a0: u32,
    a1: u32,
    a2: u32,
    a3: u32,
    room: &mut [u32],
) -> u32
    ensures number { result ≡ told (of_uid (uid_of (hall_of n k b count) (a0 ∷ a1 ∷ a2 ∷ a3 ∷ []))) room.old }
    ensures room { room.new ≡ written (of_uid (uid_of (hall_of n k b count) (a0 ∷ a1 ∷ a2 ∷ a3 ∷ []))) room.old }
{
    match cells::uid_of(Hall { n, k, b, count }, [a0, a1, a2, a3]) {
        Ok(uid) => tell(0, &[uid], room),
        Err(refusal) => refusal.number(),
    }
}

pub fn calls_tuple(n: u32, k: u32, b: u32, count: u32, uid: u32, room: &mut [u32]) -> u32
    ensures number { result ≡ told (of_tuple (tuple_of (hall_of n k b count) uid)) room.old }
    ensures room { room.new ≡ written (of_tuple (tuple_of (hall_of n k b count) uid)) room.old }
{
    match cells::tuple_of(Hall { n, k, b, count }, uid) {
        Ok(entries) => tell(0, &entries, room),
        Err(refusal) => refusal.number(),
    }
}

pub fn calls_cell(n: u32, k: u32, b: u32, count: u32, uid: u32, level: u32, room: &mut [u32]) -> u32
    ensures number { result ≡ told (of_cell (cell_around (hall_of n k b count) uid level)) room.old }
    ensures room { room.new ≡ written (of_cell (cell_around (hall_of n k b count) uid level)) room.old }
{
    match cells::cell_around(Hall { n, k, b, count }, uid, level) {
        Ok(cell) => tell(0, &[cell.first, cell.count], room),
        Err(refusal) => refusal.number(),
    }
}

pub fn calls_neighbour(
    n: u32,
    k: u32,
    b: u32,
    count: u32,
    uid: u32,
    level: u32,
    room: &mut [u32],
) -> u32
    ensures number { result ≡ told (of_neighbour (neighbour_of (hall_of n k b count) uid level)) room.old }
    ensures room { room.new ≡ written (of_neighbour (neighbour_of (hall_of n k b count) uid level)) room.old }
{
    match cells::neighbour_of(Hall { n, k, b, count }, uid, level) {
        Ok(neighbour) => tell(0, &[neighbour], room),
        Err(refusal) => refusal.number(),
    }
}

pub fn calls_link(
    n: u32,
    k: u32,
    b: u32,
    count: u32,
    uid: u32,
    level: u32,
    p: u32,
    q: u32,
    room: &mut [u32],
) -> u32
    ensures number { result ≡ told (of_link (link_between (hall_of n k b count) uid level p q)) room.old }
    ensures room { room.new ≡ written (of_link (link_between (hall_of n k b count) uid level p q)) room.old }
{
    match cells::link_between(Hall { n, k, b, count }, uid, level, p, q) {
        Ok(link) => tell(0, &[link.from, link.to], room),
        Err(refusal) => refusal.number(),
    }
}

pub fn calls_check(n: u32, k: u32, b: u32, count: u32, table: &[u8]) -> u32
    ensures { result ≡ (check_of (hall_of n k b count) table.now).refusal }
{
    match ports::check_table(Hall { n, k, b, count }, table) {
        Ok(()) => 0,
        Err(fault) => fault.refusal.number(),
    }
}

pub fn calls_part(
    n: u32,
    k: u32,
    b: u32,
    count: u32,
    table: &[u8],
    uid: u32,
    room: &mut [u8],
) -> u32
    ensures number { result ≡ told (of_part (hall_of n k b count) table.now uid) room.old }
    ensures room { room.new ≡ written (of_part (hall_of n k b count) table.now uid) room.old }
{
    match ports::part_refusal(Hall { n, k, b, count }, table, uid) {
        Ok(()) => tell(0, ports::part_of(Hall { n, k, b, count }, table, uid), room),
        Err(refusal) => refusal.number(),
    }
}

pub fn calls_route(n: u32, k: u32, b: u32, count: u32, x: u32, y: u32, room: &mut [u32]) -> u32
    ensures number { result ≡ told (of_route (route_between (hall_of n k b count) x y)) room.old }
    ensures room { room.new ≡ written (of_route (route_between (hall_of n k b count) x y)) room.old }
{
    match route::route_between(Hall { n, k, b, count }, x, y) {
        Ok(route) => tell(0, &route.uids, room),
        Err(refusal) => refusal.number(),
    }
}
