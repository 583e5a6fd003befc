// The tests and parts that other calls rest on, and single fields of their answers, for a caller outside of Rattle, on plain numbers and slices.

#![tactic(auto)]

ghost use Rattle.std.specs.Prelude.{◌≡◌, ◌-◌};
ghost use Rattle.combine.specs.Tests.{pick};
ghost use Rattle.hall.specs.Halls.{n_fits, k_fits, b_fits, valid, servers};
ghost use Rattle.route.specs.Answers.{route_between, first_link_of};
ghost use Rattle.ports.specs.Answers.{check_of};
ghost use Rattle.ports.specs.Codes.{known, first_unknown, up};
ghost use Rattle.frame.specs.Addresses.{addresses_fit};
ghost use Rattle.frame.specs.Checksum.{folded};
ghost use Rattle.words.specs.Words.{words_bytes, word_at};
ghost use Rattle.words.specs.Rooms.{room_of};
ghost use Rattle.hall.specs.Rooms.{told, written};
ghost use Rattle.hall.specs.Halls.{hall_of};
ghost use Rattle.calls_parts.specs.Outcomes.{of_first_link};

use hall::Hall;
use rooms::tell;

pub fn calls_n_fits(n: u32) -> bool
    ensures { result ≡ n_fits n }
{
    hall::n_fits(n)
}

pub fn calls_k_fits(n: u32, k: u32) -> bool
    ensures { result ≡ k_fits n k }
{
    hall::k_fits(n, k)
}

pub fn calls_b_fits(k: u32, b: u32) -> bool
    ensures { result ≡ b_fits k b }
{
    hall::b_fits(k, b)
}

pub fn calls_servers(n: u32, k: u32, b: u32, count: u32) -> u32
    ensures { result ≡ pick (valid (hall_of n k b count)) (servers (hall_of n k b count)) 0 }
{
    hall::servers_of(Hall { n, k, b, count })
}

// Zeros where there is no such link.
pub fn calls_first_link(n: u32, k: u32, b: u32, count: u32, x: u32, y: u32, room: &mut [u32]) -> u32
    ensures number { result ≡ told (of_first_link (first_link_of (hall_of n k b count) x y)) room.old }
    ensures room { room.new ≡ written (of_first_link (first_link_of (hall_of n k b count) x y)) room.old }
{
    match route::first_link(Hall { n, k, b, count }, x, y) {
        Ok(None) => tell(0, &[0; 3], room),
        Ok(Some(link)) => tell(0, &[link.level, link.near, link.far], room),
        Err(refusal) => refusal.number(),
    }
}

pub fn calls_is_up(n: u32, k: u32, b: u32, count: u32, table: &[u8], server: u32, port: u32) -> bool
    ensures { result ≡ up (hall_of n k b count) table.now server port }
{
    ports::is_up(Hall { n, k, b, count }, table, server, port)
}

pub fn calls_is_known(code: u8) -> bool
    ensures { result ≡ known code }
{
    ports::is_known(code)
}

pub fn calls_first_unknown(table: &[u8]) -> usize
    ensures { result ≡ first_unknown table.now }
{
    ports::first_unknown(table)
}

pub fn calls_addresses_fit(source: u32, destination: u32, has_proxy: bool, proxy: u32) -> bool
    ensures { result ≡ addresses_fit source destination has_proxy proxy }
{
    frame::addresses::addresses_fit(source, destination, has_proxy, proxy)
}

pub fn calls_complement(sum: u64) -> u32
    ensures { result ≡ 65535 - folded sum }
{
    frame::checksum::complement(sum)
}

pub fn calls_word_at(sheet: &[u8], at: usize) -> u32
    ensures { result ≡ word_at sheet.now at }
{
    words::word_at(sheet, at)
}

pub fn calls_put_words(room: &mut [u8], at: usize, words: &[u32])
    ensures { room.new ≡ room_of room.old at (words_bytes words.now) }
{
    words::put_words(room, at, words);
}

pub fn calls_put_bytes(room: &mut [u8], at: usize, bytes: &[u8])
    ensures { room.new ≡ room_of room.old at bytes.now }
{
    words::put_bytes(room, at, bytes);
}

pub fn calls_check_place(n: u32, k: u32, b: u32, count: u32, table: &[u8]) -> u32
    ensures { result ≡ (check_of (hall_of n k b count) table.now).place }
{
    match ports::check_table(Hall { n, k, b, count }, table) {
        Ok(()) => 0,
        Err(fault) => fault.place,
    }
}

pub fn calls_route_links(n: u32, k: u32, b: u32, count: u32, x: u32, y: u32) -> u32
    ensures { result ≡ (route_between (hall_of n k b count) x y).links }
{
    match route::route_between(Hall { n, k, b, count }, x, y) {
        Ok(route) => route.links,
        Err(_) => 0,
    }
}
