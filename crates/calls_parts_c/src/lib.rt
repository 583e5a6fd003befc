// What a C program calls of the crate calls_parts: each of its functions, with the same clauses.

#![tactic(auto)]

ghost use Rattle.std.specs.Prelude.{◌≡◌, ◌-◌};
ghost use Rattle.combine.specs.Tests.{pick};
ghost use Rattle.hall.specs.Halls.{n_fits, k_fits, b_fits, valid, servers};
ghost use Rattle.route.specs.Answers.{route_between, first_link_of};
ghost use Rattle.ports.specs.Answers.{check_of};
ghost use Rattle.ports.specs.Codes.{known, first_unknown, up};
ghost use Rattle.frame.specs.Addresses.{addresses_fit};
ghost use Rattle.frame.specs.Checksum.{folded};
ghost use Rattle.words.specs.Words.{words_bytes, word_at};
ghost use Rattle.words.specs.Rooms.{room_of};
ghost use Rattle.hall.specs.Rooms.{told, written};
ghost use Rattle.hall.specs.Halls.{hall_of};
ghost use Rattle.calls_parts.specs.Outcomes.{of_first_link};

#[unsafe(no_mangle)]
pub extern "C" fn calls_n_fits(n: u32) -> bool
    ensures { result ≡ n_fits n }
{
    calls_parts::calls_n_fits(n)
}

#[unsafe(no_mangle)]
pub extern "C" fn calls_k_fits(n: u32, k: u32) -> bool
    ensures { result ≡ k_fits n k }
{
    calls_parts::calls_k_fits(n, k)
}

#[unsafe(no_mangle)]
pub extern "C" fn calls_b_fits(k: u32, b: u32) -> bool
    ensures { result ≡ b_fits k b }
{
    calls_parts::calls_b_fits(k, b)
}

#[unsafe(no_mangle)]
pub extern "C" fn calls_servers(n: u32, k: u32, b: u32, count: u32) -> u32
    ensures { result ≡ pick (valid (hall_of n k b count)) (servers (hall_of n k b count)) 0 }
{
    calls_parts::calls_servers(n, k, b, count)
}

// Zeros where there is no such link.
#[unsafe(no_mangle)]
pub extern "C" fn calls_first_link(
    n: u32,
    k: u32,
    b: u32,
    count: u32,
    x: u32,
    y: u32,
    room: &mut [u32],
) -> u32
    ensures number { result ≡ told (of_first_link (first_link_of (hall_of n k b count) x y)) room.old }
    ensures room { room.new ≡ written (of_first_link (first_link_of (hall_of n k b count) x y)) room.old }
{
    calls_parts::calls_first_link(n, k, b, count, x, y, room)
}

#[unsafe(no_mangle)]
pub extern "C" fn calls_is_up(
    n: u32,
    k: u32,
    b: u32,
    count: u32,
    table: &[u8],
    server: u32,
    port: u32,
) -> bool
    ensures { result ≡ up (hall_of n k b count) table.now server port }
{
    calls_parts::calls_is_up(n, k, b, count, table, server, port)
}

#[unsafe(no_mangle)]
pub extern "C" fn calls_is_known(code: u8) -> bool
    ensures { result ≡ known code }
{
    calls_parts::calls_is_known(code)
}

#[unsafe(no_mangle)]
pub extern "C" fn calls_first_unknown(table: &[u8]) -> usize
    ensures { result ≡ first_unknown table.now }
{
    calls_parts::calls_first_unknown(table)
}

#[unsafe(no_mangle)]
pub extern "C" fn calls_addresses_fit(
    source: u32,
    destination: u32,
    has_proxy: bool,
    proxy: u32,
) -> bool
    ensures { result ≡ addresses_fit source destination has_proxy proxy }
{
    calls_parts::calls_addresses_fit(source, destination, has_proxy, proxy)
}

#[unsafe(no_mangle)]
pub extern "C" fn calls_complement(sum: u64) -> u32
    ensures { result ≡ 65535 - folded sum }
{
    calls_parts::calls_complement(sum)
}

#[unsafe(no_mangle)]
pub extern "C" fn calls_word_at(sheet: &[u8], at: usize) -> u32
    ensures { result ≡ word_at sheet.now at }
{
    calls_parts::calls_word_at(sheet, at)
}

#[unsafe(no_mangle)]
pub extern "C" fn calls_put_words(room: &mut [u8], at: usize, words: &[u32])
    ensures { room.new ≡ room_of room.old at (words_bytes words.now) }
{
    calls_parts::calls_put_words(room, at, words);
}

#[unsafe(no_mangle)]
pub extern "C" fn calls_put_bytes(room: &mut [u8], at: usize, bytes: &[u8])
    ensures { room.new ≡ room_of room.old at bytes.now }
{
    calls_parts::calls_put_bytes(room, at, bytes);
}

#[unsafe(no_mangle)]
pub extern "C" fn calls_check_place(n: u32, k: u32, b: u32, count: u32, table: &[u8]) -> u32
    ensures { result ≡ (check_of (hall_of n k b count) table.now).place }
{
    calls_parts::calls_check_place(n, k, b, count, table)
}

#[unsafe(no_mangle)]
pub extern "C" fn calls_route_links(n: u32, k: u32, b: u32, count: u32, x: u32, y: u32) -> u32
    ensures { result ≡ (route_between (hall_of n k b count) x y).links }
{
    calls_parts::calls_route_links(n, k, b, count, x, y)
}
