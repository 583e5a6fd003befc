// Tables of port codes: which ports are up, the check of a hall table, and its part for a server.

#![tactic(auto)]

pub mod codes;

ghost use Rattle.std.specs.Prelude.{◌≡◌, [], ◌+◌, ◌*◌, ◌≤◌, ◌<◌, drop};
ghost use Rattle.hall.specs.Refusals.{refusal_in};
ghost use Rattle.ports.specs.Codes.{known, all_known, first_unknown, up};
ghost use Rattle.ports.specs.Answers.{check_of, check_stated, part_refusal, part_of};

use crate::codes::{HELD, UP};
use hall::Hall;
use hall::refusals::{Fault, Refusal};

// The codes that the table check looks at together.
const BLOCK: usize = 256;

// Whether a port is up: of a server by its uid in a hall table, by its place in the table of a DCell. A port above k is not.
#[tactic(auto, unfolding(crate::specs::Codes::up, crate::specs::Codes::code_of))]
pub fn is_up(h: Hall, table: &[u8], server: u32, port: u32) -> bool
    ensures { result ≡ up h table.now server port }
{
    if h.k < port {
        return false;
    }
    let at = (server as usize) * ((h.k as usize) + 1) + (port as usize);
    if at < table.len() {
        table[at] == UP
    } else {
        false
    }
}

// Whether a code is known.
#[tactic(auto, unfolding(crate::specs::Codes::known))]
pub fn is_known(code: u8) -> bool
    ensures { result ≡ known code }
{
    code <= HELD
}

// Whether every code is known, by the highest: without an early end, so that many codes are looked at together. The iterator's own `max` is slower.
fn all_known(codes: &[u8]) -> bool
    ensures { result ≡ all_known codes.now }
{
    is_known(codes.iter().fold(0, |most, code| most.max(*code)))
}

// Where the first block with an unknown code begins; the table's length where there is none.
fn known_blocks(table: &[u8]) -> usize
    ensures { result + first_unknown (drop result table.now) ≡ first_unknown table.now }
{
    let mut from: usize = 0;
    for block in table.chunks(BLOCK) {
        if !all_known(block) {
            return from;
        }
        from += block.len();
    }
    from
}

// Where the first unknown code stands; the table's length where there is none.
pub fn first_unknown(table: &[u8]) -> usize
    ensures { result ≡ first_unknown table.now }
{
    let from = known_blocks(table);
    for i in from..table.len() {
        if !is_known(table[i]) {
            return i;
        }
    }
    table.len()
}

// The bytes of a table of so many servers, with the ports 0 to k.
fn bytes_of(servers: u32, k: u32) -> usize
    ensures { result ≡ servers * (k + 1) }
{
    (servers as usize) * ((k as usize) + 1)
}

// Whether a hall table has its length and known codes alone; with a code that is unknown the place of the first is told, else place 0.
#[tactic(auto, using(crate::proofs::Parts::table_asked))]
pub fn check_table(h: Hall, table: &[u8]) -> Result<(), Fault>
    ensures { check_stated result ≡ check_of h table.now }
{
    let servers = hall::servers_of(h);
    if servers == 0 {
        return Err(Fault {
            refusal: Refusal::BadHall,
            place: 0,
        });
    }
    if table.len() != bytes_of(servers, h.k) {
        return Err(Fault {
            refusal: Refusal::BadLength,
            place: 0,
        });
    }
    let at = first_unknown(table);
    if at < table.len() {
        return Err(Fault {
            refusal: Refusal::BadCode,
            place: at as u32,
        });
    }
    Ok(())
}

// Why a hall table's part for a server is refused.
#[tactic(auto, using(crate::proofs::Parts::part_asked))]
pub fn part_refusal(h: Hall, table: &[u8], uid: u32) -> Result<(), Refusal>
    ensures { refusal_in result ≡ part_refusal h table.now uid }
{
    let servers = hall::servers_of(h);
    if servers == 0 {
        return Err(Refusal::BadHall);
    }
    if table.len() != bytes_of(servers, h.k) {
        return Err(Refusal::BadLength);
    }
    if servers <= uid {
        return Err(Refusal::BadUid);
    }
    Ok(())
}

// The part of a hall table that holds a server's DCell(b); empty where it is refused.
pub fn part_of(h: Hall, table: &[u8], uid: u32) -> &[u8]
    ensures { result.now ≡ part_of h table.now uid }
{
    if part_refusal(h, table, uid).is_err() {
        return &table[0..0];
    }
    let count = hall::size_of(h, h.b);
    let bytes = bytes_of(count, h.k);
    let from = ((uid / count) as usize) * bytes;
    let to = from + bytes;
    &table[from..to]
}
