// Broadcast rounds within a scope: after how many links each server of the source's DCell is reached.

#![tactic(auto)]

pub mod places;
pub mod sweeps;

ghost use Rattle.std.specs.Prelude.{◌≡◌, ◌++◌, ◌+◌, ◌*◌, ◌%◌, ◌≤◌, ◌<◌, length, take, drop, replicate, Ok};
ghost use Rattle.hall.specs.Refusals.{refusal_in};
ghost use Rattle.ports.specs.Links.{joined};
ghost use Rattle.search.specs.Rounds.{start, distances, reached_count, last_round};
ghost use Rattle.broadcast.specs.Sweeps.{fitted_places, Scoped, Ready};
ghost use Rattle.broadcast.specs.Broadcasts.{none, scope_fits, tally_of, broadcast_refusal, broadcast_of, broadcast_stated, room_of};

use crate::sweeps::one_round;
use hall::Hall;
use hall::refusals::Refusal;

// The number of a server that is not reached.
pub const NONE: u16 = 65535;

// The servers reached, the source included, and the last round; the numbers themselves are in the lent room.
#[derive(Clone, Copy)]
pub struct Broadcast {
    pub reached: u32,
    pub last: u32,
}

// Whether there is such a scope in a hall.
#[tactic(auto, unfolding(crate::specs::Broadcasts::scope_fits))]
fn scope_fits(h: Hall, s: u32) -> bool
    ensures { result ≡ scope_fits h s }
{
    s <= h.k.min(2)
}

// Why a broadcast is refused.
fn refused(h: Hall, table: &[u8], source: u32, scope: u32, room: &[u16]) -> Result<(), Refusal>
    ensures { refusal_in result ≡ broadcast_refusal h table.now source scope room.now }
{
    ports::part_refusal(h, table, source)?;
    if !scope_fits(h, scope) {
        return Err(Refusal::BadAddress);
    }
    if room.len() < (hall::size_of(h, scope) as usize) {
        return Err(Refusal::ShortRoom);
    }
    Ok(())
}

// How many places of the source's DCell the rounds go over: those of its fitted servers, which are its first; none where the source is not fitted.
fn fitted_places(h: Hall, source: u32, scope: u32, size: u32) -> u32
    requires { Scoped h source scope size }
    ensures { result ≡ fitted_places h source scope }
{
    if h.count == hall::racks_of(h.n, h.k) {
        return size;
    }
    if !plan::is_fitted(h, source) {
        return 0;
    }
    if scope < 2 {
        return size;
    }
    plan::fitted_servers(h, source)
}

// Nobody is reached. It is a loop since `fill` was measured slower, by a tenth at scope 0.
fn clear(room: &mut [u16], size: u32)
    requires { size ≤ length room.old }
    ensures { room.new ≡ replicate size none ++ drop size room.old }
{
    for x in &mut room[..size as usize] {
        *x = NONE;
    }
}

// The origin alone is reached.
fn begin(room: &mut [u16], size: u32, origin: u32)
    requires { (size ≤ length room.old) × (origin < size) }
    ensures { room.new ≡ start size none origin ++ drop size room.old }
{
    clear(room, size);
    let at = origin as usize;
    room[at] = 0;
}

// Rounds from the origin on over the first `size` places, until one reaches nobody.
fn run(h: Hall, table: &[u8], room: &mut [u16], scope: u32, size: u32, origin: u32)
    requires { Ready h scope size origin room.old }
    ensures { room.new ≡ distances (joined h table.now scope) size none origin ++ drop size room.old }
{
    for r in 0..size as u16 {
        if !one_round(h, table, room, r, scope, size) {
            return;
        }
    }
}

// The servers reached and the last round, of the numbers at the start of a room.
fn tally(room: &[u16], size: u32) -> Broadcast
    requires { size ≤ length room.now }
    ensures { broadcast_stated (Ok result) ≡ tally_of size room.now }
{
    let mut reached: u32 = 0;
    let mut last: u32 = 0;
    for &number in &room[..size as usize] {
        if number != NONE {
            reached += 1;
            last = last.max(u32::from(number));
        }
    }
    Broadcast { reached, last }
}

// Writes each server's number of links from the source to the room, and answers how many are reached and the last round.
pub fn broadcast_rounds(
    h: Hall,
    table: &[u8],
    source: u32,
    scope: u32,
    room: &mut [u16],
) -> Result<Broadcast, Refusal>
    ensures answer { broadcast_stated result ≡ broadcast_of h table.now source scope room.old }
    ensures room { room.new ≡ room_of h table.now source scope room.old }
{
    refused(h, table, source, scope, room)?;
    let size = hall::size_of(h, scope);
    let bytes = (size as usize) * ((h.k as usize) + 1);
    let from = ((source / size) as usize) * bytes;
    let to = from + bytes;
    let origin = source % size;
    let count = fitted_places(h, source, scope, size);
    begin(room, size, origin);
    if count == 0 {
        return Ok(Broadcast {
            reached: 1,
            last: 0,
        });
    }
    run(h, &table[from..to], room, scope, count, origin);
    Ok(tally(room, count))
}
