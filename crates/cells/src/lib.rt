// Where a server stands in a hall: its tuple, the cells around it, its neighbours and links.

#![tactic(auto)]

mod joined;

ghost use Rattle.std.specs.Prelude.{true, ◌≡◌, [], ◌∷◌, ◌≤◌, ◌<◌};
ghost use Rattle.combine.specs.Lists.{up_to};
ghost use Rattle.hall.specs.Refusals.{refusal, refusal_in};
ghost use Rattle.hall.specs.Halls.{places, Sized, asks_hall, asks_uid, asks_level};
ghost use Rattle.hall.specs.Tuples.{entry_fits, tuple_fits, uid_up_to, tuple};
ghost use Rattle.hall.specs.Answers.{size_at};
ghost use Rattle.cells.specs.Answers.{uid_of, uid_stated, tuple_of, tuple_stated, cell_around, cell_stated, neighbour_of, neighbour_stated, asks_link, link_between, link_stated};

use crate::joined::{ends_over, neighbour_over};
use hall::refusals::Refusal;
use hall::{Hall, PLACES};

// The DCell around a server: its first uid, and its servers.
#[derive(Clone, Copy)]
pub struct Cell {
    pub first: u32,
    pub count: u32,
}

// The link between two sub-cells, both ends as hall uids.
#[derive(Clone, Copy)]
pub struct Link {
    pub from: u32,
    pub to: u32,
}

// What is refused of a hall and a uid.
fn refused_uid(h: Hall, uid: u32) -> Result<(), Refusal>
    ensures { refusal_in result ≡ refusal (asks_hall h ∷ asks_uid h uid ∷ []) }
{
    let servers = hall::servers_of(h);
    if servers == 0 {
        return Err(Refusal::BadHall);
    }
    if servers <= uid {
        return Err(Refusal::BadUid);
    }
    Ok(())
}

// What is refused of a hall, a uid and a level from `lowest` on.
fn refused_level(h: Hall, uid: u32, lowest: u32, level: u32) -> Result<(), Refusal>
    ensures { refusal_in result ≡ refusal (asks_hall h ∷ asks_uid h uid ∷ asks_level h lowest level ∷ []) }
{
    refused_uid(h, uid)?;
    if level < lowest {
        return Err(Refusal::BadRange);
    }
    if h.k < level {
        return Err(Refusal::BadRange);
    }
    Ok(())
}

// The DCell of a level around a server.
pub fn cell_around(h: Hall, uid: u32, level: u32) -> Result<Cell, Refusal>
    ensures { cell_stated result ≡ cell_around h uid level }
{
    refused_level(h, uid, 0, level)?;
    let count = hall::size_of(h, level);
    Ok(Cell {
        first: uid / count * count,
        count,
    })
}

// The neighbour of a server at a level.
pub fn neighbour_of(h: Hall, uid: u32, level: u32) -> Result<u32, Refusal>
    ensures { neighbour_stated result ≡ neighbour_of h uid level }
{
    refused_level(h, uid, 1, level)?;
    let joined = neighbour_over(hall::size_of(h, level - 1), uid);
    Ok(joined as u32)
}

// What is refused of the link between the sub-cells p and q.
fn refused_link(h: Hall, uid: u32, level: u32, p: u32, q: u32) -> Result<(), Refusal>
    ensures { refusal_in result ≡ refusal (asks_link h uid level p q) }
{
    refused_level(h, uid, 1, level)?;
    let size = hall::size_of(h, level - 1);
    if size < p {
        return Err(Refusal::BadRange);
    }
    if size < q {
        return Err(Refusal::BadRange);
    }
    if p == q {
        return Err(Refusal::BadRange);
    }
    Ok(())
}

// The link between the sub-cells p and q of the DCell of a level around a server, the end in p first.
pub fn link_between(h: Hall, uid: u32, level: u32, p: u32, q: u32) -> Result<Link, Refusal>
    ensures { link_stated result ≡ link_between h uid level p q }
{
    refused_link(h, uid, level, p, q)?;
    let size = hall::size_of(h, level - 1);
    let count = (size + 1) * size;
    let first = uid / count * count;
    let ends = ends_over(size, first + p * size, first + q * size);
    Ok(Link {
        from: ends.near as u32,
        to: ends.far as u32,
    })
}

// Whether a place of a tuple is within its limit, and 0 above k.
fn entry_fits(n: u32, k: u32, sizes: [u32; PLACES], entries: [u32; PLACES], i: usize) -> bool
    requires { Sized n k × (sizes ≡ up_to (size_at n k) places) × (i < places) }
    ensures { result ≡ entry_fits n k entries i }
{
    let entry = entries[i];
    if (k as usize) < i {
        return entry == 0;
    }
    if i == 0 {
        return entry < n;
    }
    entry < sizes[i - 1] + 1
}

// Whether every place of a tuple is within its limit.
fn tuple_fits(n: u32, k: u32, sizes: [u32; PLACES], entries: [u32; PLACES]) -> bool
    requires { Sized n k × (sizes ≡ up_to (size_at n k) places) }
    ensures { result ≡ tuple_fits n k entries }
{
    (0..PLACES).all(|i| entry_fits(n, k, sizes, entries, i))
}

// The uid of a tuple that fits.
fn uid_up_to(n: u32, k: u32, entries: [u32; PLACES]) -> u32
    requires { Sized n k × (tuple_fits n k entries ≡ true) }
    ensures { result ≡ uid_up_to n k entries }
{
    let mut uid = entries[0];
    let mut s = n;
    for entry in &entries[1..=k as usize] {
        uid += entry * s;
        s = (s + 1) * s;
    }
    uid
}

// The uid of a tuple.
pub fn uid_of(h: Hall, entries: [u32; PLACES]) -> Result<u32, Refusal>
    ensures { uid_stated result ≡ uid_of h entries }
{
    let sizes = hall::sizes_of(h)?;
    if !tuple_fits(h.n, h.k, sizes, entries) {
        return Err(Refusal::BadRange);
    }
    Ok(uid_up_to(h.n, h.k, entries))
}

// The entries of a uid up to level k, zeros above.
fn entries_up_to(n: u32, k: u32, uid: u32) -> [u32; PLACES]
    requires { (2 ≤ n) × Sized n k }
    ensures { result ≡ tuple n k uid }
{
    let mut entries = [0u32; PLACES];
    entries[0] = uid % n;
    let mut cell = uid / n;
    let mut s = n;
    for i in 0..k as usize {
        entries[i + 1] = cell % (s + 1);
        cell /= s + 1;
        s = (s + 1) * s;
    }
    entries
}

// The tuple of a uid: place i holds a(i), zeros above k.
pub fn tuple_of(h: Hall, uid: u32) -> Result<[u32; PLACES], Refusal>
    ensures { tuple_stated result ≡ tuple_of h uid }
{
    refused_uid(h, uid)?;
    Ok(entries_up_to(h.n, h.k, uid))
}
