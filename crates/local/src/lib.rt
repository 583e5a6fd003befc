// Distances inside a DCell(b) over its usable links, and the next hop that they give.

#![tactic(auto)]

ghost use Rattle.std.specs.Prelude.{◌≡◌, true, false, [], ◌∷◌, ◌+◌, ◌*◌, ◌≤◌, ◌<◌, length};
ghost use Rattle.combine.specs.Tests.{pick, both, any_below};
ghost use Rattle.hall.specs.Refusals.{refusal, refusal_in};
ghost use Rattle.hall.specs.Cells.{neighbour};
ghost use Rattle.hall.specs.Halls.{most_n, valid, servers, asks_hall, asks_uid};
ghost use Rattle.ports.specs.Codes.{up};
ghost use Rattle.ports.specs.Links.{on_switch, both_up, switch_has};
ghost use Rattle.ports.specs.Answers.{asks_cell};
ghost use Rattle.plan.specs.Answers.{fitted};
ghost use Rattle.search.specs.Rounds.{new, round};
ghost use Rattle.local.specs.Local.{none, cell_size, linked, record_from, hop};
ghost use Rattle.local.specs.Lowest.{lowest_from};
ghost use Rattle.local.specs.Looks.{reached_by, on_link, met_by, beside_by, across_by, gives_by};
ghost use Rattle.local.specs.Answers.{distances_of, distances_stated, next_hop_of, next_hop_stated};

use hall::Hall;
use hall::refusals::Refusal;

// The distance that says that there is none.
pub const NONE: u8 = 255;

// The distances from one server, kept with it in one record, as the rules ask: the place of a server in the cell is its uid less the cell's first.
#[derive(Clone, Copy)]
pub struct Distances {
    pub origin: u32,
    pub count: u32,
    pub distance: [u8; 72],
}

// The switches of a DCell(b).
fn switches(h: Hall) -> u32
    requires { valid h ≡ true }
    ensures { result * h.n ≡ cell_size h }
{
    if h.b == 0 {
        return 1;
    }
    h.n + 1
}

// What is refused of a hall of so many servers, the table of a DCell(b) and a uid.
fn refused_among(h: Hall, size: u32, table: &[u8], uid: u32) -> Result<(), Refusal>
    requires { size ≡ pick (valid h) (servers h) 0 }
    ensures { refusal_in result ≡ refusal (asks_hall h ∷ asks_cell h table.now ∷ asks_uid h uid ∷ []) }
{
    if size == 0 {
        return Err(Refusal::BadHall);
    }
    let bytes = (hall::size_of(h, h.b) as usize) * ((h.k as usize) + 1);
    if table.len() != bytes {
        return Err(Refusal::BadLength);
    }
    if size <= uid {
        return Err(Refusal::BadUid);
    }
    Ok(())
}

// What is refused of a hall, the table of a DCell(b) and a uid.
fn refused(h: Hall, table: &[u8], uid: u32) -> Result<(), Refusal>
    ensures { refusal_in result ≡ refusal (asks_hall h ∷ asks_cell h table.now ∷ asks_uid h uid ∷ []) }
{
    refused_among(h, hall::servers_of(h), table, uid)
}

// Whether port i of both servers is up.
fn both_up(h: Hall, table: &[u8], port: u32, x: u32, y: u32) -> bool
    ensures { result ≡ both_up h table.now port x y }
{
    if !ports::is_up(h, table, x, port) {
        return false;
    }
    ports::is_up(h, table, y, port)
}

// Whether y is reached before round r: what round r itself writes is not.
fn is_reached(d: &[u8; 72], r: u8, y: u32) -> bool
    requires { y < 72 }
    ensures { result ≡ reached_by d.now r y }
{
    let at = y as usize;
    d[at] <= r
}

// Whether y is reached before round r and has its port 0 up.
fn gives(h: Hall, table: &[u8], d: &[u8; 72], r: u8, y: u32) -> bool
    requires { y < 72 }
    ensures { result ≡ both (reached_by d.now r y) (up h table.now y 0) }
{
    if !is_reached(d, r, y) {
        return false;
    }
    ports::is_up(h, table, y, 0)
}

// Whether a server of the switch s is reached before round r and has its port 0 up.
fn is_live(h: Hall, table: &[u8], d: &[u8; 72], r: u8, s: u32) -> bool
    requires { s * h.n + h.n ≤ 72 }
    ensures { result ≡ switch_has h table.now (reached_by d.now r) s }
{
    let first = s * h.n;
    for i in 0..h.n {
        if gives(h, table, d, r, first + i) {
            return true;
        }
    }
    false
}

// The place of the level-1 neighbour of server i on switch s.
fn neighbour_place(n: u32, s: u32, i: u32) -> u32
    requires { (n ≤ most_n) × (i < n) × (s ≤ n) }
    ensures { result ≡ neighbour n 0 (s * n + i) }
{
    if s <= i {
        return (i + 1) * n + s;
    }
    i * n + (s - 1)
}

// Whether y is reached before round r, with both ends of its level-1 link to x up.
fn over_link(h: Hall, table: &[u8], d: &[u8; 72], r: u8, x: u32, y: u32) -> bool
    requires { y < 72 }
    ensures { result ≡ on_link h table.now (reached_by d.now r) x y }
{
    if !is_reached(d, r, y) {
        return false;
    }
    both_up(h, table, 1, y, x)
}

// Whether x has its port 0 up, and a live switch.
fn by_switch(h: Hall, table: &[u8], x: u32, live: bool) -> bool
    ensures { result ≡ both (up h table.now x 0) live }
{
    if !live {
        return false;
    }
    ports::is_up(h, table, x, 0)
}

// Whether round r reaches server i of switch s; `live` says whether one on that switch is reached before it, with its port 0 up.
#[tactic(auto, using(crate::proofs::Sizes::size_within))]
fn is_new(h: Hall, table: &[u8], d: &[u8; 72], r: u8, s: u32, i: u32, live: bool) -> bool
    requires { (valid h ≡ true) × (r < 255) × (i < h.n) × (s * h.n + i < cell_size h) × (live ≡ switch_has h table.now (reached_by d.now r) s) }
    ensures { result ≡ new (linked h table.now) (cell_size h) none r d.now (s * h.n + i) }
{
    let x = s * h.n + i;
    let at = x as usize;
    if d[at] != NONE {
        return false;
    }
    if by_switch(h, table, x, live) {
        return true;
    }
    if h.b == 0 {
        return false;
    }
    over_link(h, table, d, r, x, neighbour_place(h.n, s, i))
}

// Round r where the distances stand: who is new gets r + 1. Answers whether anybody is.
#[tactic(auto, using(crate::proofs::Sizes::switch_within))]
fn one_round(h: Hall, table: &[u8], d: &mut [u8; 72], r: u8) -> bool
    requires { (valid h ≡ true) × (r < 72) × (length d.old ≡ 72) }
    ensures reaches { result ≡ any_below (new (linked h table.now) (cell_size h) none r d.old) (cell_size h) }
    ensures writes { d.new ≡ round (linked h table.now) (cell_size h) none r d.old }
{
    let count = switches(h);
    let mut any = false;
    for s in 0..count {
        let live = is_live(h, table, d, r, s);
        for i in 0..h.n {
            if is_new(h, table, d, r, s, i, live) {
                let at = (s * h.n + i) as usize;
                d[at] = r + 1;
                any = true;
            }
        }
    }
    any
}

// The distance of each place from the place o.
#[tactic(auto, using(crate::proofs::Sizes::size_within, crate::proofs::Sizes::count_within))]
fn distances_from(h: Hall, table: &[u8], o: u32) -> [u8; 72]
    requires { (valid h ≡ true) × (o < cell_size h) }
    ensures { result ≡ record_from h table.now o }
{
    let count = hall::size_of(h, h.b);
    let mut d = [NONE; 72];
    let at = o as usize;
    d[at] = 0;
    for r in 0..count as u8 {
        if !one_round(h, table, &mut d, r) {
            return d;
        }
    }
    d
}

// The table of a server's DCell(b); none of it where the server is not fitted, since then no code of it counts.
fn own_codes(h: Hall, uid: u32, table: &[u8]) -> &[u8]
    requires { (valid h ≡ true) × (uid < servers h) }
    ensures { result.now ≡ pick (fitted h uid) table.now [] }
{
    if h.count == hall::racks_of(h.n, h.k) {
        return table;
    }
    if plan::is_fitted(h, uid) {
        return table;
    }
    &table[0..0]
}

// The distances from a server to each server of its DCell(b), over the table of that cell.
pub fn distances_of(h: Hall, uid: u32, table: &[u8]) -> Result<Distances, Refusal>
    ensures { distances_stated result ≡ distances_of h uid table.now }
{
    refused(h, table, uid)?;
    let count = hall::size_of(h, h.b);
    Ok(Distances {
        origin: uid,
        count,
        distance: distances_from(h, own_codes(h, uid, table), uid % count),
    })
}

// Whether two servers are on one switch.
fn on_switch(n: u32, x: u32, y: u32) -> bool
    requires { 0 < n }
    ensures { result ≡ on_switch n x y }
{
    if x == y {
        return false;
    }
    x / n == y / n
}

// Whether a usable link joins the servers at two places.
#[tactic(auto, using(crate::proofs::Sizes::switch_pos))]
fn is_linked(h: Hall, table: &[u8], x: u32, y: u32) -> bool
    requires { (valid h ≡ true) × (x < cell_size h) }
    ensures { result ≡ linked h table.now x y }
{
    if on_switch(h.n, x, y) {
        return both_up(h, table, 0, x, y);
    }
    if h.b == 0 {
        return false;
    }
    if neighbour_place(h.n, x / h.n, x % h.n) != y {
        return false;
    }
    both_up(h, table, 1, x, y)
}

// The lowest server of the switch s that is reached before round r and has its port 0 up; n where there is none, as lowest_from has it.
fn lowest_giving(h: Hall, table: &[u8], d: &[u8; 72], r: u8, s: u32) -> u32
    requires { s * h.n + h.n ≤ 72 }
    ensures { result ≡ lowest_from (gives_by h table.now d.now r s) h.n 0 }
{
    let first = s * h.n;
    for z in 0..h.n {
        if gives(h, table, d, r, first + z) {
            return z;
        }
    }
    h.n
}

// The lowest place on the switch of x that meets it, `count` where there is none, as lowest_from has it.
#[tactic(auto, using(crate::proofs::Sizes::switch_pos))]
fn met_beside(h: Hall, table: &[u8], d: &[u8; 72], r: u8, x: u32, count: u32) -> u32
    requires { (valid h ≡ true) × (h.b ≡ 0 → ⊥) × (x < cell_size h) × (count ≡ cell_size h) × (reached_by d.now r x ≡ false) }
    ensures { result ≡ lowest_from (beside_by h table.now d.now r x) (cell_size h) 0 }
{
    if !ports::is_up(h, table, x, 0) {
        return count;
    }
    let s = x / h.n;
    let i = lowest_giving(h, table, d, r, s);
    if i < h.n {
        return s * h.n + i;
    }
    count
}

// The place across the level-1 link of x where it meets x, else `count`.
#[tactic(auto, using(crate::proofs::Sizes::switch_pos))]
fn met_across(h: Hall, table: &[u8], d: &[u8; 72], r: u8, x: u32, count: u32) -> u32
    requires { (valid h ≡ true) × (h.b ≡ 0 → ⊥) × (x < cell_size h) × (count ≡ cell_size h) }
    ensures { result ≡ lowest_from (across_by h table.now d.now r x) (cell_size h) 0 }
{
    let y = neighbour_place(h.n, x / h.n, x % h.n);
    if over_link(h, table, d, r, x, y) {
        return y;
    }
    count
}

// The lowest place that meets x: it is reached before round r, as x is not, and a usable link joins the two. `count` where there is none, as lowest_from has it.
fn lowest_met(h: Hall, table: &[u8], d: &[u8; 72], r: u8, x: u32, count: u32) -> u32
    requires { (valid h ≡ true) × (h.b ≡ 0 → ⊥) × (x < cell_size h) × (count ≡ cell_size h) × (reached_by d.now r x ≡ false) }
    ensures { result ≡ lowest_from (met_by h table.now d.now r x) (cell_size h) 0 }
{
    let beside = met_beside(h, table, d, r, x, count);
    let across = met_across(h, table, d, r, x, count);
    beside.min(across)
}

// The place of the next hop from x towards y, which no usable link joins, by a search from y until it meets x; the cell's size where there is none, as hop has it.
#[tactic(auto, using(crate::proofs::Sizes::size_within, crate::proofs::Sizes::count_within))]
fn searched_hop(h: Hall, table: &[u8], x: u32, y: u32) -> u32
    requires { (valid h ≡ true) × (x < cell_size h) × (y < cell_size h) × (x ≡ y → ⊥) × (linked h table.now x y ≡ false) × (h.b ≡ 0 → ⊥) }
    ensures { result ≡ hop h table.now x y }
{
    let count = hall::size_of(h, h.b);
    let mut d = [NONE; 72];
    let at = y as usize;
    d[at] = 0;
    for round in 0..count as u8 {
        if !one_round(h, table, &mut d, round) {
            return count;
        }
        let z = lowest_met(h, table, &d, round + 1, x, count);
        if z < count {
            return z;
        }
    }
    count
}

// The place of the next hop from x towards y, the cell's size where there is none, as hop has it: over a usable link y itself, and none else on a lone switch.
fn hop_place(h: Hall, table: &[u8], x: u32, y: u32) -> u32
    requires { (valid h ≡ true) × (x < cell_size h) × (y < cell_size h) }
    ensures { result ≡ hop h table.now x y }
{
    if is_linked(h, table, x, y) {
        return y;
    }
    if h.b == 0 {
        return h.n;
    }
    if x == y {
        return hall::size_of(h, h.b);
    }
    searched_hop(h, table, x, y)
}

// What is refused of a hall, the table of a DCell(b) and two uids.
fn refused_two(h: Hall, table: &[u8], uid: u32, target: u32) -> Result<(), Refusal>
    ensures { refusal_in result ≡ refusal (asks_hall h ∷ asks_cell h table.now ∷ asks_uid h uid ∷ asks_uid h target ∷ []) }
{
    let servers = hall::servers_of(h);
    refused_among(h, servers, table, uid)?;
    if servers <= target {
        return Err(Refusal::BadUid);
    }
    Ok(())
}

// The local next hop from a server towards another of its DCell(b), over the table of that cell; none in another cell or out of reach.
pub fn next_hop(h: Hall, uid: u32, target: u32, table: &[u8]) -> Result<Option<u32>, Refusal>
    ensures { next_hop_stated result ≡ next_hop_of h uid target table.now }
{
    refused_two(h, table, uid, target)?;
    let count = hall::size_of(h, h.b);
    let cell = uid / count;
    if target / count != cell {
        return Ok(None);
    }
    let z = hop_place(h, own_codes(h, uid, table), uid % count, target % count);
    if z < count {
        let next = cell * count + z;
        return Ok(Some(next));
    }
    Ok(None)
}
