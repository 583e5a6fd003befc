// Routes without failures: the route between two servers of a hall, and its first link above the local level.

#![tactic(auto)]

ghost use Rattle.std.specs.Prelude.{◌≡◌, ◌+◌, [], ◌∷◌, length, Ok, IfOk};
ghost use Rattle.std.proofs.lemmas.List.Edits.{sets};
ghost use Rattle.hall.specs.Refusals.{refusal, refusal_in};
ghost use Rattle.hall.specs.Cells.{port};
ghost use Rattle.hall.specs.Halls.{asks_hall, asks_uid};
ghost use Rattle.hall.specs.Answers.{sizes_of, sizes_stated};
ghost use Rattle.route.specs.Routes.{route};
ghost use Rattle.route.specs.Answers.{route_between, route_stated, first_above, first_link_of, first_link_stated};
ghost use Rattle.route.specs.Filling.{in_switch, per_switch, Inside, Room};

use hall::refusals::Refusal;
use hall::{Hall, PLACES};

// The servers of the longest route.
pub const LONGEST: usize = 16;

// A route: its links, and its uids in order, zeros behind them as the rules ask; an array, since there is no heap.
#[derive(Clone, Copy)]
pub struct Route {
    pub links: u32,
    pub uids: [u32; LONGEST],
}

// A link of a route between two sub-cells of a level: its near end, its far end and the level.
#[derive(Clone, Copy)]
pub struct Crossing {
    pub near: u32,
    pub far: u32,
    pub level: u32,
}

// Inside sub-cell p, the server that is joined to sub-cell q.
#[tactic(auto, unfolding(hall::specs::Cells::port))]
fn port_to(p: u32, q: u32) -> u32
    ensures { result ≡ port p q }
{
    if p < q {
        return q - 1;
    }
    q
}

// Writes the route between two servers of one DCell0 from place `at` on, and answers the place behind it.
fn put(x: u32, y: u32, uids: &mut [u32; LONGEST], at: usize) -> usize
    requires { Room uids.old 0 at }
    ensures next { result ≡ at + length (in_switch x y) }
    ensures filled { uids.new ≡ sets uids.old at (in_switch x y) }
{
    let links = u32::from(x != y);
    let next = at + 1;
    uids[at] = x;
    uids[next] = y * links;
    next + links as usize
}

// Writes the route between two places of the DCell that starts at `first`, from place `at` on, and answers the place behind it.
fn fill(
    sizes: &[u32; PLACES],
    level: usize,
    first: u32,
    from: u32,
    to: u32,
    uids: &mut [u32; LONGEST],
    at: usize,
) -> usize
    requires { Inside sizes.now level first from to × Room uids.old level at }
    ensures next { result ≡ at + length (route (per_switch sizes.now) level (first + from) (first + to)) }
    ensures filled { uids.new ≡ sets uids.old at (route (per_switch sizes.now) level (first + from) (first + to)) }
{
    if level == 0 {
        return put(first + from, first + to, uids, at);
    }
    let below = level - 1;
    let size = sizes[below];
    let p = from / size;
    let q = to / size;
    let from_inside = from % size;
    let to_inside = to % size;
    let here = first + p * size;
    if p == q {
        return fill(sizes, below, here, from_inside, to_inside, uids, at);
    }
    let there = first + q * size;
    let out = port_to(p, q);
    let into = port_to(q, p);
    if below == 0 {
        let middle = put(here + from_inside, here + out, uids, at);
        return put(there + into, there + to_inside, uids, middle);
    }
    let middle = fill(sizes, below, here, from_inside, out, uids, at);
    fill(sizes, below, there, into, to_inside, uids, middle)
}

// The first link above level b of the route from x to y, or none.
fn first_above(sizes: &[u32; PLACES], b: u32, k: u32, x: u32, y: u32) -> Option<Crossing>
    requires { Inside sizes.now k 0 x y }
    ensures { result ≡ first_above (per_switch sizes.now) b k x y }
{
    let mut found = None;
    let mut first = 0;
    let mut from = x;
    let mut to = y;
    for j in (b..k).rev() {
        let size = sizes[j as usize];
        let p = from / size;
        let q = to / size;
        let here = first + p * size;
        from %= size;
        to %= size;
        if p != q {
            let out = port_to(p, q);
            let far = first + q * size + port_to(q, p);
            found = Some(Crossing {
                near: here + out,
                far,
                level: j + 1,
            });
            to = out;
        }
        first = here;
    }
    found
}

// Why the servers x and y are refused, of a hall that has these sizes. The sizes are looked at where they lie: handing them on in a `Result` copied them.
fn refused_servers(h: Hall, sizes: &[u32; PLACES], x: u32, y: u32) -> Result<(), Refusal>
    requires { sizes_stated (Ok sizes.now) ≡ sizes_of h }
    ensures refused { refusal_in result ≡ refusal (asks_hall h ∷ asks_uid h x ∷ asks_uid h y ∷ []) }
    ensures given { IfOk result (λ _. Inside sizes.now h.k 0 x y × (per_switch sizes.now ≡ h.n)) }
{
    let servers = sizes[h.k as usize];
    if servers <= x || servers <= y {
        return Err(Refusal::BadUid);
    }
    Ok(())
}

// The route from x to y.
pub fn route_between(h: Hall, x: u32, y: u32) -> Result<Route, Refusal>
    ensures { route_stated result ≡ route_between h x y }
{
    let sizes = hall::sizes_of(h)?;
    refused_servers(h, &sizes, x, y)?;
    let mut uids = [0u32; LONGEST];
    let next = fill(&sizes, h.k as usize, 0, x, y, &mut uids, 0);
    Ok(Route {
        links: (next - 1) as u32,
        uids,
    })
}

// The first link above the hall's local level of the route from x to y, or none.
pub fn first_link(h: Hall, x: u32, y: u32) -> Result<Option<Crossing>, Refusal>
    ensures { first_link_stated result ≡ first_link_of h x y }
{
    let sizes = hall::sizes_of(h)?;
    refused_servers(h, &sizes, x, y)?;
    Ok(first_above(&sizes, h.b, h.k, x, y))
}
