// The DCell1s of a hall that is fitted one by one: where the next one goes, and which servers are fitted.

#![tactic(auto)]

ghost use Rattle.std.specs.Prelude.{◌≡◌, true, ◌+◌, ◌*◌, ◌≤◌, ◌<◌};
ghost use Rattle.combine.specs.Lists.{up_to};
ghost use Rattle.hall.specs.Cells.{t};
ghost use Rattle.hall.specs.Refusals.{refusal, refusal_in};
ghost use Rattle.hall.specs.Halls.{most_n, largest, places, Sized, valid};
ghost use Rattle.plan.specs.Plan.{index, inside, before, rank, prefix_of};
ghost use Rattle.plan.specs.Answers.{asks_plan, prefix_at, next_prefix, prefix_stated, first_fitted, is_fitted, front, fitted_servers, Racks};

use hall::refusals::Refusal;
use hall::{Hall, PLACES};

// With g = t(1) + 1, sub-cells of r DCell1s each, and c fitted: the sub-cell of the next.
fn sub_cell(g: u32, r: u32, c: u32) -> u32
    requires { (0 < r) × (g * r < 4294967296) }
    ensures { result ≡ index g r c }
{
    if c < g {
        return c;
    }
    if c < g * r {
        return (c - g) / (r - 1);
    }
    c / r
}

// And how many that sub-cell has.
fn sub_count(g: u32, r: u32, c: u32) -> u32
    requires { (0 < r) × (g * r < 4294967296) }
    ensures { result ≡ inside g r c }
{
    if c < g {
        return 0;
    }
    if c < g * r {
        return (c - g) % (r - 1) + 1;
    }
    c % r
}

// The prefix of the next DCell1 in a DCell of level m + 1, where c are fitted: from the highest level down.
fn prefix_up_to(n: u32, m: u32, c: u32) -> [u32; PLACES]
    requires low { 2 ≤ n }
    requires sized { Sized n (m + 1) }
    ensures { result ≡ up_to (prefix_at n (m + 1) c) places }
{
    let g = (n + 1) * n + 1;
    let mut entries = [0u32; PLACES];
    let mut d = c;
    for j in (1..=m).rev() {
        let r = hall::racks_of(n, j);
        let at = (j + 1) as usize;
        entries[at] = sub_cell(g, r, d);
        d = sub_count(g, r, d);
    }
    entries
}

// Why the planner is refused.
#[tactic(auto, using(crate::proofs::Asks::plan_asked))]
fn refused(h: Hall) -> Result<(), Refusal>
    ensures { refusal_in result ≡ refusal (asks_plan h) }
{
    if hall::servers_of(h) == 0 {
        return Err(Refusal::BadHall);
    }
    if h.k < 2 {
        return Err(Refusal::BadHall);
    }
    if h.count == hall::racks_of(h.n, h.k) {
        return Err(Refusal::HallFull);
    }
    Ok(())
}

// The prefix of the next DCell1 of a hall: place i holds a(i) for i from 2 to k, so that it is the tuple of the DCell1's first server.
#[tactic(auto, using(crate::proofs::Asks::plan_good))]
pub fn next_prefix(h: Hall) -> Result<[u32; PLACES], Refusal>
    ensures { prefix_stated result ≡ next_prefix h }
{
    refused(h)?;
    Ok(prefix_up_to(h.n, h.k - 1, h.count))
}

// How many are fitted before number i of sub-cell q.
fn before_of(g: u32, r: u32, q: u32, i: u32) -> u32
    requires { (0 < r) × (i < r) × (g * r < 4294967296) × (q * r + r < 4294967296) }
    ensures { result ≡ before g r q i }
{
    if q < g {
        if i == 0 {
            return q;
        }
        return g + (q * (r - 1) + (i - 1));
    }
    q * r + i
}

// How many are fitted before the DCell1 of a server, in its DCell of level m + 1: from the lowest level up.
fn rank_of(n: u32, m: u32, uid: u32) -> u32
    requires { (0 < n) × Sized n (m + 1) }
    ensures { result ≡ rank n m (prefix_of n m uid) }
{
    let g = (n + 1) * n + 1;
    let mut s = (n + 1) * n;
    let mut cell = uid / s;
    let mut r: u32 = 1;
    let mut c: u32 = 0;
    for _j in 0..m {
        c = before_of(g, r, cell % (s + 1), c);
        cell = cell / (s + 1);
        r = (s + 1) * r;
        s = (s + 1) * s;
    }
    c
}

// Whether the fitted servers are the first of the hall: in a DCell2 they are, and in a DCell3 once the DCell2s that it began with are full.
fn first_fitted(n: u32, k: u32, count: u32) -> bool
    requires { n ≤ most_n }
    ensures { result ≡ first_fitted n k count }
{
    if k == 2 {
        return true;
    }
    if k != 3 {
        return false;
    }
    let g = (n + 1) * n + 1;
    g * g <= count
}

// The servers of so many DCell1s.
#[tactic(auto, using(crate::proofs::Asks::rack_numbers))]
fn servers_in(n: u32, count: u32) -> u32
    requires { (n ≤ most_n) × (count * t n 1 ≤ largest) }
    ensures { result ≡ count * t n 1 }
{
    count * ((n + 1) * n)
}

// Whether there is such a server and it is fitted, by the rank of its DCell1; with k below 2 there is one DCell1, and it is.
fn ranks_below(h: Hall, uid: u32) -> bool
    requires { valid h ≡ true }
    ensures { result ≡ is_fitted h uid }
{
    if hall::servers_of(h) <= uid {
        return false;
    }
    if h.k < 2 {
        return true;
    }
    rank_of(h.n, h.k - 1, uid) < h.count
}

// Whether a server of a hall is fitted; false where there is no such server. Where the fitted ones are the first, their number decides.
pub fn is_fitted(h: Hall, uid: u32) -> bool
    ensures { result ≡ is_fitted h uid }
{
    if hall::size_of(h, 0) == 0 {
        return false;
    }
    if first_fitted(h.n, h.k, h.count) {
        return uid < servers_in(h.n, h.count);
    }
    ranks_below(h, uid)
}

// How many of `most` DCell1s, from uid `first` on, are fitted.
fn fitted_racks(h: Hall, first: u32, most: u32) -> u32
    requires { Racks h first most }
    ensures { result ≡ front h first most }
{
    let size = (h.n + 1) * h.n;
    let mut racks: u32 = 0;
    for q in 0..most {
        racks += u32::from(is_fitted(h, first + q * size));
    }
    racks
}

// The fitted servers of the DCell2 around a server, which are its first; 0 where there is no such server or k is below 2.
pub fn fitted_servers(h: Hall, uid: u32) -> u32
    ensures { result ≡ fitted_servers h uid }
{
    if h.k < 2 {
        return 0;
    }
    if hall::servers_of(h) <= uid {
        return 0;
    }
    let size = (h.n + 1) * h.n;
    let cell = (size + 1) * size;
    fitted_racks(h, uid / cell * cell, size + 1) * size
}
