// The numbers of a hall cabled as a DCell: which halls there are, and their sizes.

#![tactic(auto)]

pub mod refusals;

ghost use Rattle.std.specs.Prelude.{◌≡◌, ◌<◌};
ghost use Rattle.combine.specs.Tests.{pick};
ghost use Rattle.combine.specs.Lists.{up_to};
ghost use Rattle.hall.specs.Cells.{t};
ghost use Rattle.hall.specs.Halls.{places, Sized, capacity, n_fits, k_fits, b_fits, count_fits, valid, servers};
ghost use Rattle.hall.specs.Answers.{size_at, size_of, racks_of, sizes_of, sizes_stated};

use crate::refusals::Refusal;

// The most servers on a mini-switch.
pub const MOST_N: u32 = 8;
// The highest level that a hall may have.
pub const TOP: u32 = 3;
// The places of a tuple, one for each level that a hall may have.
pub const PLACES: usize = 4;

// A hall: n servers on a mini-switch, top level k, local level b, and the number of DCell1s that are fitted.
#[derive(Clone, Copy)]
pub struct Hall {
    pub n: u32,
    pub k: u32,
    pub b: u32,
    pub count: u32,
}

// Whether n is in its range.
#[tactic(auto, unfolding(crate::specs::Halls::n_fits))]
pub fn n_fits(n: u32) -> bool
    ensures { result ≡ n_fits n }
{
    if n < 2 {
        return false;
    }
    n <= MOST_N
}

// Whether k is in its range, in a hall of n servers to a switch.
pub fn k_fits(n: u32, k: u32) -> bool
    ensures { result ≡ k_fits n k }
{
    k <= TOP
}

// Whether b is in its range, in a hall of top level k.
#[tactic(auto, unfolding(crate::specs::Halls::b_fits))]
pub fn b_fits(k: u32, b: u32) -> bool
    ensures { result ≡ b_fits k b }
{
    if 1 < b {
        return false;
    }
    b <= k
}

// The DCell1s that a hall can have: the sub-cells of a DCell2 where k is 2 or 3, times those of a DCell3 where k is 3. Every call that is handed a hall
// asks for this, so it has no branch: then a compiler works it out once for all of a call's functions.
fn capacity(n: u32, k: u32) -> u32
    requires { Sized n k }
    ensures { result ≡ capacity n k }
{
    let one = (n + 1) * n;
    let two = (one + 1) * one;
    (one * (k / 2) + 1) * (two * (k / 3) + 1)
}

// The DCell1s that a hall can have; 0 where n or k is outside its range.
pub fn racks_of(n: u32, k: u32) -> u32
    ensures { result ≡ racks_of n k }
{
    if !n_fits(n) {
        return 0;
    }
    if !k_fits(n, k) {
        return 0;
    }
    capacity(n, k)
}

// Whether so many DCell1s may be fitted; with k below 2, where there can be one, none is too few.
fn count_fits(n: u32, k: u32, count: u32) -> bool
    requires { Sized n k }
    ensures { result ≡ count_fits n k count }
{
    if capacity(n, k) < count {
        return false;
    }
    0 < count + k / 2
}

// Whether there is such a hall.
fn is_valid(h: Hall) -> bool
    ensures { result ≡ valid h }
{
    if !n_fits(h.n) {
        return false;
    }
    if !k_fits(h.n, h.k) {
        return false;
    }
    if !b_fits(h.k, h.b) {
        return false;
    }
    count_fits(h.n, h.k, h.count)
}

// The servers of a DCell of level i.
fn size(n: u32, i: u32) -> u32
    requires { Sized n i }
    ensures { result ≡ t n i }
{
    let mut s = n;
    for _j in 0..i {
        s = (s + 1) * s;
    }
    s
}

// t(k), the servers of a hall; 0 where there is no such hall.
pub fn servers_of(h: Hall) -> u32
    ensures { result ≡ pick (valid h) (servers h) 0 }
{
    if !is_valid(h) {
        return 0;
    }
    size(h.n, h.k)
}

// t(i), the servers of a DCell of level i; 0 where there is no such hall or level.
pub fn size_of(h: Hall, i: u32) -> u32
    ensures { result ≡ size_of h i }
{
    if !is_valid(h) {
        return 0;
    }
    if h.k < i {
        return 0;
    }
    size(h.n, i)
}

// The sizes up to level k, zeros above.
fn sizes_up_to(n: u32, k: u32) -> [u32; PLACES]
    requires { Sized n k }
    ensures { result ≡ up_to (size_at n k) places }
{
    let mut t = [0u32; PLACES];
    let mut s = n;
    for i in 0..k {
        let at = i as usize;
        t[at] = s;
        s = (s + 1) * s;
    }
    let top = k as usize;
    t[top] = s;
    t
}

// The sizes of a hall: t(0) .. t(k), zeros above k.
pub fn sizes_of(h: Hall) -> Result<[u32; PLACES], Refusal>
    ensures { sizes_stated result ≡ sizes_of h }
{
    if !is_valid(h) {
        return Err(Refusal::BadHall);
    }
    Ok(sizes_up_to(h.n, h.k))
}
