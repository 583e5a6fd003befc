// One round on the room itself: a sweep over the switches, then one over the links of each level.
ghost use Rattle.std.specs.Prelude.{◌≡◌, true, ◌+◌, ◌*◌, ◌≤◌, ◌<◌, length};
ghost use Rattle.hall.specs.Cells.{t};
ghost use Rattle.hall.specs.Halls.{valid};
ghost use Rattle.ports.specs.Codes.{up};
ghost use Rattle.combine.specs.Tests.{both};
ghost use Rattle.ports.specs.Links.{both_up, switch_has};
ghost use Rattle.broadcast.specs.Sweeps.{reached_by, fresh, Sweep, open_on, on_switch, on_switches, over_link, on_links, on_levels, within, SwitchFits, LinksFit, RoundFits};

use crate::NONE;
use crate::places::{Place, neighbour_at, next_place};
use hall::Hall;

// Whether y is reached before round r and has its port 0 up.
fn is_ready(h: Hall, table: &[u8], room: &[u16], r: u16, y: u32) -> bool
    requires { y < length room.now }
    ensures { result ≡ both (reached_by r room.now y) (up h table.now y 0) }
{
    let at = y as usize;
    if r < room[at] {
        return false;
    }
    ports::is_up(h, table, y, 0)
}

// Whether a server of the switch s is reached before round r and has its port 0 up.
fn is_live(h: Hall, table: &[u8], room: &[u16], r: u16, s: u32) -> bool
    requires { SwitchFits h s room.now }
    ensures { result ≡ switch_has h table.now (reached_by r room.now) s }
{
    let first = s * h.n;
    for i in 0..h.n {
        if is_ready(h, table, room, r, first + i) {
            return true;
        }
    }
    false
}

// Whether x is not reached and has its port 0 up.
fn is_open(h: Hall, table: &[u8], room: &[u16], x: u32) -> bool
    requires { x < length room.now }
    ensures { result ≡ fresh (λ y. up h table.now y 0) room.now x }
{
    let at = x as usize;
    if room[at] != NONE {
        return false;
    }
    ports::is_up(h, table, x, 0)
}

// Round r reaches the servers of the switch s that have port 0 up.
fn fill_switch(h: Hall, table: &[u8], room: &mut [u16], r: u16, s: u32) -> bool
    requires { SwitchFits h s room.old × (r < 5256) }
    ensures { Sweep (open_on h table.now s) r room.old room.new result }
{
    let mut any = false;
    let first = s * h.n;
    for x in first..first + h.n {
        if is_open(h, table, room, x) {
            let at = x as usize;
            room[at] = r + 1;
            any = true;
        }
    }
    any
}

// Round r over the switch s.
fn over_switch(h: Hall, table: &[u8], room: &mut [u16], r: u16, s: u32) -> bool
    requires { SwitchFits h s room.old × (r < 5256) }
    ensures { Sweep (on_switch h table.now (reached_by r room.old) s) r room.old room.new result }
{
    if !is_live(h, table, room, r, s) {
        return false;
    }
    fill_switch(h, table, room, r, s)
}

// Round r over the first so many switches.
fn over_switches(h: Hall, table: &[u8], room: &mut [u16], r: u16, count: u32) -> bool
    requires { (0 < h.n) × (count * h.n ≤ length room.old) × (count * h.n ≤ 5256) × (r < 5256) }
    ensures { Sweep (on_switches h table.now (reached_by r room.old) (count * h.n)) r room.old room.new result }
{
    let mut any = false;
    for s in 0..count {
        any |= over_switch(h, table, room, r, s);
    }
    any
}

// Whether x is not reached, and its link to y is usable and y reached before round r.
fn is_reached(h: Hall, table: &[u8], room: &[u16], r: u16, port: u32, x: u32, y: u32) -> bool
    requires { (x < length room.now) × (y < length room.now) }
    ensures { result ≡ fresh (λ v. both (reached_by r room.now y) (both_up h table.now port y v)) room.now x }
{
    let at = x as usize;
    if room[at] != NONE {
        return false;
    }
    let other = y as usize;
    if r < room[other] {
        return false;
    }
    if !ports::is_up(h, table, y, port) {
        return false;
    }
    ports::is_up(h, table, x, port)
}

// Round r over the links of level j + 1, between sub-cells of `cell` servers.
fn over_links(h: Hall, table: &[u8], room: &mut [u16], r: u16, size: u32, j: u32, cell: u32) -> bool
    requires { LinksFit h size j cell r room.old }
    ensures { Sweep (on_links h table.now (reached_by r room.old) size j) r room.old room.new result }
{
    let mut any = false;
    let mut p = Place {
        base: 0,
        sub: 0,
        inside: 0,
    };
    for x in 0..size {
        if is_reached(h, table, room, r, j + 1, x, neighbour_at(cell, p)) {
            let at = x as usize;
            room[at] = r + 1;
            any = true;
        }
        p = next_place(cell, p);
    }
    any
}

// Round r over the links of level 1 to `levels`.
fn over_levels(h: Hall, table: &[u8], room: &mut [u16], r: u16, size: u32, levels: u32) -> bool
    requires { RoundFits h levels size r room.old }
    ensures { Sweep (on_levels h table.now (reached_by r room.old) size levels) r room.old room.new result }
{
    let mut any = false;
    let mut cell = h.n;
    for j in 0..levels {
        any |= over_links(h, table, room, r, size, j, cell);
        cell = (cell + 1) * cell;
    }
    any
}

// Round r: whoever of the first `size` places is not reached and is joined to one who is reached before gets r + 1. Answers whether anybody does.
pub(crate) fn one_round(
    h: Hall,
    table: &[u8],
    room: &mut [u16],
    r: u16,
    scope: u32,
    size: u32,
) -> bool
    requires { RoundFits h scope size r room.old }
    ensures { Sweep (within h table.now (reached_by r room.old) size scope) r room.old room.new result }
{
    let any = over_switches(h, table, room, r, size / h.n);
    any | over_levels(h, table, room, r, size, scope)
}
