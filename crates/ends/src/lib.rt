// The table that a step is lent: the codes of its server's DCell(b), and behind them the far port's code of each link above it, each as
// it counts in the hall.

#![tactic(auto)]

ghost use Rattle.std.specs.Prelude.{◌≡◌, true, ◌+◌, ◌*◌, ◌≤◌, ◌<◌, length};
ghost use Rattle.combine.specs.Tests.{pick};
ghost use Rattle.combine.specs.Lists.{up_to};
ghost use Rattle.hall.specs.Halls.{valid, servers};
ghost use Rattle.hall.specs.Refusals.{refusal_in};
ghost use Rattle.hall.specs.Rooms.{told, written};
ghost use Rattle.words.specs.Rooms.{put};
ghost use Rattle.ports.specs.Codes.{not_fitted, code_of, cell_length};
ghost use Rattle.plan.specs.Answers.{fitted};
ghost use Rattle.counted.specs.Counted.{port_fitted};
ghost use Rattle.local.specs.Local.{cell_size, first_of};
ghost use Rattle.ends.specs.Tables.{levels, far_count, step_length, far_code, far_at};
ghost use Rattle.ends.specs.Filling.{far_behind, spread, port_code, run_counted, table_counted};
ghost use Rattle.ends.specs.Answers.{of_step_table};

use hall::Hall;
use hall::refusals::Refusal;
use words::put_bytes;

// The code of a port that is not fitted.
const NOT_FITTED: u8 = 0;

// The code of a server's port in a hall table.
fn code_at(h: Hall, table: &[u8], server: u32, port: u32) -> u8
    requires { port ≤ h.k }
    ensures { result ≡ code_of h table.now server port }
{
    let at = (server as usize) * ((h.k as usize) + 1) + (port as usize);
    if at < table.len() {
        return table[at];
    }
    NOT_FITTED
}

// The neighbour of the server so many places behind one whose neighbour is `far`: both are in sub-cell `sub`, the first of them at place
// `inside`, and a sub-cell has `size` servers. A server's neighbours go up by a sub-cell, and step over their own.
fn far_behind(far: u32, size: u32, inside: u32, sub: u32, places: u32) -> u32
    requires { (inside + places < 4294967296) × (far_behind far size inside sub places < 4294967296) }
    ensures { result ≡ far_behind far size inside sub places }
{
    let next = far + places * size;
    if sub <= inside {
        return next;
    }
    if inside + places < sub {
        return next;
    }
    next + (size + 1)
}

// The far codes of one level for the DCell(b) of a server, one at every so many places of the room as there are levels above b.
fn put_level(h: Hall, table: &[u8], uid: u32, level: u32, room: &mut [u8], at: usize)
    requires { (valid h ≡ true) × (uid < servers h) × (h.b < level) × (level ≤ h.k) × (at + far_count h < length room.old + levels h) }
    ensures { room.new ≡ spread room.old at (levels h) (λ p. far_code h table.now (first_of h uid + p) level) (cell_size h) }
{
    let count = hall::size_of(h, h.b);
    let size = hall::size_of(h, level - 1);
    let step = (h.k - h.b) as usize;
    let first = uid / count * count;
    let far = cells::neighbour_of(h, first, level).unwrap();
    let inside = first % size;
    let sub = first / size % (size + 1);
    for p in 0..count {
        let place = at + (p as usize) * step;
        room[place] = code_at(h, table, far_behind(far, size, inside, sub, p), level);
    }
}

// The far codes of the DCell(b) of a server, written behind the first `at` bytes of a room that has them.
fn put_far(h: Hall, table: &[u8], uid: u32, room: &mut [u8], at: usize)
    requires { (valid h ≡ true) × (uid < servers h) × (at + far_count h ≤ length room.old) }
    ensures { room.new ≡ put room.old at (up_to (far_at h table.now uid) (far_count h)) }
{
    let all = h.k - h.b;
    for d in 0..all {
        put_level(h, table, uid, h.b + 1 + d, room, at + (d as usize));
    }
}

// A code as it counts: NOT_FITTED where the port's own server, which `here` tells of, or its far server is not fitted. The ports 0 and 1 lead to no
// other DCell1, and a DCell1 is fitted as a whole.
fn code_counted(h: Hall, here: bool, uid: u32, port: u32, code: u8) -> u8
    requires { (valid h ≡ true) × (uid < servers h) × (port ≤ h.k) × (here ≡ fitted h uid) }
    ensures { result ≡ pick (port_fitted h uid port) code not_fitted }
{
    if !here {
        return NOT_FITTED;
    }
    if port < 2 {
        return code;
    }
    if !plan::is_fitted(h, cells::neighbour_of(h, uid, port).unwrap()) {
        return NOT_FITTED;
    }
    code
}

// Makes the codes of one port of each server of a DCell(b) as they count; they stand at every `step`-th place of the room from `at` on.
fn count_port(h: Hall, here: bool, uid: u32, port: u32, room: &mut [u8], at: usize, step: usize)
    requires { (valid h ≡ true) × (uid < servers h) × (port ≤ h.k) × (here ≡ fitted h uid) × (0 < step) × (step ≤ h.k + 1) × (at + cell_size h * step < length room.old + step) }
    ensures { room.new ≡ spread room.old at step (port_code h (first_of h uid) port room.old at step) (cell_size h) }
{
    let count = hall::size_of(h, h.b);
    let first = uid / count * count;
    // Where the next code stands goes on by a step: worked out from its place it takes more instructions.
    let mut next = at;
    for p in 0..count {
        room[next] = code_counted(h, here, first + p, port, room[next]);
        next += step;
    }
}

// Makes the codes of a run in the room as they count: those of each server of a DCell(b), for so many ports from `lowest` on.
fn count_run(h: Hall, uid: u32, lowest: u32, ports: u32, room: &mut [u8], at: usize)
    requires { (valid h ≡ true) × (uid < servers h) × (lowest + ports ≤ h.k + 1) × (at + cell_size h * ports ≤ length room.old) }
    ensures { room.new ≡ run_counted h uid lowest ports room.old at }
{
    let here = plan::is_fitted(h, uid);
    let step = ports as usize;
    for d in 0..ports {
        count_port(h, here, uid, lowest + d, room, at + (d as usize), step);
    }
}

// Makes the codes of a step's table in the room as they count: those of the part, and the far codes behind the first `near` bytes.
fn count_codes(h: Hall, uid: u32, room: &mut [u8], near: usize)
    requires { (valid h ≡ true) × (uid < servers h) × (near ≡ cell_length h h.b) × (step_length h ≤ length room.old) }
    ensures { room.new ≡ table_counted h uid room.old }
{
    count_run(h, uid, 0, h.k + 1, room, 0);
    count_run(h, uid, h.b + 1, h.k - h.b, room, near);
}

// Writes the table that a server's step is lent to the start of the room; or answers a refusal and leaves the room as lent.
pub fn step_table(h: Hall, table: &[u8], uid: u32, room: &mut [u8]) -> Result<(), Refusal>
    ensures number { refusal_in result ≡ told (of_step_table h table.now uid) room.old }
    ensures room { room.new ≡ written (of_step_table h table.now uid) room.old }
{
    ports::part_refusal(h, table, uid)?;
    let part = ports::part_of(h, table, uid);
    let far = hall::size_of(h, h.b) * (h.k - h.b);
    let near = part.len();
    if room.len() < near + (far as usize) {
        return Err(Refusal::ShortRoom);
    }
    put_bytes(room, 0, part);
    put_far(h, table, uid, room, near);
    if h.count == hall::racks_of(h.n, h.k) {
        return Ok(());
    }
    count_codes(h, uid, room, near);
    Ok(())
}
