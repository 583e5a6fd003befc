// One forwarding step of a packet at a server, and the journey that steps make.

#![tactic(auto)]

pub mod endings;

ghost use Rattle.std.specs.Prelude.{◌≡◌, true, not, ◌∷◌, ℕ, ◌+◌, ◌-◌, ◌*◌, ◌≤◌, ◌<◌, eqb, ltb, length, get_or, replicate};
ghost use Rattle.combine.specs.Tests.{pick, both, either};
ghost use Rattle.hall.specs.Cells.{same, neighbour};
ghost use Rattle.hall.specs.Halls.{top, valid, is_full, servers};
ghost use Rattle.hall.specs.Refusals.{refusal, refusal_in, bad_length};
ghost use Rattle.route.specs.Answers.{first_link};
ghost use Rattle.local.specs.Local.{none, cell_size, place_of, first_of};
ghost use Rattle.plan.specs.Answers.{fitted};
ghost use Rattle.counted.specs.Counted.{counted};
ghost use Rattle.ends.specs.Tables.{step_length, cell_part, far_place};
ghost use Rattle.forward.specs.Packets.{cleared, tidied, proxied, retried, aged, is_arrived, goal, sent, ended, one_more, ending_number, step_told};
ghost use Rattle.forward.specs.Seen.{seen, usable};
ghost use Rattle.forward.specs.Proxies.{choice};
ghost use Rattle.forward.specs.Steps.{step_from, reroute_on, step};
ghost use Rattle.forward.specs.Journeys.{trip};
ghost use Rattle.forward.specs.Answers.{most_passed, step_of, step_stated, journey_from, journey_of, journey_stated};
ghost use Rattle.forward.specs.Inside.{Here, Target, Ahead, Standing, Stopped, Above, Placed, Crossed, Servers, Sound, Departing, held, lent, cleared_if, way_to, way_over, outlook_of, turn_of, asks_below};

use crate::endings::{Ending, Onward};
use hall::Hall;
use hall::refusals::{MOST_RETRY, Refusal};
use local::NONE;
use ports::codes::UP;
use route::Crossing;

// The most uids that a journey passes.
pub const MOST_PASSED: usize = 256;

// A packet: its destination, a proxy or none, its retry count and its time to live. A packet without a proxy may come with any number for one,
// which an Option would not hold.
#[derive(Clone, Copy)]
pub struct Packet {
    pub dst: u32,
    pub has_proxy: bool,
    pub proxy: u32,
    pub retry: u8,
    pub ttl: u8,
}

// What a step answers: the next uid or the ending, the packet to send on, and its reroutes.
#[derive(Clone, Copy)]
pub struct Step {
    pub onward: Onward,
    pub packet: Packet,
    pub reroutes: u32,
}

// A candidate for a new proxy: a place of the cell, and the level of its port.
#[derive(Clone, Copy)]
pub struct Candidate {
    pub place: u32,
    pub level: u32,
}

// What a journey answers: its ending, the links crossed, the reroutes, and the uids passed, zeros behind them as the rules ask; an array, since
// there is no heap.
#[derive(Clone, Copy)]
pub struct Journey {
    pub ending: Ending,
    pub links: u32,
    pub reroutes: u32,
    pub uids: [u32; MOST_PASSED],
}

// The way on from a server: to a next one, over a link that is not usable, or to a local target that can't be reached.
#[derive(Clone, Copy)]
enum Way {
    To { uid: u32 },
    Closed,
    Unreached,
}

// What lies before a packet at a server: the next one, no route to its destination, or that it is blocked at the first link above b, or at none.
#[derive(Clone, Copy)]
enum Outlook {
    Next { uid: u32 },
    NoRoute,
    Blocked { link: Option<Crossing> },
}

// The packet without a proxy.
fn cleared(p: Packet) -> Packet
    ensures { result ≡ cleared p }
{
    Packet {
        has_proxy: false,
        proxy: 0,
        ..p
    }
}

// The packet, with no number for a proxy that it has not.
fn tidied(p: Packet) -> Packet
    ensures { result ≡ tidied p }
{
    if p.has_proxy {
        return p;
    }
    cleared(p)
}

// The packet with its proxy cleared where it has arrived there.
fn cleared_if(p: Packet, arrived: bool) -> Packet
    ensures { result ≡ cleared_if arrived p }
{
    if arrived {
        return cleared(p);
    }
    p
}

// The packet with a new proxy.
fn proxied(proxy: u32, p: Packet) -> Packet
    ensures { result ≡ proxied proxy p }
{
    Packet {
        has_proxy: true,
        proxy,
        ..p
    }
}

// The packet with its retry lowered by one.
fn retried(p: Packet) -> Packet
    requires { 0 < p.retry }
    ensures { result ≡ retried (p.retry - 1) p }
{
    Packet {
        retry: p.retry - 1,
        ..p
    }
}

// The packet with its TTL lowered by one.
fn aged(p: Packet) -> Packet
    requires { 0 < p.ttl }
    ensures { result ≡ aged p }
{
    Packet {
        ttl: p.ttl - 1,
        ..p
    }
}

// Whether the packet has come to its proxy.
fn is_arrived(me: u32, p: Packet) -> bool
    ensures { result ≡ is_arrived me p }
{
    if !p.has_proxy {
        return false;
    }
    p.proxy == me
}

// The proxy if there is one, else the destination.
fn goal(p: Packet) -> u32
    ensures { result ≡ goal p }
{
    if p.has_proxy {
        return p.proxy;
    }
    p.dst
}

// The packet is forwarded to `next`.
fn sent(next: u32, p: Packet) -> Step
    requires { 0 < p.ttl }
    ensures { step_told result ≡ sent next p }
{
    Step {
        onward: Onward::To { next },
        packet: aged(p),
        reroutes: 0,
    }
}

// The packet ends here, as it came.
fn ended(ending: Ending, came: Packet) -> Step
    ensures { step_told result ≡ ended (ending_number ending) came }
{
    Step {
        onward: Onward::Ends { ending },
        packet: came,
        reroutes: 0,
    }
}

// The step with one reroute more.
fn one_more(o: Step) -> Step
    requires { o.reroutes < 4294967295 }
    ensures { step_told result ≡ one_more (step_told o) }
{
    Step {
        reroutes: o.reroutes + 1,
        ..o
    }
}

// The servers of a DCell(b), without asking the hall again. Where a step searches for a proxy the hall is asked: that takes less stack.
fn cell_size(h: Hall) -> u32
    requires { valid h ≡ true }
    ensures { result ≡ cell_size h }
{
    if h.b == 0 {
        return h.n;
    }
    (h.n + 1) * h.n
}

// Whether two servers share a DCell(b).
fn share_cell(h: Hall, x: u32, y: u32) -> bool
    requires { valid h ≡ true }
    ensures { result ≡ same h.n h.b x y }
{
    let count = cell_size(h);
    x / count == y / count
}

// The bytes of a table for so many servers.
fn bytes_of(servers: u32, k: u32) -> usize
    ensures { result ≡ servers * (k + 1) }
{
    (servers as usize) * ((k as usize) + 1)
}

// The codes of the DCell(b) of a server: the first bytes of what it is lent, or its part of the hall table.
fn own_part(h: Hall, whole: bool, table: &[u8], me: u32) -> &[u8]
    requires { Here h whole table.now me }
    ensures { result.now ≡ cell_part h (held h whole table.now me) }
{
    if !whole {
        let lent = bytes_of(hall::size_of(h, h.b), h.k);
        return &table[0..lent];
    }
    let cell = cell_size(h);
    let bytes = bytes_of(cell, h.k);
    let from = ((me / cell) as usize) * bytes;
    let to = from + bytes;
    &table[from..to]
}

// Where the far code for a place and a level stands in the table that a step is lent.
fn far_place(h: Hall, level: u32, place: u32) -> usize
    requires { Above h place level }
    ensures { result ≡ far_place h place level }
{
    let far = place * (h.k - h.b) + (level - h.b - 1);
    bytes_of(cell_size(h), h.k) + (far as usize)
}

// Whether both ends of the link of a level above b at a place of the cell are up, by the table that a step is lent.
fn is_open(h: Hall, table: &[u8], level: u32, place: u32) -> bool
    requires { Above h place level × (length table.now ≡ step_length h) }
    ensures { result ≡ usable h table.now level place }
{
    if !ports::is_up(h, table, place, level) {
        return false;
    }
    let at = far_place(h, level, place);
    table[at] == UP
}

// Whether both ends of the link of a level above b between two servers are up: by what the near one is lent, or by both codes in the hall table.
fn is_up_over(h: Hall, whole: bool, table: &[u8], level: u32, near: u32, far: u32) -> bool
    requires { Crossed h whole table.now near far level }
    ensures { result ≡ usable h (held h whole table.now near) level (place_of h near) }
{
    if !whole {
        return is_open(h, table, level, near % cell_size(h));
    }
    if !ports::is_up(h, table, near, level) {
        return false;
    }
    ports::is_up(h, table, far, level)
}

// Whether a hall is full: then every server is fitted.
fn is_full(h: Hall) -> bool
    requires { valid h ≡ true }
    ensures { result ≡ is_full h }
{
    h.count == hall::racks_of(h.n, h.k)
}

// Whether both servers of a link are fitted; one of level 1 has them in one DCell1, which is fitted as a whole.
fn are_fitted(h: Hall, level: u32, near: u32, far: u32) -> bool
    requires { Servers h level near far }
    ensures { result ≡ both (fitted h near) (fitted h far) }
{
    if !plan::is_fitted(h, near) {
        return false;
    }
    if level < 2 {
        return true;
    }
    plan::is_fitted(h, far)
}

// Whether the link of a level above b between two servers is usable: both its ends are up, and both servers fitted.
fn is_usable(h: Hall, whole: bool, table: &[u8], level: u32, near: u32, far: u32) -> bool
    requires { Crossed h whole table.now near far level }
    ensures { result ≡ usable h (lent h whole table.now near) level (place_of h near) }
{
    if !is_up_over(h, whole, table, level, near, far) {
        return false;
    }
    if is_full(h) {
        return true;
    }
    are_fitted(h, level, near, far)
}

// The way to a local target.
fn way_to(h: Hall, whole: bool, table: &[u8], me: u32, target: u32) -> Way
    requires { Target h whole table.now me target }
    ensures { result ≡ way_to h (seen h (lent h whole table.now me)) me target }
{
    match local::next_hop(h, me, target, own_part(h, whole, table, me)).unwrap() {
        Some(uid) => Way::To { uid },
        None => Way::Unreached,
    }
}

// The way towards a goal, by the first link above b of the route to it.
fn way_over(h: Hall, whole: bool, table: &[u8], me: u32, goal: u32, link: Option<Crossing>) -> Way
    requires { Ahead h whole table.now me goal link }
    ensures { result ≡ way_over h (seen h (lent h whole table.now me)) me goal link }
{
    match link {
        None => way_to(h, whole, table, me, goal),
        Some(Crossing { near, far, level }) => {
            if !is_usable(h, whole, table, level, near, far) {
                return Way::Closed;
            }
            if me == near {
                return Way::To { uid: far };
            }
            way_to(h, whole, table, me, near)
        }
    }
}

// The greatest distance among the first places of a record.
fn farthest(distance: &[u8; 72], count: u32) -> u8
    requires { count ≤ 72 }
    ensures { (result < none) × ((q : ℕ) → q < count → get_or distance.now q 0 < none → get_or distance.now q 0 ≤ result) }
{
    let mut most = 0;
    for &d in &distance[..count as usize] {
        if d < NONE {
            most = most.max(d);
        }
    }
    most
}

// The server at a place of the DCell(b) around `me`.
fn uid_at(h: Hall, me: u32, place: u32) -> u32
    requires { (valid h ≡ true) × (me < servers h) × (place < cell_size h) }
    ensures { result ≡ first_of h me + place }
{
    me - me % hall::size_of(h, h.b) + place
}

// The neighbour at a level of the server at a place of the DCell(b) around `me`.
fn proxy_of(h: Hall, me: u32, place: u32, level: u32) -> u32
    requires { Placed h me place level }
    ensures { result ≡ neighbour h.n (level - 1) (first_of h me + place) }
{
    cells::neighbour_of(h, uid_at(h, me, place), level).unwrap()
}

// Whether both ends of the link of a level above b at a place of the DCell(b) around `me` are up; in the hall table the far port is looked for last.
fn is_up_at(h: Hall, whole: bool, table: &[u8], me: u32, level: u32, place: u32) -> bool
    requires { Here h whole table.now me × Above h place level }
    ensures { result ≡ usable h (held h whole table.now me) level place }
{
    if !whole {
        return is_open(h, table, level, place);
    }
    let near = uid_at(h, me, place);
    if !ports::is_up(h, table, near, level) {
        return false;
    }
    let other = cells::neighbour_of(h, near, level).unwrap();
    ports::is_up(h, table, other, level)
}

// Whether the link of a level above b at a place of the DCell(b) around `me` is usable: its far server is looked for last.
fn is_usable_at(h: Hall, whole: bool, table: &[u8], me: u32, level: u32, place: u32) -> bool
    requires { Here h whole table.now me × Above h place level }
    ensures { result ≡ usable h (lent h whole table.now me) level place }
{
    if !is_up_at(h, whole, table, me, level, place) {
        return false;
    }
    if is_full(h) {
        return true;
    }
    are_fitted(h, level, me, proxy_of(h, me, place, level))
}

// Whether a place, whose distance is x, is a candidate at distance d.
fn is_candidate(
    h: Hall,
    whole: bool,
    table: &[u8],
    me: u32,
    level: u32,
    place: u32,
    x: u8,
    d: u8,
) -> bool
    requires { Here h whole table.now me × Above h place level }
    ensures { result ≡ both (eqb x d) (usable h (lent h whole table.now me) level place) }
{
    if x != d {
        return false;
    }
    is_usable_at(h, whole, table, me, level, place)
}

// The candidate for a new proxy: the first by level, then by distance, then by uid.
#[inline(never)]
fn choose(h: Hall, whole: bool, table: &[u8], me: u32, first: u32) -> Option<Candidate>
    requires { Here h whole table.now me × (h.b < first) }
    ensures { result ≡ choice h (seen h (lent h whole table.now me)) (place_of h me) first }
{
    let from = local::distances_of(h, me, own_part(h, whole, table, me)).unwrap();
    let last = farthest(&from.distance, from.count);
    let mut chosen = None;
    'search: for level in first..=h.k {
        for d in 0..=last {
            for place in 0..from.count {
                let x = from.distance[place as usize];
                if is_candidate(h, whole, table, me, level, place, x, d) {
                    chosen = Some(Candidate { place, level });
                    break 'search;
                }
            }
        }
    }
    chosen
}

// The first link above b of the route from one server to another.
fn first_link(h: Hall, x: u32, y: u32) -> Option<Crossing>
    ensures { result ≡ first_link h x y }
{
    route::first_link(h, x, y).unwrap_or(None)
}

// The level that a reroute tries first.
fn first_level(h: Hall, level: u32, arrived: bool) -> u32
    requires { level ≤ top }
    ensures { result ≡ level + pick (both arrived (ltb level h.k)) 1 0 }
{
    if !arrived {
        return level;
    }
    if h.k <= level {
        return level;
    }
    level + 1
}

// What lies before a packet for `dst` on the way to its goal.
fn look(h: Hall, whole: bool, table: &[u8], me: u32, dst: u32, goal: u32) -> Outlook
    requires { Ahead h whole table.now me goal (first_link h me goal) }
    ensures { result ≡ outlook_of h (seen h (lent h whole table.now me)) me dst goal }
{
    let link = first_link(h, me, goal);
    match way_over(h, whole, table, me, goal, link) {
        Way::To { uid } => Outlook::Next { uid },
        Way::Closed => Outlook::Blocked { link },
        Way::Unreached => {
            if share_cell(h, me, dst) {
                return Outlook::NoRoute;
            }
            Outlook::Blocked { link }
        }
    }
}

// The packet that goes by another way: without its proxy where no link is out, else with a new one, if there is one.
fn turn(
    h: Hall,
    whole: bool,
    table: &[u8],
    me: u32,
    link: Option<Crossing>,
    p: Packet,
    arrived: bool,
) -> Option<Packet>
    requires { Stopped h whole table.now me link p }
    ensures { result ≡ turn_of h (seen h (lent h whole table.now me)) me link p arrived }
{
    match link {
        None => Some(cleared(p)),
        Some(link) => {
            let found = choose(h, whole, table, me, first_level(h, link.level, arrived))?;
            Some(proxied(proxy_of(h, me, found.place, found.level), p))
        }
    }
}

// The step from 4 on, of a packet that came as `came`, by what lies before it.
#[cycle(reroute_step_from)]
fn step_from(
    h: Hall,
    whole: bool,
    table: &[u8],
    me: u32,
    came: Packet,
    p: Packet,
    arrived: bool,
    outlook: Outlook,
) -> Step
    requires { Standing h whole table.now me p × (outlook ≡ outlook_of h (seen h (lent h whole table.now me)) me came.dst (goal p)) }
    ensures { step_told result ≡ step_from h (seen h (lent h whole table.now me)) me came p arrived }
{
    match outlook {
        Outlook::Next { uid } => sent(uid, p),
        Outlook::NoRoute => ended(Ending::DropRoute, came),
        Outlook::Blocked { link } => reroute(h, whole, table, me, came, link, p, arrived),
    }
}

// The step by another way, with one retry less.
#[cycle(reroute_step_from)]
fn reroute(
    h: Hall,
    whole: bool,
    table: &[u8],
    me: u32,
    came: Packet,
    link: Option<Crossing>,
    p: Packet,
    arrived: bool,
) -> Step
    requires { Stopped h whole table.now me link p }
    ensures { step_told result ≡ reroute_on h (seen h (lent h whole table.now me)) me came p.retry link p arrived }
{
    if p.retry <= 1 {
        return ended(Ending::DropRetry, came);
    }
    let Some(packet) = turn(h, whole, table, me, link, retried(p), arrived) else {
        return ended(Ending::DropProxy, came);
    };
    let outlook = look(h, whole, table, me, came.dst, goal(packet));
    one_more(step_from(h, whole, table, me, came, packet, false, outlook))
}

// The step of a packet that nothing refuses; one that has a way before it goes without a call into the cycle.
fn step_at(h: Hall, whole: bool, table: &[u8], me: u32, packet: Packet) -> Step
    requires { Here h whole table.now me × Sound h packet }
    ensures { step_told result ≡ step h (lent h whole table.now me) me packet }
{
    if me == packet.dst {
        return ended(Ending::Delivered, tidied(packet));
    }
    if packet.ttl == 0 {
        return ended(Ending::DropTtl, tidied(packet));
    }
    let arrived = is_arrived(me, packet);
    let outlook = look(
        h,
        whole,
        table,
        me,
        packet.dst,
        goal(cleared_if(packet, arrived)),
    );
    if let Outlook::Next { uid } = outlook {
        return sent(uid, cleared_if(tidied(packet), arrived));
    }
    let p = tidied(packet);
    step_from(
        h,
        whole,
        table,
        me,
        p,
        cleared_if(p, arrived),
        arrived,
        outlook,
    )
}

// Whether the packet's proxy, if it has one, is among so many servers.
fn proxy_fits(servers: u32, p: Packet) -> bool
    ensures { result ≡ either (not p.has_proxy) (ltb p.proxy servers) }
{
    if !p.has_proxy {
        return true;
    }
    p.proxy < servers
}

// The refusal for a packet at a server, in a hall of so many servers.
fn refused_packet(servers: u32, uid: u32, p: Packet) -> Result<(), Refusal>
    ensures { refusal_in result ≡ refusal (asks_below servers uid p) }
{
    if servers <= uid {
        return Err(Refusal::BadUid);
    }
    if servers <= p.dst {
        return Err(Refusal::BadUid);
    }
    if !proxy_fits(servers, p) {
        return Err(Refusal::BadUid);
    }
    if MOST_RETRY < p.retry {
        return Err(Refusal::BadRetry);
    }
    Ok(())
}

// The refusal for a table that has to have so many bytes, and a packet at a server, in a hall of so many.
fn refused(servers: u32, bytes: usize, table: &[u8], uid: u32, p: Packet) -> Result<(), Refusal>
    ensures { refusal_in result ≡ refusal ((bad_length, eqb (length table.now) bytes) ∷ asks_below servers uid p) }
{
    if table.len() != bytes {
        return Err(Refusal::BadLength);
    }
    refused_packet(servers, uid, p)
}

// The bytes of a step's table, where a DCell(b) has so many servers.
fn step_bytes(h: Hall, cell: u32) -> usize
    requires { (valid h ≡ true) × (cell ≡ cell_size h) }
    ensures { result ≡ step_length h }
{
    bytes_of(cell, h.k) + ((cell * (h.k - h.b)) as usize)
}

// One forwarding step at a server, over the table that it is lent: the codes of its own DCell(b), and behind them the far codes.
pub fn forward_step(h: Hall, uid: u32, packet: Packet, table: &[u8]) -> Result<Step, Refusal>
    ensures { step_stated result ≡ step_of h uid packet table.now }
{
    let servers = hall::servers_of(h);
    if servers == 0 {
        return Err(Refusal::BadHall);
    }
    let cell = cell_size(h);
    refused(servers, step_bytes(h, cell), table, uid, packet)?;
    Ok(step_at(h, false, table, uid, packet))
}

// No uid passed.
fn no_uids() -> [u32; MOST_PASSED]
    ensures { result ≡ replicate most_passed 0 }
{
    [0u32; MOST_PASSED]
}

// The journey of a packet that nothing refuses. The step that ends it ends the loop too, which stays a `loop`: behind a `for` an answer would be wanted
// that no journey has. It is answered as a `Result`, which it always is there, since it is large: a journey put into one by its caller is copied.
fn travel(h: Hall, table: &[u8], source: u32, packet: Packet) -> Result<Journey, Refusal>
    requires { Departing h table.now source packet }
    ensures { journey_stated result ≡ journey_from (trip h (counted h 0 table.now) source packet) }
{
    let mut uids = no_uids();
    let mut me = source;
    let mut p = packet;
    let mut reroutes: u32 = 0;
    let mut at: usize = 0;
    loop {
        uids[at] = me;
        let o = step_at(h, true, table, me, p);
        reroutes += o.reroutes;
        match o.onward {
            Onward::Ends { ending } => {
                return Ok(Journey {
                    ending,
                    links: at as u32,
                    reroutes,
                    uids,
                });
            }
            Onward::To { next } => me = next,
        }
        p = o.packet;
        at += 1;
    }
}

// A journey from a source, over the hall table.
pub fn journey_of(h: Hall, source: u32, packet: Packet, table: &[u8]) -> Result<Journey, Refusal>
    ensures { journey_stated result ≡ journey_of h source packet table.now }
{
    let servers = hall::servers_of(h);
    if servers == 0 {
        return Err(Refusal::BadHall);
    }
    refused(servers, bytes_of(servers, h.k), table, source, packet)?;
    travel(h, table, source, packet)
}
