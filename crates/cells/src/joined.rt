// Who is joined to whom over sub-cells of a size, in numbers that no size can overflow: for a caller that has the hall checked already.
ghost use Rattle.std.specs.Prelude.{◌≡◌, ◌+◌, ◌*◌, ◌≤◌, ◌<◌};
ghost use Rattle.hall.specs.Cells.{port, sub_over, first_over, neighbour_over};
ghost use Rattle.cells.specs.Answers.{ends_over};

// The ends of the link between the sub-cells of two servers.
#[derive(Clone, Copy)]
pub(crate) struct Ends {
    pub near: u64,
    pub far: u64,
}

// The first uid of the cell around uid, over sub-cells of `size` servers each.
fn first_over(size: u32, uid: u32) -> u64
    requires { 0 < size }
    ensures { result ≡ first_over size uid }
{
    let t = size as u64;
    let cell = (uid / size) as u64;
    cell / (t + 1) * ((t + 1) * t)
}

// The index of the sub-cell of uid, over sub-cells of `size` servers each.
fn sub_over(size: u32, uid: u32) -> u64
    requires { 0 < size }
    ensures { result ≡ sub_over size uid }
{
    let t = size as u64;
    let cell = (uid / size) as u64;
    cell % (t + 1)
}

// Who is joined to uid over sub-cells of `size` servers each.
pub(crate) fn neighbour_over(size: u32, uid: u32) -> u64
    ensures { result ≡ neighbour_over size uid }
{
    if size == 0 {
        return 0;
    }
    let t = size as u64;
    let inside = (uid % size) as u64;
    let sub = sub_over(size, uid);
    let first = first_over(size, uid);
    if sub <= inside {
        return first + ((inside + 1) * t + sub);
    }
    first + (inside * t + (sub - 1))
}

// Inside sub-cell p, the server that is joined to sub-cell q.
fn port_towards(p: u64, q: u64) -> u64
    ensures { result ≡ port p q }
{
    if p < q {
        return q - 1;
    }
    q
}

// The end in sub-cell p of the link to sub-cell q, in the cell that starts at `first`.
fn end_at(first: u64, t: u64, p: u64, q: u64) -> u64
    requires { (first < 4294967296) × (t < 4294967296) × (p ≤ t) × (q ≤ t) }
    ensures { result ≡ first + (p * t + port p q) }
{
    first + (p * t + port_towards(p, q))
}

// The ends of the link between the sub-cells of x and y, over sub-cells of `size` servers each, on the side of x first.
pub(crate) fn ends_over(size: u32, x: u32, y: u32) -> Ends
    ensures { result ≡ ends_over size x y }
{
    if size == 0 {
        return Ends { near: 0, far: 0 };
    }
    let t = size as u64;
    let first = first_over(size, x);
    let p = sub_over(size, x);
    let q = sub_over(size, y);
    Ends {
        near: end_at(first, t, p, q),
        far: end_at(first, t, q, p),
    }
}
