// Walks along the edges: the vertices that are reached from one get a mark. The queue holds those found, each once, in the order in which
// they were found; the vertices before `h` have been left along all their edges.
#![tactic(auto)]

ghost use Rattle.std.specs.Prelude.{◌≡◌, ◌+◌, ◌*◌, ◌<◌, ◌≤◌, length};
ghost use Rattle.index.specs.Index.{Indexed};
ghost use Rattle.reach.specs.Reach.{direction_number, takes_end, passable, Walkable, QueueFound, Pushed, VertexLeft, Reached};

// Which way a walk goes along the edges.
#[derive(Clone, Copy)]
pub enum Direction {
    Along,
    Against,
    Either,
}

// Whether a walk in this direction takes the edges at the end `off` of a vertex: 0 those that leave it, 1 those that enter it.
fn takes_end(direction: Direction, off: usize) -> bool
    ensures { result ≡ takes_end (direction_number direction) off }
{
    match direction {
        Direction::Along => off == 0,
        Direction::Against => off == 1,
        Direction::Either => true,
    }
}

// A plain walk takes no reference edge.
fn may_pass(es: &[u32], e: usize, plain: bool) -> bool
    requires { 4 * e + 4 ≤ length es.now }
    ensures { result ≡ passable plain es.now e }
{
    !(plain && store::edge_is_ref(es, e))
}

// Marks and queues what the edges at the end `off` of u lead to; u stands at h of the queue. The queue's new length.
fn push_steps(
    es: &[u32],
    m: usize,
    n: usize,
    heads: &[u32],
    nexts: &[u32],
    plain: bool,
    direction: Direction,
    off: usize,
    s: usize,
    h: usize,
    marks: &mut [u8],
    queue: &mut [u32],
    queued: usize,
) -> usize
    requires { (h < queued) × ((off ≤ 1) × (Indexed m n es.now heads.now nexts.now
        × (Walkable n marks.old queue.old × QueueFound plain (direction_number direction) m n es.now s marks.old queue.old queued))) }
    ensures { Pushed plain (direction_number direction) off m n es.now s h marks.old queue.old queued marks.new
        queue.new result }
{
    if !takes_end(direction, off) {
        return queued;
    }
    let u = queue[h] as usize;
    let mut tail = queued;
    let mut e = heads[2 * u + off] as usize;
    while e < m {
        let d = e;
        e = nexts[2 * d + off] as usize;
        if may_pass(es, d, plain) {
            let w = store::edge_end(es, d, 1 - off);
            if marks[w as usize] == 0 {
                marks[w as usize] = 1;
                queue[tail] = w;
                tail += 1;
            }
        }
    }
    tail
}

// Leaves the vertex at h of the queue along all the edges that the walk takes. The queue's new length.
fn leave_vertex(
    es: &[u32],
    m: usize,
    n: usize,
    heads: &[u32],
    nexts: &[u32],
    plain: bool,
    direction: Direction,
    s: usize,
    h: usize,
    marks: &mut [u8],
    queue: &mut [u32],
    queued: usize,
) -> usize
    requires { (h < queued) × (Indexed m n es.now heads.now nexts.now
        × (Walkable n marks.old queue.old × QueueFound plain (direction_number direction) m n es.now s marks.old queue.old queued)) }
    ensures { VertexLeft plain (direction_number direction) m n es.now s h marks.old queue.old queued marks.new
        queue.new result }
{
    let t = push_steps(
        es, m, n, heads, nexts, plain, direction, 0, s, h, marks, queue, queued,
    );
    push_steps(
        es, m, n, heads, nexts, plain, direction, 1, s, h, marks, queue, t,
    )
}

// Marks of n vertices what a walk in this direction reaches from s, and nothing else.
fn walk(
    es: &[u32],
    m: usize,
    n: usize,
    heads: &[u32],
    nexts: &[u32],
    plain: bool,
    direction: Direction,
    s: usize,
    marks: &mut [u8],
    queue: &mut [u32],
)
    requires { (s < n) × (Indexed m n es.now heads.now nexts.now × Walkable n marks.old queue.old) }
    ensures { Reached plain (direction_number direction) m n es.now s marks.new }
{
    compact::clear_marks(marks, 0, n);
    marks[s] = 1;
    queue[0] = s as u32;
    let mut tail = 1;
    let mut h = 0;
    // The queue grows while it is gone through, so there is no range for a `for`.
    while h < tail {
        tail = leave_vertex(
            es, m, n, heads, nexts, plain, direction, s, h, marks, queue, tail,
        );
        h += 1;
    }
}

// Marks of n vertices what is reached from s, and nothing else. Kind 0 goes along the edges, 1 against them, any other either way. The kind
// stays a number: docs/PROMISES.md names this function, and it takes every number.
pub fn mark_reached(
    es: &[u32],
    m: usize,
    n: usize,
    heads: &[u32],
    nexts: &[u32],
    plain: bool,
    kind: u32,
    s: usize,
    marks: &mut [u8],
    queue: &mut [u32],
)
    requires { (s < n) × (Indexed m n es.now heads.now nexts.now × Walkable n marks.old queue.old) }
    ensures { Reached plain kind m n es.now s marks.new }
{
    let direction = match kind {
        0 => Direction::Along,
        1 => Direction::Against,
        _ => Direction::Either,
    };
    walk(es, m, n, heads, nexts, plain, direction, s, marks, queue);
}
