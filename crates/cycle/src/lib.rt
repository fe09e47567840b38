// A cycle, a self edge included: vertices that no edge enters are peeled off, with the edges that leave them. What cannot be peeled
// has a cycle. The queue holds the vertices peeled and to be peeled; `degrees` counts the edges that still enter each vertex.
#![tactic(auto)]

ghost use Rattle.std.specs.Prelude.{◌+◌, ◌<◌, ◌≤◌, length};
ghost use Rattle.index.specs.Index.{Indexed};
ghost use Rattle.cycle.specs.Peel.{Peelable, DegreesCounted, Sourced, Peeling, HasCycle};

fn count_entering(es: &[u32], m: usize, n: usize, heads: &[u32], nexts: &[u32], degrees: &mut [u32])
    requires { Indexed m n es.now heads.now nexts.now × ((m < 4294967296) × (n ≤ length degrees.old)) }
    ensures { DegreesCounted m n es.now degrees.new }
{
    for v in 0..n {
        degrees[v] = index::degree(es, m, n, heads, nexts, 1, v) as u32;
    }
}

// Queues the vertices that no edge enters; how many.
fn queue_sources(n: usize, degrees: &[u32], queue: &mut [u32]) -> usize
    requires { Peelable n degrees.now queue.old }
    ensures { Sourced n degrees.now result queue.new }
{
    let mut tail = 0;
    for v in 0..n {
        if degrees[v] == 0 {
            queue[tail] = v as u32;
            tail += 1;
        }
    }
    tail
}

// Takes away the edges of the vertex at h of the queue, and queues each vertex that none enters any more. The queue's new length.
fn peel(
    es: &[u32],
    m: usize,
    n: usize,
    heads: &[u32],
    nexts: &[u32],
    degrees: &mut [u32],
    queue: &mut [u32],
    h: usize,
    queued: usize,
) -> usize
    requires { (h < queued) × (Indexed m n es.now heads.now nexts.now
        × (Peelable n degrees.old queue.old × Peeling m n es.now degrees.old queue.old h 0 queued)) }
    ensures { Peeling m n es.now degrees.new queue.new (h + 1) 0 result }
{
    let u = queue[h] as usize;
    let mut tail = queued;
    let mut e = heads[2 * u] as usize;
    while e < m {
        let d = e;
        e = nexts[2 * d] as usize;
        let to = store::edge_to(es, d) as usize;
        let left = degrees[to] - 1;
        degrees[to] = left;
        if left == 0 {
            queue[tail] = to as u32;
            tail += 1;
        }
    }
    tail
}

pub fn has_cycle(
    es: &[u32],
    m: usize,
    n: usize,
    heads: &[u32],
    nexts: &[u32],
    degrees: &mut [u32],
    queue: &mut [u32],
) -> bool
    requires { Indexed m n es.now heads.now nexts.now × ((m < 4294967296) × Peelable n degrees.old queue.old) }
    ensures { HasCycle m n es.now result }
{
    count_entering(es, m, n, heads, nexts, degrees);
    let mut tail = queue_sources(n, degrees, queue);
    let mut h = 0;
    // The queue grows while it is gone through, so there is no range for a `for`.
    while h < tail {
        tail = peel(es, m, n, heads, nexts, degrees, queue, h, tail);
        h += 1;
    }
    0 < n - tail
}
