// Diamonds and tails (`try_merge_diamond`, `try_merge_tails`): tried at a vertex, and done where the followers share enough.
// `nodes` and `map` are lent for the work; heads and nexts are the index of the graph given.
#![tactic(auto)]

ghost use Rattle.std.specs.Prelude.{◌≡◌, map, ◌+◌, ◌*◌, ◌<◌, length};
ghost use Rattle.defs.specs.Lists.{head_or};
ghost use Rattle.defs.specs.Rewrites.{try_merge_diamond, try_merge_tails};
ghost use Rattle.index.specs.Index.{Indexed, edge_end, incident_edges};
ghost use Rattle.memory.specs.Memory.{graph_of, Room, Holds, Left};

use memory::Held;
use split_and_update::split_and_update;

// The vertex that v's first edge enters, or 0.
pub fn first_follower(es: &[u32], m: usize, n: usize, heads: &[u32], nexts: &[u32], v: usize) -> u32
    requires { (v < n) × Indexed m n es.now heads.now nexts.now }
    ensures { result ≡ head_or 0 (map (edge_end 1 es.now) (incident_edges (edge_end 0 es.now) m v)) }
{
    let e = heads[2 * v] as usize;
    if e < m {
        return store::edge_to(es, e);
    }
    0
}

pub fn try_merge_diamond(
    held: Held,
    es: &mut [u32],
    vs: &mut [u32],
    p: &[u8],
    heads: &[u32],
    nexts: &[u32],
    nodes: &mut [u32],
    map: &mut [u32],
    top: u32,
) -> Option<Held>
    requires room { Room es.old vs.old p.now heads.now nexts.now nodes.old map.old × Holds held es.old vs.old p.now heads.now nexts.now }
    requires top_lt_n { (top < held.n) × Indexed held.m held.n es.old heads.now nexts.now }
    ensures { Left (try_merge_diamond (graph_of held es.old vs.old p.now) top) es.old
        vs.old p.now heads.now nexts.now result es.new vs.new p.now }
{
    let Held { n, m, .. } = held;
    let c = index::collect(es, m, n, heads, nexts, 0, top as usize, nodes);
    if c < 2 {
        return None;
    }
    let b = first_follower(es, m, n, heads, nexts, nodes[0] as usize);
    if !diamond::is_diamond(es, m, n, heads, nexts, nodes, c, b) {
        return None;
    }
    let x = shared::shared_prefix(vs, p, n, nodes, c);
    let y = shared::shared_suffix(vs, p, n, nodes, c, x);
    if x + y == 0 {
        return None;
    }
    Some(split_and_update(held, es, vs, p, heads, nodes, c, map, top, b, true, x, y))
}

// `least` is the length that the suffix needs after the prefix is taken off.
pub fn try_merge_tails(
    held: Held,
    es: &mut [u32],
    vs: &mut [u32],
    p: &[u8],
    heads: &[u32],
    nexts: &[u32],
    nodes: &mut [u32],
    map: &mut [u32],
    top: u32,
    least: usize,
) -> Option<Held>
    requires room { Room es.old vs.old p.now heads.now nexts.now nodes.old map.old × Holds held es.old vs.old p.now heads.now nexts.now }
    requires lt_least { (3 < least) × ((top < held.n) × Indexed held.m held.n es.old heads.now nexts.now) }
    ensures { Left (try_merge_tails least (graph_of held es.old vs.old p.now) top)
        es.old vs.old p.now heads.now nexts.now result es.new vs.new
        p.now }
{
    let Held { n, m, .. } = held;
    let c = index::collect(es, m, n, heads, nexts, 0, top as usize, nodes);
    if !diamond::is_tails(es, m, n, heads, nexts, nodes, c) {
        return None;
    }
    let x = shared::shared_prefix(vs, p, n, nodes, c);
    let len = shared::shared_suffix(vs, p, n, nodes, c, x);
    if len < least {
        return None;
    }
    Some(split_and_update(held, es, vs, p, heads, nodes, c, map, top, 0, false, x, len))
}
