// Predecessors of equal bytes join with the vertex that follows them all (`try_merge_common_suffices`).
#![tactic(auto)]

ghost use Rattle.std.specs.Prelude.{◌≡◌, ◌∷◌, ◌+◌, ◌*◌, ◌<◌, ◌≤◌, length, get_or};
ghost use Rattle.defs.specs.Lists.{all_of, same_list};
ghost use Rattle.defs.specs.Rewrites.{try_merge_common_suffices};
ghost use Rattle.store.specs.Store.{seq_in, nums_in};
ghost use Rattle.compact.specs.Compact.{Below, Compactable, Removed};
ghost use Rattle.index.specs.Index.{Indexed};
ghost use Rattle.memory.specs.Memory.{Room, Holds, Left, graph_of};
ghost use Rattle.merge_suffices.specs.Merge.{Comparable, is_prev, MergeTestable, Merges, MergeWritable, MergeWritten, IntoReady};
ghost use Rattle.merge_suffices.specs.Merge.{IntoDone, MergeEdgesReady, MergeEdgesDone, Mergeable, Merged};

use compact::Counts;
use memory::Held;

// Whether u and v have the same sequence.
fn same_sequence(vs: &[u32], p: &[u8], u: u32, v: u32) -> bool
    requires { Comparable vs.now p.now u v }
    ensures { result ≡ same_list (seq_in vs.now p.now u) (seq_in vs.now p.now v) }
{
    let n = store::vertex_len(vs, u);
    n == store::vertex_len(vs, v)
        && pool::same_part(p, store::vertex_start(vs, u), store::vertex_start(vs, v), n)
}

// Whether v has the bytes of `first`, one follower and a predecessor.
fn is_prev(
    es: &[u32],
    m: usize,
    n: usize,
    heads: &[u32],
    nexts: &[u32],
    vs: &[u32],
    p: &[u8],
    first: u32,
    v: u32,
) -> bool
    requires { (first < n) × ((v < n) × MergeTestable n m es.now vs.now p.now heads.now nexts.now) }
    ensures { result ≡ is_prev m es.now vs.now p.now first v }
{
    same_sequence(vs, p, v, first)
        && index::has_one(es, m, n, heads, nexts, 0, v as usize)
        && 0 < index::degree(es, m, n, heads, nexts, 1, v as usize)
}

// Whether all of the first c of `nodes` are such, where the first of them gives the bytes.
fn all_prevs(
    es: &[u32],
    m: usize,
    n: usize,
    heads: &[u32],
    nexts: &[u32],
    vs: &[u32],
    p: &[u8],
    nodes: &[u32],
    c: usize,
) -> bool
    requires { Below nodes.now c n × MergeTestable n m es.now vs.now p.now heads.now nexts.now }
    ensures { result ≡ all_of (is_prev m es.now vs.now p.now (get_or nodes.now 0 0))
        (nums_in c nodes.now) }
{
    nodes[..c]
        .iter()
        .all(|v| is_prev(es, m, n, heads, nexts, vs, p, nodes[0], *v))
}

// Whether the first c of `nodes`, predecessors of a vertex, merge with it.
pub fn is_merge(
    es: &[u32],
    m: usize,
    n: usize,
    heads: &[u32],
    nexts: &[u32],
    vs: &[u32],
    p: &[u8],
    nodes: &[u32],
    c: usize,
) -> bool
    requires { Below nodes.now c n × MergeTestable n m es.now vs.now p.now heads.now nexts.now }
    ensures { Merges n m es.now vs.now p.now nodes.now c result }
{
    0 < c && all_prevs(es, m, n, heads, nexts, vs, p, nodes, c)
}

// Writes the sequence of `first` and then that of `bottom` to `used` on; where they end.
fn write_merged(vs: &[u32], p: &mut [u8], used: usize, first: u32, bottom: u32) -> usize
    requires { MergeWritable vs.now p.old used first bottom }
    ensures { MergeWritten vs.now p.old used first bottom result p.new }
{
    let a = store::vertex_start(vs, first);
    let b = store::vertex_start(vs, bottom);
    let x = store::vertex_len(vs, first);
    let y = store::vertex_len(vs, bottom);
    pool::copy_within(p, used, a, x);
    pool::copy_within(p, used + x, b, y);
    used + x + y
}

// The new vertex n takes over the edges into the first c of `nodes`; the number of edges.
fn redirect_into(
    es: &mut [u32],
    m: usize,
    n: usize,
    heads: &[u32],
    nexts: &[u32],
    nodes: &[u32],
    c: usize,
    map: &mut [u32],
) -> usize
    requires { IntoReady n m es.old heads.now nexts.now nodes.now c map.old }
    ensures { IntoDone n m es.old nodes.now c result es.new map.new }
{
    let y = n as u32;
    let mut k = m;
    for i in 0..c {
        let v = nodes[i] as usize;
        k = redirect::redirect_edges(es, m, n, heads, nexts, 1, v, k, y, m, map);
    }
    k
}

// And those out of the bottom.
fn redirect_merged(
    es: &mut [u32],
    m: usize,
    n: usize,
    heads: &[u32],
    nexts: &[u32],
    nodes: &[u32],
    c: usize,
    bottom: usize,
    map: &mut [u32],
) -> usize
    requires { MergeEdgesReady n m es.old heads.now nexts.now nodes.now c bottom map.old }
    ensures { MergeEdgesDone n m es.old nodes.now c bottom result es.new }
{
    compact::fill(map, n, 0);
    let k = redirect_into(es, m, n, heads, nexts, nodes, c, map);
    redirect::redirect_edges(es, m, n, heads, nexts, 0, bottom, k, n as u32, k, map)
}

// Takes away the bottom and the first c of `nodes`.
fn remove_merged(
    es: &mut [u32],
    vs: &mut [u32],
    n: usize,
    m: usize,
    nodes: &[u32],
    c: usize,
    bottom: usize,
    map: &mut [u32],
) -> Counts
    requires { Compactable n m es.old vs.old map.old × (Below nodes.now c n × (bottom < n)) }
    ensures { Removed n m es.old vs.old (bottom ∷ nums_in c nodes.now) result es.new
        vs.new map.new }
{
    compact::mark_gone(map, n, nodes, c);
    map[bottom] = 1;
    compact::compact_vertices(es, vs, n, m, map)
}

// The bottom and its predecessors, the first c of `nodes`, become one vertex.
fn merge_common_suffices(
    held: Held,
    es: &mut [u32],
    vs: &mut [u32],
    p: &mut [u8],
    heads: &[u32],
    nexts: &[u32],
    nodes: &[u32],
    map: &mut [u32],
    bottom: usize,
    c: usize,
) -> Held
    requires { Room es.old vs.old p.old heads.now nexts.now nodes.now map.old
        × (Holds held es.old vs.old p.old heads.now nexts.now
        × (Indexed held.m held.n es.old heads.now nexts.now × Mergeable held es.old vs.old p.old nodes.now c bottom)) }
    ensures { Merged held es.old vs.old p.old heads.now nexts.now bottom result
        es.new vs.new p.new }
{
    let Held { n, m, used, .. } = held;
    let end = write_merged(vs, p, used, nodes[0], bottom as u32);
    store::put_vertex(vs, n, used as u32, (end - used) as u32);
    let k = redirect_merged(es, m, n, heads, nexts, nodes, c, bottom, map);
    let left = remove_merged(es, vs, n + 1, k, nodes, c, bottom, map);
    let base = 2 * (heads.len() / 2);
    let used = pool::pack(vs, left.n, p, base);
    Held {
        n: left.n,
        m: left.m,
        used,
        ..held
    }
}

// Merges the predecessors of `bottom` with it, if they allow it.
pub fn try_merge_common_suffices(
    held: Held,
    es: &mut [u32],
    vs: &mut [u32],
    p: &mut [u8],
    heads: &[u32],
    nexts: &[u32],
    nodes: &mut [u32],
    map: &mut [u32],
    bottom: usize,
) -> Option<Held>
    requires { Room es.old vs.old p.old heads.now nexts.now nodes.old map.old
        × (Holds held es.old vs.old p.old heads.now nexts.now
        × (Indexed held.m held.n es.old heads.now nexts.now × (bottom < held.n))) }
    ensures { Left (try_merge_common_suffices (graph_of held es.old vs.old p.old) bottom)
        es.old vs.old p.old heads.now nexts.now result es.new vs.new
        p.new }
{
    let Held { n, m, .. } = held;
    let c = index::collect(es, m, n, heads, nexts, 1, bottom, nodes);
    if !is_merge(es, m, n, heads, nexts, vs, p, nodes, c) {
        return None;
    }
    Some(merge_common_suffices(held, es, vs, p, heads, nexts, nodes, map, bottom, c))
}
