// Edges that are not reference edges and lead to the reference source, or away from the reference sink, go; then the orphans
// (`clean_non_ref_paths`).
#![tactic(auto)]

ghost use Rattle.std.specs.Prelude.{◌≡◌, ◌+◌, ◌*◌, ◌<◌, ◌≤◌, length, get_or};
ghost use Rattle.defs.specs.SeqGraph.{Graph};
ghost use Rattle.defs.specs.Cleanup.{without_non_ref_edges, clean_non_ref_paths, remove_singleton_orphan_vertices};
ghost use Rattle.store.specs.Store.{edge_in, EndsBelow};
ghost use Rattle.compact.specs.Compact.{Compactable};
ghost use Rattle.index.specs.Index.{Indexed, Indexable};
ghost use Rattle.reach.specs.Reach.{direction_number, Walkable};
ghost use Rattle.orphans.specs.Orphans.{Reduced};
ghost use Rattle.non_ref_paths.specs.CleanNonRef.{stays_by, EdgesKept, EdgesDropped};

use memory::Held;
use reach::Direction;

// An edge stays that is a reference edge, or whose end `off` has no mark; off 0 is the end that it leaves, 1 the end that it enters.
fn edge_stays(es: &[u32], e: usize, off: usize, n: usize, marks: &[u8]) -> bool
    requires { (4 * e + 4 ≤ length es.now) × ((off ≤ 1) × ((get_or es.now (4 * e + off) 0 < n) × (n ≤ length marks.now))) }
    ensures { result ≡ stays_by off marks.now (edge_in es.now e) }
{
    store::edge_is_ref(es, e) || marks[store::edge_end(es, e, off) as usize] == 0
}

// Closes m edges up over those that do not stay, in place; the number left.
fn keep_edges(es: &mut [u32], m: usize, off: usize, n: usize, marks: &[u8]) -> usize
    requires { (4 * m ≤ length es.old) × ((off ≤ 1) × (EndsBelow n m es.old × (n ≤ length marks.now))) }
    ensures { EdgesKept off n m es.old marks.now result es.new }
{
    let mut j = 0;
    for e in 0..m {
        if edge_stays(es, e, off, n, marks) {
            let a = store::edge_from(es, e);
            let b = store::edge_to(es, e);
            let s = store::edge_support(es, e);
            let f = store::edge_flag(es, e);
            store::put_edge(es, j, a, b, s, f);
            j += 1;
        }
    }
    j
}

// Edges that are not reference edges go if a walk from s over such edges in this direction takes them: against them, those that lead to s,
// along them, those that s leads to. The number left.
fn drop_edges(
    es: &mut [u32],
    m: usize,
    n: usize,
    heads: &mut [u32],
    nexts: &mut [u32],
    direction: Direction,
    s: usize,
    nodes: &mut [u32],
    tried: &mut [u8],
) -> usize
    requires { (s < n) × ((direction_number direction ≤ 1) × ((m < 4294967296) × (Indexed m n es.old heads.old nexts.old × Walkable n tried.old nodes.old))) }
    ensures { EdgesDropped (direction_number direction) m n es.old s result es.new × Indexed result n es.new heads.new nexts.new }
{
    let kind = direction as u32;
    reach::mark_reached(es, m, n, heads, nexts, true, kind, s, tried, nodes);
    let left = keep_edges(es, m, direction as usize, n, tried);
    index::build_index(es, left, n, heads, nexts);
    left
}

// The walk from the sink t does not go on through an edge that the walk from the source s took.
fn clean_between(
    held: Held,
    s: usize,
    t: usize,
    es: &mut [u32],
    vs: &mut [u32],
    heads: &mut [u32],
    nexts: &mut [u32],
    nodes: &mut [u32],
    map: &mut [u32],
    tried: &mut [u8],
) -> Held
    requires { (s < held.n) × ((t < held.n) × ((held.m < 4294967296)
        × (Compactable held.n held.m es.old vs.old map.old
        × (Indexed held.m held.n es.old heads.old nexts.old × Walkable held.n tried.old nodes.old)))) }
    ensures { Reduced (λ (g : Graph). remove_singleton_orphan_vertices (without_non_ref_edges g s t)) held es.old
        vs.old result es.new vs.new }
{
    let n = held.n;
    let a = drop_edges(
        es,
        held.m,
        n,
        heads,
        nexts,
        Direction::Against,
        s,
        nodes,
        tried,
    );
    let b = drop_edges(es, a, n, heads, nexts, Direction::Along, t, nodes, tried);
    let left = Held { m: b, ..held };
    orphans::remove_singleton_orphan_vertices(left, es, vs, heads, nexts, map)
}

// Without a source or a sink nothing happens.
pub fn clean_non_ref_paths(
    held: Held,
    es: &mut [u32],
    vs: &mut [u32],
    heads: &mut [u32],
    nexts: &mut [u32],
    nodes: &mut [u32],
    map: &mut [u32],
    tried: &mut [u8],
) -> Held
    requires { Compactable held.n held.m es.old vs.old map.old
        × (Indexable held.m held.n es.old heads.old nexts.old × Walkable held.n tried.old nodes.old) }
    ensures { Reduced clean_non_ref_paths held es.old vs.old result es.new vs.new }
{
    let n = held.n;
    let m = held.m;
    index::build_index(es, m, n, heads, nexts);
    let Some(s) = refs::reference_source_vertex(es, m, n, heads, nexts) else {
        return held;
    };
    let Some(t) = refs::reference_sink_vertex(es, m, n, heads, nexts) else {
        return held;
    };
    clean_between(held, s, t, es, vs, heads, nexts, nodes, map, tried)
}
