// Lone vertices go (`remove_singleton_orphan_vertices`), and so do vertices that are marked.
#![tactic(auto)]

ghost use Rattle.std.specs.Prelude.{◌+◌, ◌<◌, ◌≤◌, length};
ghost use Rattle.defs.specs.SeqGraph.{Graph, compact_vertices};
ghost use Rattle.defs.specs.Cleanup.{remove_singleton_orphan_vertices};
ghost use Rattle.compact.specs.Compact.{Compactable, unmarked};
ghost use Rattle.index.specs.Index.{Indexed};
ghost use Rattle.orphans.specs.Orphans.{Orphan, OrphansMarked, Reduced};

use memory::Held;

// Whether no edge is at v and v is no reference source, as the only vertex of a graph is.
fn is_orphan(es: &[u32], m: usize, n: usize, heads: &[u32], nexts: &[u32], v: usize) -> bool
    requires { (v < n) × Indexed m n es.now heads.now nexts.now }
    ensures { Orphan m n es.now v result }
{
    index::degree(es, m, n, heads, nexts, 1, v) == 0
        && index::degree(es, m, n, heads, nexts, 0, v) == 0
        && !refs::is_ref_source(es, m, n, heads, nexts, v)
}

// Of n vertices the lone ones get 1, the others 0.
fn mark_orphans(es: &[u32], m: usize, n: usize, heads: &[u32], nexts: &[u32], map: &mut [u32])
    requires { (n ≤ length map.old) × Indexed m n es.now heads.now nexts.now }
    ensures { OrphansMarked m n es.now map.new }
{
    for v in 0..n {
        map[v] = u32::from(is_orphan(es, m, n, heads, nexts, v));
    }
}

// Takes away the vertices that are marked in `map`.
pub fn remove_marked(held: Held, es: &mut [u32], vs: &mut [u32], map: &mut [u32]) -> Held
    requires { Compactable held.n held.m es.old vs.old map.old }
    ensures { Reduced (λ (g : Graph). compact_vertices (unmarked map.old) g) held es.old vs.old result
        es.new vs.new }
{
    let c = compact::compact_vertices(es, vs, held.n, held.m, map);
    Held {
        n: c.n,
        m: c.m,
        ..held
    }
}

// Lone vertices go. Those that stay keep their edges, so one pass leaves none.
pub fn remove_singleton_orphan_vertices(
    held: Held,
    es: &mut [u32],
    vs: &mut [u32],
    heads: &[u32],
    nexts: &[u32],
    map: &mut [u32],
) -> Held
    requires { Compactable held.n held.m es.old vs.old map.old × Indexed held.m held.n es.old heads.now nexts.now }
    ensures { Reduced remove_singleton_orphan_vertices held es.old vs.old result es.new vs.new }
{
    mark_orphans(es, held.m, held.n, heads, nexts, map);
    remove_marked(held, es, vs, map)
}
