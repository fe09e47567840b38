// What no walk along the edges reaches goes (`remove_vertices_not_connected_to_ref`, `remove_paths_not_connected_to_ref`).
#![tactic(auto)]

ghost use Rattle.std.specs.Prelude.{◌+◌, ◌<◌, ◌≤◌, length};
ghost use Rattle.defs.specs.SeqGraph.{Graph};
ghost use Rattle.defs.specs.Cleanup.{remove_vertices_not_connected_to_ref, remove_paths_not_connected_to_ref};
ghost use Rattle.compact.specs.Compact.{Compactable};
ghost use Rattle.index.specs.Index.{Indexed};
ghost use Rattle.reach.specs.Reach.{direction_number, Walkable};
ghost use Rattle.orphans.specs.Orphans.{Reduced};
ghost use Rattle.connected.specs.Connected.{Missed, Unreached};

use memory::Held;
use reach::Direction;

// Those of n vertices without a mark go: they get 1 in `map`.
fn mark_missed(marks: &[u8], n: usize, map: &mut [u32])
    requires { (n ≤ length marks.now) × (n ≤ length map.old) }
    ensures { Missed n marks.now map.old map.new }
{
    for v in 0..n {
        if marks[v] == 0 {
            map[v] = 1;
        }
    }
}

// Those of n vertices that a walk in this direction from s does not reach go, too.
fn mark_unreached(
    es: &[u32],
    m: usize,
    n: usize,
    heads: &[u32],
    nexts: &[u32],
    direction: Direction,
    s: usize,
    nodes: &mut [u32],
    map: &mut [u32],
    tried: &mut [u8],
)
    requires { (s < n) × ((n ≤ length map.old) × (Indexed m n es.now heads.now nexts.now × Walkable n tried.old nodes.old)) }
    ensures { Unreached (direction_number direction) m n es.now s map.old map.new }
{
    let kind = direction as u32;
    reach::mark_reached(es, m, n, heads, nexts, false, kind, s, tried, nodes);
    mark_missed(tried, n, map);
}

// What is connected to the first reference source stays, regardless of direction. Where there is none, all stays.
pub fn remove_vertices_not_connected_to_ref(
    held: Held,
    es: &mut [u32],
    vs: &mut [u32],
    heads: &[u32],
    nexts: &[u32],
    nodes: &mut [u32],
    map: &mut [u32],
    tried: &mut [u8],
) -> Held
    requires { Compactable held.n held.m es.old vs.old map.old
        × (Indexed held.m held.n es.old heads.now nexts.now × Walkable held.n tried.old nodes.old) }
    ensures { Reduced remove_vertices_not_connected_to_ref held es.old vs.old result es.new vs.new }
{
    let n = held.n;
    let m = held.m;
    let Some(s) = refs::reference_source_vertex(es, m, n, heads, nexts) else {
        return held;
    };
    compact::fill(map, n, 0);
    mark_unreached(
        es,
        m,
        n,
        heads,
        nexts,
        Direction::Either,
        s,
        nodes,
        map,
        tried,
    );
    orphans::remove_marked(held, es, vs, map)
}

// What lies on a path from s to t stays.
pub fn remove_paths_not_connected_to_ref(
    held: Held,
    s: usize,
    t: usize,
    es: &mut [u32],
    vs: &mut [u32],
    heads: &[u32],
    nexts: &[u32],
    nodes: &mut [u32],
    map: &mut [u32],
    tried: &mut [u8],
) -> Held
    requires { (s < held.n) × ((t < held.n) × (Compactable held.n held.m es.old vs.old map.old
        × (Indexed held.m held.n es.old heads.now nexts.now × Walkable held.n tried.old nodes.old))) }
    ensures { Reduced (λ (g : Graph). remove_paths_not_connected_to_ref g s t) held es.old vs.old result es.new
        vs.new }
{
    let n = held.n;
    let m = held.m;
    compact::fill(map, n, 0);
    mark_unreached(
        es,
        m,
        n,
        heads,
        nexts,
        Direction::Along,
        s,
        nodes,
        map,
        tried,
    );
    mark_unreached(
        es,
        m,
        n,
        heads,
        nexts,
        Direction::Against,
        t,
        nodes,
        map,
        tried,
    );
    orphans::remove_marked(held, es, vs, map)
}
