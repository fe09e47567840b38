// The predecessors of a vertex are split by the suffix that they share, each into a suffix vertex and a prefix vertex (`try_split_common_suffix`).
#![tactic(auto)]

ghost use Rattle.std.specs.Prelude.{◌≡◌, ◌+◌, ◌*◌, ◌-◌, ◌<◌, get_or};
ghost use Rattle.index.specs.Index.{Indexed};
ghost use Rattle.memory.specs.Memory.{Room, Holds};
ghost use Rattle.split_suffix.specs.Split.{Linkable, LinksDone, BlockReady, BlockDone, SplitEdgesReady, SplitEdgesDone};
ghost use Rattle.split_suffix.specs.Split.{Cuttable, CutDone, VertsReady, VertsDone, Ending, SplitTried};

use memory::Held;

// Adds the edge from the prefix vertex, y + 1, if there is one, to the suffix vertex y, and the edge from y to the bottom; the number of edges.
fn link_suffix(es: &mut [u32], k: usize, y: u32, bottom: u32, prefix: bool, s: u32, f: u32) -> usize
    requires { Linkable y bottom k es.old }
    ensures { LinksDone prefix y bottom s f k es.old result es.new }
{
    if prefix {
        let flag = edge_data::new_flag(edge_data::flag_is_ref(f));
        store::put_edge(es, k, y + 1, y, 1, flag);
        store::put_edge(es, k + 1, y, bottom, s, f);
        return k + 2;
    }
    store::put_edge(es, k, y, bottom, s, f);
    k + 1
}

// Adds the edges of the predecessor v, whose suffix vertex is y; the number of edges.
fn split_edges(
    es: &mut [u32],
    m: usize,
    n: usize,
    heads: &[u32],
    nexts: &[u32],
    v: u32,
    y: u32,
    bottom: u32,
    prefix: bool,
    k: usize,
    map: &mut [u32],
) -> usize
    requires { BlockReady prefix y bottom m n es.old heads.now nexts.now v k map.old }
    ensures { BlockDone prefix y bottom m n es.old heads.now v k result es.new map.new }
{
    let u = v as usize;
    let e = heads[2 * u] as usize;
    let s = store::edge_support(es, e);
    let f = store::edge_flag(es, e);
    let j = link_suffix(es, k, y, bottom, prefix, s, f);
    // what entered v enters its prefix vertex, if there is one
    let into = y + u32::from(prefix);
    redirect::redirect_edges(es, m, n, heads, nexts, 1, u, j, into, j, map)
}

// Adds the edges of the first c of `nodes`, each split by s bytes; the number of edges.
fn add_edges(
    es: &mut [u32],
    m: usize,
    n: usize,
    heads: &[u32],
    nexts: &[u32],
    vs: &[u32],
    nodes: &[u32],
    c: usize,
    s: usize,
    bottom: u32,
    map: &mut [u32],
) -> usize
    requires { SplitEdgesReady m n s es.old heads.now nexts.now vs.now nodes.now c bottom map.old }
    ensures { SplitEdgesDone m n s es.old heads.now vs.now nodes.now c bottom result es.new }
{
    compact::fill(map, n, 0);
    let mut y = n as u32;
    let mut k = m;
    for i in 0..c {
        let v = nodes[i];
        let prefix = s < store::vertex_len(vs, v);
        k = split_edges(es, m, n, heads, nexts, v, y, bottom, prefix, k, map);
        y += 1 + u32::from(prefix);
    }
    k
}

// Adds the suffix vertex of v, s bytes from `from` on, and the prefix vertex, if anything is left; the number of vertices.
fn split_vertex(vs: &mut [u32], k: usize, v: u32, from: u32, s: usize) -> usize
    requires { Cuttable k vs.old s v }
    ensures { CutDone k vs.old from s v result vs.new }
{
    let start = store::vertex_start(vs, v);
    let len = store::vertex_len(vs, v);
    store::put_vertex(vs, k, from, s as u32);
    if len <= s {
        return k + 1;
    }
    store::put_vertex(vs, k + 1, start as u32, (len - s) as u32);
    k + 2
}

// Adds the vertices of the first c of `nodes`, each split by s bytes; the number of vertices.
fn add_vertices(vs: &mut [u32], n: usize, nodes: &[u32], c: usize, from: u32, s: usize) -> usize
    requires { VertsReady n vs.old nodes.now c s }
    ensures { VertsDone n vs.old nodes.now c from s result vs.new }
{
    let mut k = n;
    for i in 0..c {
        k = split_vertex(vs, k, nodes[i], from, s);
    }
    k
}

// Where the last s bytes of v start.
fn suffix_start(vs: &[u32], v: u32, s: usize) -> u32
    requires { Ending vs.now v s }
    ensures { result ≡ get_or vs.now (2 * v) 0 + get_or vs.now (2 * v + 1) 0 - s }
{
    (store::vertex_start(vs, v) + store::vertex_len(vs, v) - s) as u32
}

// Splits the predecessors of `bottom`, if they allow it.
pub fn try_split_common_suffix(
    held: Held,
    es: &mut [u32],
    vs: &mut [u32],
    p: &[u8],
    heads: &[u32],
    nexts: &[u32],
    nodes: &mut [u32],
    map: &mut [u32],
    bottom: usize,
) -> Option<Held>
    requires { Room es.old vs.old p.now heads.now nexts.now nodes.old map.old
        × (Holds held es.old vs.old p.now heads.now nexts.now
        × (Indexed held.m held.n es.old heads.now nexts.now × (bottom < held.n))) }
    ensures { SplitTried held es.old vs.old p.now heads.now nexts.now bottom result
        es.new vs.new map.new }
{
    let Held { n, m, .. } = held;
    let c = index::collect(es, m, n, heads, nexts, 1, bottom, nodes);
    let s = split_tests::safe_to_split(es, m, n, heads, nexts, vs, p, nodes, c)?;
    let from = suffix_start(vs, nodes[0], s);
    let k = add_edges(es, m, n, heads, nexts, vs, nodes, c, s, bottom as u32, map);
    let j = add_vertices(vs, n, nodes, c, from, s);
    let left = compact::remove_vertices_by_id(es, vs, j, k, nodes, c, map);
    Some(Held {
        n: left.n,
        m: left.m,
        ..held
    })
}
