// Paths: whether a list of edges is one, and the bytes that it spells (`path_bases_bytes`).
#![tactic(auto)]

ghost use Rattle.std.specs.Prelude.{◌≡◌, ◌<◌, length};
ghost use Rattle.defs.specs.Lists.{any_of};
ghost use Rattle.defs.specs.SeqGraph.{has_ends};
ghost use Rattle.store.specs.Store.{edges_in};
ghost use Rattle.index.specs.Index.{Indexed};
ghost use Rattle.defs.specs.Lists.{given};
ghost use Rattle.defs.specs.Paths.{edge_ends, is_path_of, path_bases_bytes};
ghost use Rattle.memory.specs.Memory.{graph_of};
ghost use Rattle.spell.specs.Spell.{Told};
ghost use Rattle.paths.specs.Paths.{EdgePath, PathNodes, Spellable};

use memory::Held;

// Whether there is an edge from u to v, along the list of u's edges.
pub fn has_edge(
    es: &[u32],
    m: usize,
    n: usize,
    heads: &[u32],
    nexts: &[u32],
    u: u32,
    v: u32,
) -> bool
    requires { (u < n) × Indexed m n es.now heads.now nexts.now }
    ensures { result ≡ any_of (has_ends u v) (edges_in m es.now) }
{
    let mut e = heads[2 * (u as usize)] as usize;
    while e < m {
        if store::edge_to(es, e) == v {
            return true;
        }
        e = nexts[2 * e] as usize;
    }
    false
}

// Whether `list`, from and to of each edge in turn, is a path from `start`; refused at the first pair that fails.
pub fn is_edge_path(
    es: &[u32],
    m: usize,
    n: usize,
    heads: &[u32],
    nexts: &[u32],
    start: u32,
    list: &[u32],
) -> bool
    requires { Indexed m n es.now heads.now nexts.now }
    ensures { EdgePath m n es.now start list.now result }
{
    if n <= start as usize {
        return false;
    }
    let mut at = start;
    let mut rest = list;
    while let [a, b, later @ ..] = rest {
        if *a != at || !has_edge(es, m, n, heads, nexts, *a, *b) {
            return false;
        }
        at = *b;
        rest = later;
    }
    rest.is_empty()
}

// Writes the vertices of a path to `nodes`: `start`, and the end of each edge of `list`; how many.
fn path_nodes(start: u32, list: &[u32], nodes: &mut [u32]) -> usize
    requires { length (edge_ends list.now) < length nodes.old }
    ensures { PathNodes start list.now result nodes.new }
{
    nodes[0] = start;
    let mut c = 1;
    let mut rest = list;
    while let [_, b, later @ ..] = rest {
        nodes[c] = *b;
        c += 1;
        rest = later;
    }
    c
}

// The bytes of the path from `start` along `list`, which are written to the front of `out` where they fit; none where it is no path.
pub fn path_bases_bytes(
    held: Held,
    es: &[u32],
    vs: &[u32],
    p: &[u8],
    heads: &[u32],
    nexts: &[u32],
    start: u32,
    list: &[u32],
    nodes: &mut [u32],
    out: &mut [u8],
) -> Option<usize>
    requires { Spellable held es.now vs.now p.now nodes.old × Indexed held.m held.n es.now heads.now nexts.now }
    ensures { Told (given (is_path_of (graph_of held es.now vs.now p.now) start list.now)
        (path_bases_bytes (graph_of held es.now vs.now p.now) start list.now)) out.old result
        out.new }
{
    if !is_edge_path(es, held.m, held.n, heads, nexts, start, list) {
        return None;
    }
    let c = path_nodes(start, list, nodes);
    Some(spell::spell(vs, p, nodes, c, out))
}
