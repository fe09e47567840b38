// The reference path: from the reference source along the first reference edge, or the first edge where none is one, to the reference
// sink; and the bytes that it spells (`reference_path_bytes`).
#![tactic(auto)]

ghost use Rattle.std.specs.Prelude.{◌<◌};
ghost use Rattle.defs.specs.Paths.{reference_path_bytes};
ghost use Rattle.index.specs.Index.{Indexed};
ghost use Rattle.memory.specs.Memory.{graph_of};
ghost use Rattle.spell.specs.Spell.{Told};
ghost use Rattle.paths.specs.Paths.{Spellable};
ghost use Rattle.reference.specs.Reference.{NextOn, PathWalkable, PathWalked};

use memory::Held;

// The vertex behind v on the reference path.
fn next_on_reference(
    es: &[u32],
    m: usize,
    n: usize,
    heads: &[u32],
    nexts: &[u32],
    v: u32,
) -> Option<usize>
    requires { (v < n) × Indexed m n es.now heads.now nexts.now }
    ensures { NextOn m n es.now v result }
{
    let first = heads[2 * (v as usize)] as usize;
    if m <= first {
        return None;
    }
    let mut e = first;
    while e < m {
        if store::edge_is_ref(es, e) {
            return Some(store::edge_to(es, e) as usize);
        }
        e = nexts[2 * e] as usize;
    }
    Some(store::edge_to(es, first) as usize)
}

// Writes the vertices from `source` to `sink` to `nodes`; none where the path ends before the sink.
fn reference_path(
    es: &[u32],
    m: usize,
    n: usize,
    heads: &[u32],
    nexts: &[u32],
    source: u32,
    sink: u32,
    nodes: &mut [u32],
) -> Option<usize>
    requires { PathWalkable n source nodes.old × Indexed m n es.now heads.now nexts.now }
    ensures { PathWalked m n es.now source sink result nodes.new }
{
    let mut v = source;
    for c in 0..n {
        nodes[c] = v;
        if v == sink {
            return Some(c + 1);
        }
        let Some(w) = next_on_reference(es, m, n, heads, nexts, v) else {
            return None;
        };
        v = w as u32;
    }
    None
}

// The bytes of the reference path, which are written to the front of `out` where they fit; none where there is no such path.
pub fn reference_path_bytes(
    held: Held,
    es: &[u32],
    vs: &[u32],
    p: &[u8],
    heads: &[u32],
    nexts: &[u32],
    nodes: &mut [u32],
    out: &mut [u8],
) -> Option<usize>
    requires { Spellable held es.now vs.now p.now nodes.old × Indexed held.m held.n es.now heads.now nexts.now }
    ensures { Told (reference_path_bytes (graph_of held es.now vs.now p.now)) out.old result out.new }
{
    let n = held.n;
    let m = held.m;
    let Some(source) = refs::reference_source_vertex(es, m, n, heads, nexts) else {
        return None;
    };
    let Some(sink) = refs::reference_sink_vertex(es, m, n, heads, nexts) else {
        return None;
    };
    let count = reference_path(es, m, n, heads, nexts, source as u32, sink as u32, nodes)?;
    Some(spell::spell(vs, p, nodes, count, out))
}
