// Every linear chain becomes one vertex, all of them in one pass (`zip_linear_chains`). The chains are followed by the index of the graph
// as it is given, so no edge moves before the last chain is found: `froms` holds for each vertex the one that its outgoing edges will leave.
#![tactic(auto)]

ghost use Rattle.std.specs.Prelude.{◌≡◌, ◌+◌, ◌*◌, ◌<◌, ◌≤◌, length, get_or, set};
ghost use Rattle.store.specs.Store.{EndsBelow};
ghost use Rattle.index.specs.Index.{Indexed};
ghost use Rattle.memory.specs.Memory.{Room, Holds};
ghost use Rattle.zip_linear_chains.specs.Loops.{EachItsOwn, AllEdgesMoved, NodesAppended};
ghost use Rattle.zip_linear_chains.specs.Absorb.{Absorbable, AbsorbedAt, AllAbsorbed};
ghost use Rattle.zip_linear_chains.specs.Zips.{ReadyToZip, ZippedAll};

use memory::{Held, Work};

// At first each of n vertices keeps its outgoing edges.
fn own_froms(froms: &mut [u32], n: usize)
    requires { (n ≤ length froms.old) × (n < 4294967296) }
    ensures { EachItsOwn n froms.new }
{
    for v in 0..n {
        froms[v] = v as u32;
    }
}

// Each edge leaves the vertex that `froms` has for the one that it left, and keeps its place.
fn move_all_edges(es: &mut [u32], m: usize, n: usize, froms: &[u32])
    requires { (4 * m ≤ length es.old) × ((n ≤ length froms.now) × EndsBelow n m es.old) }
    ensures { AllEdgesMoved m es.old froms.now es.new }
{
    for e in 0..m {
        let v = store::edge_from(es, e) as usize;
        store::put_edge_from(es, e, froms[v]);
    }
}

// Writes the first c of `src` behind the first k of `dst`.
fn append_nodes(dst: &mut [u32], k: usize, src: &[u32], c: usize)
    requires { (k + c ≤ length dst.old) × (c ≤ length src.now) }
    ensures { NodesAppended k c dst.old src.now dst.new }
{
    copies::copy(&mut dst[k..k + c], &src[..c]);
}

// The edges out of the vertex at `last` of `rest` will leave s.
fn hand_over(froms: &mut [u32], rest: &[u32], last: usize, s: u32)
    requires { (last < length rest.now) × (get_or rest.now last 0 < length froms.old) }
    ensures { froms.new ≡ set froms.old (get_or rest.now last 0) s }
{
    let v = rest[last] as usize;
    froms[v] = s;
}

// The chains so far: where the next sequence is written, how many vertices go, and how many chains there are.
#[derive(Clone, Copy)]
pub struct Absorbed {
    pub at: usize,
    pub gone: usize,
    pub chains: u32,
}

// Absorbs the chain that starts at s, if one does: s has its sequences, written behind all others, and will have the edges out of its
// last vertex; all of it but s is added to the `nodes` that go. `past` is what the chains before it left; `rest` is lent for the work.
fn absorb_chain(
    past: Absorbed,
    es: &[u32],
    m: usize,
    n: usize,
    vs: &mut [u32],
    p: &mut [u8],
    heads: &[u32],
    nexts: &[u32],
    nodes: &mut [u32],
    rest: &mut [u32],
    froms: &mut [u32],
    s: u32,
) -> Absorbed
    requires { Absorbable m n es.now vs.old p.old heads.now nexts.now nodes.old rest.old froms.old past s }
    ensures { AbsorbedAt m n es.now vs.old p.old nodes.old froms.old past s result
        vs.new p.new nodes.new froms.new }
{
    if !chain::is_linear_chain_start(es, m, n, heads, nexts, s as usize) {
        return past;
    }
    let c = chain::trace_linear_chain(es, m, n, heads, nexts, s as usize, rest);
    if c == 0 {
        return past;
    }
    let end = merge_linear_chain::write_chain(vs, p, past.at, s, rest, c);
    store::put_vertex(vs, s as usize, past.at as u32, (end - past.at) as u32);
    append_nodes(nodes, past.gone, rest, c);
    hand_over(froms, rest, c - 1, s);
    Absorbed {
        at: end,
        gone: past.gone + c,
        chains: past.chains + 1,
    }
}

// Absorbs every chain, in the order of their first vertices.
fn absorb_chains(
    held: Held,
    es: &[u32],
    vs: &mut [u32],
    p: &mut [u8],
    heads: &[u32],
    nexts: &[u32],
    nodes: &mut [u32],
    rest: &mut [u32],
    froms: &mut [u32],
) -> Absorbed
    requires { Room es.now vs.old p.old heads.now nexts.now nodes.old rest.old
        × (Holds held es.now vs.old p.old heads.now nexts.now
        × (Indexed held.m held.n es.now heads.now nexts.now
        × ((held.n ≤ length froms.old) × EachItsOwn held.n froms.old))) }
    ensures { AllAbsorbed held es.now vs.old p.old heads.now result
        vs.new p.new nodes.new froms.new }
{
    let mut all = Absorbed {
        at: held.used,
        gone: 0,
        chains: 0,
    };
    for v in 0..held.n {
        let s = v as u32;
        all = absorb_chain(
            all, es, held.m, held.n, vs, p, heads, nexts, nodes, rest, froms, s,
        );
    }
    all
}

// Joins every chain. Where there is none, only what is lent for the work has changed, and the index is still the graph's: none is built.
pub fn zip_linear_chains(
    work: Work,
    es: &mut [u32],
    vs: &mut [u32],
    p: &mut [u8],
    heads: &mut [u32],
    nexts: &mut [u32],
    nodes: &mut [u32],
    map: &mut [u32],
    froms: &mut [u32],
) -> Work
    requires { ReadyToZip work es.old vs.old p.old heads.old nexts.old nodes.old map.old × (length heads.old ≤ 2 * length froms.old + 1) }
    ensures { ZippedAll work es.old vs.old p.old result es.new vs.new p.new
        heads.new nexts.new nodes.new map.new }
{
    let held = work.held;
    own_froms(froms, held.n);
    let all = absorb_chains(held, es, vs, p, heads, nexts, nodes, map, froms);
    if all.chains == 0 {
        return work;
    }
    move_all_edges(es, held.m, held.n, froms);
    let left = compact::remove_vertices_by_id(es, vs, held.n, held.m, nodes, all.gone, map);
    let base = 2 * (heads.len() / 2);
    let used = pool::pack(vs, left.n, p, base);
    index::build_index(es, left.m, left.n, heads, nexts);
    Work {
        held: Held {
            n: left.n,
            m: left.m,
            used,
            ..held
        },
        rewrites: work.rewrites + all.chains,
    }
}
