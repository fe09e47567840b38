// One linear chain of vertices becomes one vertex (`merge_linear_chain`): it joins one row of vertices between two given ones, which a
// checker of logs needs. Simplification joins all chains at once (crate `zip_linear_chains`) and takes only `write_chain` from here.
#![tactic(auto)]

ghost use Rattle.std.specs.Prelude.{◌+◌, ◌*◌, ◌<◌};
ghost use Rattle.index.specs.Index.{Indexed};
ghost use Rattle.memory.specs.Memory.{Room, Holds};
ghost use Rattle.merge_linear_chain.specs.Zip.{SequenceCopyable, Copied, ChainWritable, ChainWritten, EdgesMoved, Chain, Joined};

use memory::Held;

// Copies the sequence of v to `at`; where it ends.
fn append_sequence(vs: &[u32], p: &mut [u8], at: usize, v: u32) -> usize
    requires { SequenceCopyable vs.now p.old at v }
    ensures { Copied vs.now p.old at v result p.new }
{
    let start = store::vertex_start(vs, v);
    let len = store::vertex_len(vs, v);
    pool::copy_within(p, at, start, len);
    at + len
}

// Writes the sequences of `start` and of the first c of `nodes` to `used` on, one behind the other; where they end.
pub fn write_chain(
    vs: &[u32],
    p: &mut [u8],
    used: usize,
    start: u32,
    nodes: &[u32],
    c: usize,
) -> usize
    requires { ChainWritable vs.now p.old used start nodes.now c }
    ensures { ChainWritten vs.now p.old used start nodes.now c result p.new }
{
    let mut at = append_sequence(vs, p, used, start);
    for v in &nodes[..c] {
        at = append_sequence(vs, p, at, *v);
    }
    at
}

// The edges out of `last` leave `start` and keep their places.
fn move_edges(
    es: &mut [u32],
    m: usize,
    n: usize,
    heads: &[u32],
    nexts: &[u32],
    last: usize,
    start: u32,
)
    requires { (last < n) × Indexed m n es.old heads.now nexts.now }
    ensures { EdgesMoved m es.old last start es.new }
{
    let mut e = heads[2 * last] as usize;
    while e < m {
        store::put_edge_from(es, e, start);
        e = nexts[2 * e] as usize;
    }
}

// The chain of `start` and the first c of `nodes` becomes the vertex `start`.
pub fn merge_linear_chain(
    held: Held,
    es: &mut [u32],
    vs: &mut [u32],
    p: &mut [u8],
    heads: &[u32],
    nexts: &[u32],
    nodes: &[u32],
    map: &mut [u32],
    start: u32,
    c: usize,
) -> Held
    requires { Room es.old vs.old p.old heads.now nexts.now nodes.now map.old
        × (Holds held es.old vs.old p.old heads.now nexts.now
        × (Indexed held.m held.n es.old heads.now nexts.now × Chain held es.old vs.old p.old nodes.now start c)) }
    ensures { Joined held es.old vs.old p.old heads.now nexts.now
        nodes.now start c result es.new vs.new p.new map.new }
{
    let used = held.used;
    let end = write_chain(vs, p, used, start, nodes, c);
    store::put_vertex(vs, start as usize, used as u32, (end - used) as u32);
    let last = nodes[c - 1] as usize;
    move_edges(es, held.m, held.n, heads, nexts, last, start);
    let left = compact::remove_vertices_by_id(es, vs, held.n, held.m, nodes, c, map);
    let base = 2 * (heads.len() / 2);
    let used = pool::pack(vs, left.n, p, base);
    Held {
        n: left.n,
        m: left.m,
        used,
        ..held
    }
}
