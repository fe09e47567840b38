// The graph in slices. Edges: four numbers each, from, to, support, flag. Vertices: two numbers each, where the sequence starts in the
// pool and how long it is. The pool: the sequences' bytes. Only the functions here read and write an edge's or a vertex's numbers where
// they stand; other crates call them, and name the places only in contracts.
#![tactic(auto)]

ghost use Rattle.std.specs.Prelude.{◌≡◌, ℕ, ◌+◌, ◌*◌, ◌<◌, ◌≤◌, length, get_or, set};
ghost use Rattle.defs.specs.SeqGraph.{Edge, has_ends, add_or_update_edge};
ghost use Rattle.edge_data.specs.EdgeData.{carried_data};
ghost use Rattle.store.specs.Store.{edge_in, edges_in, put_edge, put_vertex, Joinable, carried_at};

use edge_data::Carried;

pub fn edge_from(es: &[u32], i: usize) -> u32
    requires { 4 * i + 4 ≤ length es.now }
    ensures { result ≡ get_or es.now (4 * i) 0 }
{
    es[4 * i]
}

pub fn edge_to(es: &[u32], i: usize) -> u32
    requires { 4 * i + 4 ≤ length es.now }
    ensures { result ≡ get_or es.now (4 * i + 1) 0 }
{
    es[4 * i + 1]
}

pub fn edge_support(es: &[u32], i: usize) -> u32
    requires { 4 * i + 4 ≤ length es.now }
    ensures { result ≡ get_or es.now (4 * i + 2) 0 }
{
    es[4 * i + 2]
}

pub fn edge_flag(es: &[u32], i: usize) -> u32
    requires { 4 * i + 4 ≤ length es.now }
    ensures { result ≡ get_or es.now (4 * i + 3) 0 }
{
    es[4 * i + 3]
}

pub fn edge_is_ref(es: &[u32], i: usize) -> bool
    requires { 4 * i + 4 ≤ length es.now }
    ensures { result ≡ (edge_in es.now i).is_ref }
{
    edge_data::flag_is_ref(edge_flag(es, i))
}

pub fn edge_is_capped(es: &[u32], i: usize) -> bool
    requires { 4 * i + 4 ≤ length es.now }
    ensures { result ≡ (edge_in es.now i).capped }
{
    edge_data::flag_is_capped(edge_flag(es, i))
}

// What edge i carries: its support and its flag as they are.
pub fn carried(es: &[u32], i: usize) -> Carried
    requires { 4 * i + 4 ≤ length es.now }
    ensures { result ≡ carried_at es.now i }
{
    Carried {
        support: edge_support(es, i),
        flag: edge_flag(es, i),
    }
}

// The end `off` of edge i: 0 is the end that it leaves, 1 the end that it enters.
pub fn edge_end(es: &[u32], i: usize, off: usize) -> u32
    requires { (off ≤ 1) × (4 * i + 4 ≤ length es.now) }
    ensures { result ≡ get_or es.now (4 * i + off) 0 }
{
    es[4 * i + off]
}

pub fn put_edge(es: &mut [u32], i: usize, a: u32, b: u32, s: u32, r: u32)
    requires { 4 * i + 4 ≤ length es.old }
    ensures { es.new ≡ put_edge es.old i a b s r }
{
    es[4 * i] = a;
    es[4 * i + 1] = b;
    es[4 * i + 2] = s;
    es[4 * i + 3] = r;
}

pub fn put_edge_from(es: &mut [u32], i: usize, a: u32)
    requires { 4 * i + 4 ≤ length es.old }
    ensures { es.new ≡ set es.old (4 * i) a }
{
    es[4 * i] = a;
}

// A vertex's two numbers as they are stored, and below as a place and a length in the pool.
pub fn start_number(vs: &[u32], v: usize) -> u32
    requires { 2 * v + 2 ≤ length vs.now }
    ensures { result ≡ get_or vs.now (2 * v) 0 }
{
    vs[2 * v]
}

pub fn len_number(vs: &[u32], v: usize) -> u32
    requires { 2 * v + 2 ≤ length vs.now }
    ensures { result ≡ get_or vs.now (2 * v + 1) 0 }
{
    vs[2 * v + 1]
}

pub fn vertex_start(vs: &[u32], v: u32) -> usize
    requires { 2 * v + 2 ≤ length vs.now }
    ensures { result ≡ get_or vs.now (2 * v) 0 }
{
    vs[2 * (v as usize)] as usize
}

pub fn vertex_len(vs: &[u32], v: u32) -> usize
    requires { 2 * v + 2 ≤ length vs.now }
    ensures { result ≡ get_or vs.now (2 * v + 1) 0 }
{
    vs[2 * (v as usize) + 1] as usize
}

pub fn put_vertex(vs: &mut [u32], v: usize, start: u32, len: u32)
    requires { 2 * v + 2 ≤ length vs.old }
    ensures { vs.new ≡ put_vertex vs.old v start len }
{
    vs[2 * v] = start;
    vs[2 * v + 1] = len;
}

pub fn put_start(vs: &mut [u32], v: usize, start: u32)
    requires { 2 * v + 2 ≤ length vs.old }
    ensures { vs.new ≡ set vs.old (2 * v) start }
{
    vs[2 * v] = start;
}

// The edge from a to b stands at `at` and is joined with d; where `at` is m there is none, and one that carries d is added at the end. The
// number of edges.
pub fn add_or_update_edge(es: &mut [u32], m: usize, at: usize, a: u32, b: u32, d: Carried) -> usize
    requires { Joinable m es.old at a b }
    ensures { (result ≤ m + 1) × (edges_in result es.new ≡ add_or_update_edge a b (carried_data d) (edges_in m es.old)) }
{
    if at < m {
        let j = edge_data::joined(carried(es, at), d);
        put_edge(
            es,
            at,
            edge_from(es, at),
            edge_to(es, at),
            j.support,
            j.flag,
        );
        return m;
    }
    put_edge(es, m, a, b, d.support, d.flag);
    m + 1
}
