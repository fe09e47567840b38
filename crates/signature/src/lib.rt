// The signature of a graph (`graph_topology_signature`): written over the previous one, with which it is compared on the way.
#![tactic(auto)]

ghost use Rattle.std.specs.Prelude.{◌≡◌, [], ◌∷◌, ℕ, ◌+◌, ◌*◌, ◌<◌, ◌≤◌, length, get_or};
ghost use Rattle.defs.specs.Lists.{bit};
ghost use Rattle.defs.specs.Record.{flag_is_ref};
ghost use Rattle.store.specs.Store.{edge_in, seq_in};
ghost use Rattle.signature.specs.Signature.{same_at, stored_vertex, stored_edge, stored_vertices, stored_edges, WrittenOver, Writable, Pooled, EndsFit};
ghost use Rattle.signature.specs.Signature.{SignatureWritable, Signature};

use memory::Held;

// How far the signature is written, and whether all of it is as the previous one.
#[derive(Clone, Copy)]
pub struct Signed {
    pub at: usize,
    pub same: bool,
}

// Whether x stands at `at` of the previous signature, which has `old` numbers.
fn same_at(sig: &[u32], at: usize, x: u32, old: usize) -> bool
    requires { old ≤ length sig.now }
    ensures { result ≡ same_at sig.now old at x }
{
    at < old && sig[at] == x
}

// Writes one number.
fn put(sig: &mut [u32], old: usize, s: Signed, x: u32) -> Signed
    requires { Writable sig.old old s 1 }
    ensures { WrittenOver sig.old old s (x ∷ []) result sig.new }
{
    let same = s.same && same_at(sig, s.at, x, old);
    sig[s.at] = x;
    Signed { at: s.at + 1, same }
}

// Writes the bytes of a part.
fn put_bytes(sig: &mut [u32], old: usize, s: Signed, seq: &[u8]) -> Signed
    requires { Writable sig.old old s (length seq.now) }
    ensures { WrittenOver sig.old old s seq.now result sig.new }
{
    let mut t = s;
    for byte in seq {
        t = put(sig, old, t, *byte as u32);
    }
    t
}

// Writes the length and the bytes of v's sequence.
fn put_vertex(sig: &mut [u32], old: usize, s: Signed, vs: &[u32], p: &[u8], v: u32) -> Signed
    requires { (2 * v + 2 ≤ length vs.now) × ((get_or vs.now (2 * v) 0 + get_or vs.now (2 * v + 1) 0 ≤ length p.now)
        × Writable sig.old old s (length (stored_vertex (seq_in vs.now p.now v)))) }
    ensures { WrittenOver sig.old old s (stored_vertex (seq_in vs.now p.now v)) result sig.new }
{
    let start = store::vertex_start(vs, v);
    let len = store::vertex_len(vs, v);
    let t = put(sig, old, s, len as u32);
    put_bytes(sig, old, t, &p[start..start + len])
}

// Writes the first n vertices.
fn put_vertices(sig: &mut [u32], old: usize, s: Signed, n: usize, vs: &[u32], p: &[u8]) -> Signed
    requires { Pooled n vs.now p.now × Writable sig.old old s (length (stored_vertices n vs.now p.now)) }
    ensures { WrittenOver sig.old old s (stored_vertices n vs.now p.now) result sig.new }
{
    let mut t = s;
    for v in 0..n {
        t = put_vertex(sig, old, t, vs, p, v as u32);
    }
    t
}

// The end that edge i enters, and whether it is a reference edge, as one number. Whether its support was capped is not compared.
fn end_and_flag(es: &[u32], i: usize) -> u32
    requires { (4 * i + 4 ≤ length es.now) × (2 * get_or es.now (4 * i + 1) 0 + 1 < 4294967296) }
    ensures { result ≡ 2 * get_or es.now (4 * i + 1) 0 + bit (flag_is_ref (get_or es.now (4 * i + 3) 0)) }
{
    2 * store::edge_to(es, i) + u32::from(store::edge_is_ref(es, i))
}

// Writes the three numbers of edge i.
fn put_edge(sig: &mut [u32], old: usize, s: Signed, es: &[u32], i: usize) -> Signed
    requires { (4 * i + 4 ≤ length es.now) × ((2 * get_or es.now (4 * i + 1) 0 + 1 < 4294967296) × Writable sig.old old s 3) }
    ensures { WrittenOver sig.old old s (stored_edge (edge_in es.now i)) result sig.new }
{
    let from = store::edge_from(es, i);
    let end = end_and_flag(es, i);
    let support = store::edge_support(es, i);
    let a = put(sig, old, s, from);
    let b = put(sig, old, a, end);
    put(sig, old, b, support)
}

// Writes the first m edges.
fn put_edges(sig: &mut [u32], old: usize, s: Signed, m: usize, es: &[u32]) -> Signed
    requires { EndsFit m es.now × Writable sig.old old s (length (stored_edges m es.now)) }
    ensures { WrittenOver sig.old old s (stored_edges m es.now) result sig.new }
{
    let mut t = s;
    for i in 0..m {
        t = put_edge(sig, old, t, es, i);
    }
    t
}

// Writes the signature of the held graph over the previous one, of `old` numbers.
pub fn replace_signature(
    sig: &mut [u32],
    old: usize,
    held: Held,
    es: &[u32],
    vs: &[u32],
    p: &[u8],
) -> Signed
    requires { SignatureWritable sig.old old held es.now vs.now p.now }
    ensures { Signature sig.old old held es.now vs.now p.now result sig.new }
{
    let first = put(sig, old, Signed { at: 0, same: true }, held.n as u32);
    let counts = put(sig, old, first, held.m as u32);
    let vertices = put_vertices(sig, old, counts, held.n, vs, p);
    let s = put_edges(sig, old, vertices, held.m, es);
    Signed {
        same: s.same && s.at == old,
        ..s
    }
}
