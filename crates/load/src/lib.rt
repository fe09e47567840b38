// The graph of an accepted record, read into the slices. The sequences stay where they stand: the record itself is the pool. Where a graph is
// rewritten they are copied to a pool of its own.
#![tactic(auto)]

ghost use Rattle.std.specs.Prelude.{◌≡◌, ◌+◌, ◌*◌, ◌≤◌, ◌<◌, length};
ghost use Rattle.defs.specs.Forms.{form_of};
ghost use Rattle.defs.specs.Record.{k_of, edges_of, vertices_of, bytes_at};
ghost use Rattle.form.specs.Coded.{form_is};
ghost use Rattle.load.specs.Loaded.{Laid, EdgesRead, VerticesRead, BytesRead, Loadable, Loaded, Poolable, SequencesPooled};

use form::Form;
use kmer::KmerSize;
use memory::Held;

fn load_edges(rec: &[u8], form: Form, es: &mut [u32], m: usize)
    requires { Laid rec.now × ((form_is form ≡ form_of rec.now) × ((m ≡ edges_of rec.now) × (4 * m ≤ length es.old))) }
    ensures { EdgesRead rec.now m es.new }
{
    for i in 0..m {
        let from = record::edge_from_at(rec, form, i);
        let to = record::edge_to_at(rec, form, i);
        let support = record::edge_support_at(rec, form, i);
        store::put_edge(es, i, from, to, support, record::edge_flag_at(rec, form, i));
    }
}

// Where each sequence starts, if the first one starts at `at`, and how long it is.
fn load_vertices(rec: &[u8], form: Form, vs: &mut [u32], n: usize, at: usize)
    requires { Laid rec.now × ((form_is form ≡ form_of rec.now) × ((n ≡ vertices_of rec.now)
        × ((2 * n ≤ length vs.old) × (at ≤ bytes_at (form_of rec.now) (vertices_of rec.now) (edges_of rec.now))))) }
    ensures { VerticesRead rec.now at n vs.new }
{
    let mut start = at;
    for i in 0..n {
        let len = record::length_at(rec, form, i);
        store::put_vertex(vs, i, start as u32, len as u32);
        start += len;
    }
}

// The first b bytes of the pool are those of the record from `at` on.
fn load_bytes(rec: &[u8], p: &mut [u8], at: usize, b: usize)
    requires { (at + b ≤ length rec.now) × (b ≤ length p.old) }
    ensures { BytesRead rec.now at b p.new }
{
    copies::copy(&mut p[..b], &rec[at..at + b]);
}

// The size k is the one that the check of the layout made. The bytes in use are the whole record's.
pub fn load_graph(rec: &[u8], k: KmerSize, es: &mut [u32], vs: &mut [u32]) -> Held
    requires { (k.0 ≡ k_of rec.now) × Loadable rec.now es.old vs.old }
    ensures { Loaded rec.now result es.new vs.new }
{
    let form = form::form_of(rec);
    let n = record::vertex_count(rec, form);
    let m = record::edge_count(rec, form);
    load_edges(rec, form, es, m);
    load_vertices(rec, form, vs, n, form::bytes_at(form, n, m));
    Held {
        k,
        n,
        m,
        used: rec.len(),
    }
}

// Copies the sequences of a graph that was read to the pool's front.
pub fn load_pool(rec: &[u8], held: Held, vs: &mut [u32], p: &mut [u8]) -> Held
    requires { Poolable rec.now held vs.old p.old }
    ensures { SequencesPooled rec.now held result vs.new p.new }
{
    let form = form::form_of(rec);
    let b = record::byte_count(rec, form);
    load_vertices(rec, form, vs, held.n, 0);
    load_bytes(rec, p, form::bytes_at(form, held.n, held.m), b);
    Held { used: b, ..held }
}
