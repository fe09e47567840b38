// The conversion of a k-mer graph (`from_assembly_graph`): a vertex without incoming edges keeps its k-mer, another its last byte; the
// edges are sorted by the k-mer of from, then of to.
#![tactic(auto)]

ghost use Rattle.std.specs.Prelude.{◌≡◌, ℕ, ◌+◌, ◌*◌, ◌<◌, ◌≤◌, length, get_or};
ghost use Rattle.index.specs.Index.{Indexed};
ghost use Rattle.defs.specs.Lists.{tab};
ghost use Rattle.store.specs.Store.{edge_in, edges_in};
ghost use Rattle.sort.specs.Sort.{Permutation};
ghost use Rattle.convert.specs.Convert.{Trimmable, Trimmed, Places, EdgesCopyable, Convertible, EdgesSorted};

// The vertices get their additional sequences, which are parts of their k-mers.
pub fn additional_sequences(
    es: &[u32],
    m: usize,
    n: usize,
    heads: &[u32],
    nexts: &[u32],
    vs: &mut [u32],
)
    requires { Trimmable n vs.old × Indexed m n es.now heads.now nexts.now }
    ensures { Trimmed m n es.now vs.old vs.new }
{
    for v in 0..n {
        if (heads[2 * v + 1] as usize) < m {
            let start = store::start_number(vs, v);
            let len = store::len_number(vs, v);
            store::put_vertex(vs, v, start + (len - 1), 1);
        }
    }
}

// Notes where each of the first n numbers of `order` stands.
fn put_places(order: &[u32], n: usize, place: &mut [u32])
    requires { Permutation n order.now × ((n ≤ length place.old) × (n < 4294967296)) }
    ensures { Places n order.now place.new }
{
    for i in 0..n {
        place[order[i] as usize] = i as u32;
    }
}

// Copies the m edges in the order of their numbers.
fn copy_edges(es: &[u32], order: &[u32], m: usize, out: &mut [u32])
    requires { EdgesCopyable m es.now order.now out.old }
    ensures { edges_in m out.new ≡ tab m (λ (i : ℕ). edge_in es.now (get_or order.now i 0)) }
{
    for i in 0..m {
        let e = order[i] as usize;
        let a = store::edge_from(es, e);
        let b = store::edge_to(es, e);
        let s = store::edge_support(es, e);
        let r = store::edge_flag(es, e);
        store::put_edge(out, i, a, b, s, r);
    }
}

// Writes the edges to `out`, sorted by the k-mer of from, then of to. `order` has the vertices in the order of their k-mers.
pub fn edges_sorted(
    es: &[u32],
    m: usize,
    n: usize,
    order: &mut [u32],
    scratch: &mut [u32],
    place: &mut [u32],
    out: &mut [u32],
)
    requires { Convertible m n es.now order.old scratch.old place.old out.old }
    ensures { EdgesSorted m n es.now order.old out.new }
{
    put_places(order, n, place);
    edge_order::edge_order(order, scratch, m, es, place);
    copy_edges(es, order, m, out);
}
