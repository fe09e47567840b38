// The index of the edges at each vertex, in edge order. heads: two numbers a vertex, its first edge out and its first edge in.
// nexts: two numbers an edge, the next edge out of the same vertex and the next edge into the same vertex. m stands for none.
// Only this crate writes them; whoever follows a vertex's list reads them where they stand.
// `off` 0 is the end that an edge leaves, 1 the end that it enters.
#![tactic(auto)]

ghost use Rattle.std.specs.Prelude.{◌≡◌, ℕ, ◌+◌, ◌*◌, ◌<◌, ◌≤◌, length, get_or, eqb, ltb};
ghost use Rattle.index.specs.Index.{Indexable, Indexed, Collected, edge_end, incident_edges};

pub fn build_index(es: &[u32], m: usize, n: usize, heads: &mut [u32], nexts: &mut [u32])
    requires { Indexable m n es.now heads.old nexts.old }
    ensures { Indexed m n es.now heads.new nexts.new }
{
    compact::fill(heads, 2 * n, m as u32);
    for e in (0..m).rev() {
        let u = 2 * (store::edge_from(es, e) as usize);
        nexts[2 * e] = heads[u];
        heads[u] = e as u32;
        let v = 2 * (store::edge_to(es, e) as usize) + 1;
        nexts[2 * e + 1] = heads[v];
        heads[v] = e as u32;
    }
}

// How many edges are at v.
pub fn degree(
    es: &[u32],
    m: usize,
    n: usize,
    heads: &[u32],
    nexts: &[u32],
    off: usize,
    v: usize,
) -> usize
    requires { (v < n) × ((off ≤ 1) × Indexed m n es.now heads.now nexts.now) }
    ensures { result ≡ length (incident_edges (edge_end off es.now) m v) }
{
    let mut d = 0;
    let mut e = heads[2 * v + off] as usize;
    while e < m {
        d += 1;
        e = nexts[2 * e + off] as usize;
    }
    d
}

// Writes the other ends of v's edges to out; how many.
pub fn collect(
    es: &[u32],
    m: usize,
    n: usize,
    heads: &[u32],
    nexts: &[u32],
    off: usize,
    v: usize,
    out: &mut [u32],
) -> usize
    requires { (v < n) × ((off ≤ 1) × ((m ≤ length out.old) × Indexed m n es.now heads.now nexts.now)) }
    ensures { Collected off m es.now v result out.new }
{
    let mut j = 0;
    let mut e = heads[2 * v + off] as usize;
    while e < m {
        out[j] = store::edge_end(es, e, 1 - off);
        j += 1;
        e = nexts[2 * e + off] as usize;
    }
    j
}

// Whether v has exactly one edge.
pub fn has_one(
    es: &[u32],
    m: usize,
    n: usize,
    heads: &[u32],
    nexts: &[u32],
    off: usize,
    v: usize,
) -> bool
    requires { (v < n) × ((off ≤ 1) × Indexed m n es.now heads.now nexts.now) }
    ensures { result ≡ eqb (length (incident_edges (edge_end off es.now) m v)) 1 }
{
    let e = heads[2 * v + off] as usize;
    if m <= e {
        return false;
    }
    m <= nexts[2 * e + off] as usize
}

// Whether v has two edges or more.
pub fn has_several(
    es: &[u32],
    m: usize,
    n: usize,
    heads: &[u32],
    nexts: &[u32],
    off: usize,
    v: usize,
) -> bool
    requires { (v < n) × ((off ≤ 1) × Indexed m n es.now heads.now nexts.now) }
    ensures { result ≡ ltb 1 (length (incident_edges (edge_end off es.now) m v)) }
{
    let e = heads[2 * v + off] as usize;
    if m <= e {
        return false;
    }
    (nexts[2 * e + off] as usize) < m
}
