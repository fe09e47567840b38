// When the followers of a vertex are the middles of a diamond, or tails. Each test follows the lists of the index.
// `off` 0 is the end that an edge leaves, 1 the end that it enters.
#![tactic(auto)]

ghost use Rattle.std.specs.Prelude.{◌≡◌, ◌+◌, ◌*◌, ◌<◌, ◌≤◌, length, eqb};
ghost use Rattle.defs.specs.Lists.{all_of};
ghost use Rattle.store.specs.Store.{nums_in};
ghost use Rattle.compact.specs.Compact.{Below};
ghost use Rattle.index.specs.Index.{Indexed, edge_end, incident_edges};
ghost use Rattle.diamond.specs.Diamond.{all_enter, is_middle, is_tail, Diamond, Tails};

// Whether c edges are at v, no more and no fewer. However many there are, it follows c + 1 of them at most: a vertex with many edges can
// be asked for once for each of them.
pub fn degree_is(
    es: &[u32],
    m: usize,
    n: usize,
    heads: &[u32],
    nexts: &[u32],
    off: usize,
    v: usize,
    c: usize,
) -> bool
    requires { (v < n) × ((off ≤ 1) × Indexed m n es.now heads.now nexts.now) }
    ensures { result ≡ eqb (length (incident_edges (edge_end off es.now) m v)) c }
{
    let mut d = 0;
    let mut e = heads[2 * v + off] as usize;
    while e < m {
        if d == c {
            return false;
        }
        d += 1;
        e = nexts[2 * e + off] as usize;
    }
    d == c
}

// Whether every edge from v enters b.
pub fn all_enter(
    es: &[u32],
    m: usize,
    n: usize,
    heads: &[u32],
    nexts: &[u32],
    v: usize,
    b: u32,
) -> bool
    requires { (v < n) × Indexed m n es.now heads.now nexts.now }
    ensures { result ≡ all_enter m es.now v b }
{
    let mut e = heads[2 * v] as usize;
    while e < m {
        if store::edge_to(es, e) != b {
            return false;
        }
        e = nexts[2 * e] as usize;
    }
    true
}

// Whether v has one edge in, and edges out, all to b.
pub fn is_middle(
    es: &[u32],
    m: usize,
    n: usize,
    heads: &[u32],
    nexts: &[u32],
    v: usize,
    b: u32,
) -> bool
    requires { (v < n) × Indexed m n es.now heads.now nexts.now }
    ensures { result ≡ is_middle m es.now b v }
{
    index::has_one(es, m, n, heads, nexts, 1, v)
        && !degree_is(es, m, n, heads, nexts, 0, v, 0)
        && all_enter(es, m, n, heads, nexts, v, b)
}

// Whether all of the first c of `nodes` are middles above b.
pub fn all_middles(
    es: &[u32],
    m: usize,
    n: usize,
    heads: &[u32],
    nexts: &[u32],
    nodes: &[u32],
    c: usize,
    b: u32,
) -> bool
    requires { Below nodes.now c n × Indexed m n es.now heads.now nexts.now }
    ensures { result ≡ all_of (is_middle m es.now b) (nums_in c nodes.now) }
{
    nodes[..c]
        .iter()
        .all(|v| is_middle(es, m, n, heads, nexts, *v as usize, b))
}

// Whether the first c of `nodes`, followers of a top, stand above b as a diamond.
pub fn is_diamond(
    es: &[u32],
    m: usize,
    n: usize,
    heads: &[u32],
    nexts: &[u32],
    nodes: &[u32],
    c: usize,
    b: u32,
) -> bool
    requires { (b < n) × (Below nodes.now c n × Indexed m n es.now heads.now nexts.now) }
    ensures { Diamond m n es.now nodes.now c b result }
{
    2 <= c
        && all_middles(es, m, n, heads, nexts, nodes, c, b)
        && degree_is(es, m, n, heads, nexts, 1, b as usize, c)
}

// Whether v has no edge out and one edge in.
pub fn is_tail(es: &[u32], m: usize, n: usize, heads: &[u32], nexts: &[u32], v: usize) -> bool
    requires { (v < n) × Indexed m n es.now heads.now nexts.now }
    ensures { result ≡ is_tail m es.now v }
{
    degree_is(es, m, n, heads, nexts, 0, v, 0) && index::has_one(es, m, n, heads, nexts, 1, v)
}

// Whether all of the first c of `nodes` are tails.
pub fn all_tails(
    es: &[u32],
    m: usize,
    n: usize,
    heads: &[u32],
    nexts: &[u32],
    nodes: &[u32],
    c: usize,
) -> bool
    requires { Below nodes.now c n × Indexed m n es.now heads.now nexts.now }
    ensures { result ≡ all_of (is_tail m es.now) (nums_in c nodes.now) }
{
    nodes[..c]
        .iter()
        .all(|v| is_tail(es, m, n, heads, nexts, *v as usize))
}

// Whether the first c of `nodes`, followers of a top, are tails, two or more.
pub fn is_tails(
    es: &[u32],
    m: usize,
    n: usize,
    heads: &[u32],
    nexts: &[u32],
    nodes: &[u32],
    c: usize,
) -> bool
    requires { Below nodes.now c n × Indexed m n es.now heads.now nexts.now }
    ensures { Tails m n es.now nodes.now c result }
{
    2 <= c && all_tails(es, m, n, heads, nexts, nodes, c)
}
