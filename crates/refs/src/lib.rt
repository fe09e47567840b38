// Reference edges, nodes, sources and sinks.
#![tactic(auto)]

ghost use Rattle.std.specs.Prelude.{◌≡◌, ℕ, ◌+◌, ◌*◌, ◌<◌, ◌≤◌, length};
ghost use Rattle.defs.specs.Lists.{any_of};
ghost use Rattle.index.specs.Index.{Indexed, edge_end, incident_edges};
ghost use Rattle.refs.specs.Refs.{ref_at, RefNode, RefSource, RefSink, FirstSource, FirstSink};

// Whether one of v's edges is a reference edge; off 0 outgoing, 1 incoming.
pub fn any_ref(
    es: &[u32],
    m: usize,
    n: usize,
    heads: &[u32],
    nexts: &[u32],
    off: usize,
    v: usize,
) -> bool
    requires { (v < n) × ((off ≤ 1) × Indexed m n es.now heads.now nexts.now) }
    ensures { result ≡ any_of (ref_at es.now) (incident_edges (edge_end off es.now) m v) }
{
    let mut e = heads[2 * v + off] as usize;
    while e < m {
        if store::edge_is_ref(es, e) {
            return true;
        }
        e = nexts[2 * e + off] as usize;
    }
    false
}

pub fn is_reference_node(
    es: &[u32],
    m: usize,
    n: usize,
    heads: &[u32],
    nexts: &[u32],
    v: usize,
) -> bool
    requires { (v < n) × Indexed m n es.now heads.now nexts.now }
    ensures { RefNode m n es.now v result }
{
    if any_ref(es, m, n, heads, nexts, 0, v) {
        return true;
    }
    any_ref(es, m, n, heads, nexts, 1, v)
}

pub fn is_ref_source(es: &[u32], m: usize, n: usize, heads: &[u32], nexts: &[u32], v: usize) -> bool
    requires { (v < n) × Indexed m n es.now heads.now nexts.now }
    ensures { RefSource m n es.now v result }
{
    if n == 1 {
        return true;
    }
    if any_ref(es, m, n, heads, nexts, 1, v) {
        return false;
    }
    any_ref(es, m, n, heads, nexts, 0, v)
}

pub fn is_ref_sink(es: &[u32], m: usize, n: usize, heads: &[u32], nexts: &[u32], v: usize) -> bool
    requires { (v < n) × Indexed m n es.now heads.now nexts.now }
    ensures { RefSink m n es.now v result }
{
    if n == 1 {
        return true;
    }
    if any_ref(es, m, n, heads, nexts, 0, v) {
        return false;
    }
    any_ref(es, m, n, heads, nexts, 1, v)
}

// The first reference source.
pub fn reference_source_vertex(
    es: &[u32],
    m: usize,
    n: usize,
    heads: &[u32],
    nexts: &[u32],
) -> Option<usize>
    requires { Indexed m n es.now heads.now nexts.now }
    ensures { FirstSource m n es.now result }
{
    for v in 0..n {
        if is_ref_source(es, m, n, heads, nexts, v) {
            return Some(v);
        }
    }
    None
}

// The first reference sink.
pub fn reference_sink_vertex(
    es: &[u32],
    m: usize,
    n: usize,
    heads: &[u32],
    nexts: &[u32],
) -> Option<usize>
    requires { Indexed m n es.now heads.now nexts.now }
    ensures { FirstSink m n es.now result }
{
    for v in 0..n {
        if is_ref_sink(es, m, n, heads, nexts, v) {
            return Some(v);
        }
    }
    None
}
