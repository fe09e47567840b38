// When the predecessors of a vertex are split by the suffix that they share. Each test follows the lists of the index.
#![tactic(auto)]

ghost use Rattle.std.specs.Prelude.{◌≡◌, ◌+◌, ◌*◌, ◌<◌, ◌≤◌, length};
ghost use Rattle.defs.specs.Lists.{all_of};
ghost use Rattle.store.specs.Store.{nums_in};
ghost use Rattle.compact.specs.Compact.{Below};
ghost use Rattle.index.specs.Index.{Indexed};
ghost use Rattle.split_tests.specs.SplitTests.{one_out, is_long, SplitTestable, Eliminates, Splits};

// Whether each of the first c of `nodes` has one follower.
fn all_one_out(
    es: &[u32],
    m: usize,
    n: usize,
    heads: &[u32],
    nexts: &[u32],
    nodes: &[u32],
    c: usize,
) -> bool
    requires { Below nodes.now c n × Indexed m n es.now heads.now nexts.now }
    ensures { result ≡ all_of (one_out m es.now) (nums_in c nodes.now) }
{
    nodes[..c]
        .iter()
        .all(|v| index::has_one(es, m, n, heads, nexts, 0, *v as usize))
}

// Whether the first reference source among the first c of `nodes` has s bytes.
pub fn would_eliminate_ref_source(
    es: &[u32],
    m: usize,
    n: usize,
    heads: &[u32],
    nexts: &[u32],
    vs: &[u32],
    nodes: &[u32],
    c: usize,
    s: usize,
) -> bool
    requires { (2 * n ≤ length vs.now) × (Below nodes.now c n × Indexed m n es.now heads.now nexts.now) }
    ensures { Eliminates n m es.now vs.now nodes.now c s result }
{
    for i in 0..c {
        let v = nodes[i];
        if refs::is_ref_source(es, m, n, heads, nexts, v as usize) {
            return store::vertex_len(vs, v) == s;
        }
    }
    false
}

// Whether each of the first c of `nodes` has s bytes.
fn all_long(vs: &[u32], n: usize, nodes: &[u32], c: usize, s: usize) -> bool
    requires { (2 * n ≤ length vs.now) × Below nodes.now c n }
    ensures { result ≡ all_of (is_long vs.now s) (nums_in c nodes.now) }
{
    nodes[..c].iter().all(|v| store::vertex_len(vs, *v) == s)
}

// The suffix that the first c of `nodes`, predecessors of a vertex, are split by, as its length, or none.
// That none of them is that vertex or follows it needs no test: there is no cycle.
pub fn safe_to_split(
    es: &[u32],
    m: usize,
    n: usize,
    heads: &[u32],
    nexts: &[u32],
    vs: &[u32],
    p: &[u8],
    nodes: &[u32],
    c: usize,
) -> Option<usize>
    requires { SplitTestable n m es.now vs.now p.now heads.now nexts.now nodes.now c }
    ensures { Splits n m es.now vs.now p.now nodes.now c result }
{
    if c < 2 || !all_one_out(es, m, n, heads, nexts, nodes, c) {
        return None;
    }
    let s = shared::shared_suffix(vs, p, n, nodes, c, 0);
    if s == 0
        || would_eliminate_ref_source(es, m, n, heads, nexts, vs, nodes, c, s)
        || all_long(vs, n, nodes, c, s)
    {
        return None;
    }
    Some(s)
}
