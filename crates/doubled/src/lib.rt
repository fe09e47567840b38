// Two edges with the same ends: marks along the adjacency lists, so that each edge is looked at once.
#![tactic(auto)]

ghost use Rattle.std.specs.Prelude.{◌≡◌, ◌<◌};
ghost use Rattle.defs.specs.Refusals.{doubled_edge};
ghost use Rattle.store.specs.Store.{edges_in};
ghost use Rattle.index.specs.Index.{Indexed};
ghost use Rattle.doubled.specs.Doubled.{Markable, Stale, DoubledFrom};

// Whether two of v's edges lead to the same vertex. Each follower gets the mark v + 1, which no vertex had before.
fn doubled_from(
    es: &[u32],
    m: usize,
    n: usize,
    heads: &[u32],
    nexts: &[u32],
    v: usize,
    marks: &mut [u32],
) -> bool
    requires { (v < n) × (Indexed m n es.now heads.now nexts.now × (Markable n marks.old × Stale n v marks.old)) }
    ensures { DoubledFrom m n es.now v result marks.new }
{
    let mark = (v + 1) as u32;
    let mut e = heads[2 * v] as usize;
    while e < m {
        let d = e;
        e = nexts[2 * d] as usize;
        let to = store::edge_to(es, d) as usize;
        if marks[to] == mark {
            return true;
        }
        marks[to] = mark;
    }
    false
}

pub fn doubled_edge(
    es: &[u32],
    m: usize,
    n: usize,
    heads: &[u32],
    nexts: &[u32],
    marks: &mut [u32],
) -> bool
    requires { Indexed m n es.now heads.now nexts.now × Markable n marks.old }
    ensures { result ≡ doubled_edge (edges_in m es.now) }
{
    compact::fill(marks, n, 0);
    for v in 0..n {
        if doubled_from(es, m, n, heads, nexts, v, marks) {
            return true;
        }
    }
    false
}
