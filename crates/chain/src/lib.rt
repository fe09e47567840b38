// Linear chains: where one starts, and the vertices behind its start.
#![tactic(auto)]

ghost use Rattle.std.specs.Prelude.{◌≡◌, ◌+◌, ◌*◌, ◌<◌, ◌≤◌, length};
ghost use Rattle.index.specs.Index.{Indexed};
ghost use Rattle.chain.specs.Chain.{ChainStart, GoesOn, Traced};

pub fn is_linear_chain_start(
    es: &[u32],
    m: usize,
    n: usize,
    heads: &[u32],
    nexts: &[u32],
    v: usize,
) -> bool
    requires { (v < n) × Indexed m n es.now heads.now nexts.now }
    ensures { ChainStart m n es.now v result }
{
    if !index::has_one(es, m, n, heads, nexts, 0, v) {
        return false;
    }
    if !index::has_one(es, m, n, heads, nexts, 1, v) {
        return true;
    }
    let e = heads[2 * v + 1] as usize;
    let u = store::edge_from(es, e) as usize;
    index::has_several(es, m, n, heads, nexts, 0, u)
}

// Whether the chain that ends in `last` goes on to `next`.
pub fn chain_goes_on(
    es: &[u32],
    m: usize,
    n: usize,
    heads: &[u32],
    nexts: &[u32],
    last: usize,
    next: usize,
) -> bool
    requires { (last < n) × ((next < n) × Indexed m n es.now heads.now nexts.now) }
    ensures { GoesOn m n es.now last next result }
{
    index::has_one(es, m, n, heads, nexts, 0, last)
        && index::has_one(es, m, n, heads, nexts, 1, next)
        && last != next
        && refs::is_reference_node(es, m, n, heads, nexts, last)
            == refs::is_reference_node(es, m, n, heads, nexts, next)
}

// Writes the vertices of the chain behind `start`; how many.
pub fn trace_linear_chain(
    es: &[u32],
    m: usize,
    n: usize,
    heads: &[u32],
    nexts: &[u32],
    start: usize,
    out: &mut [u32],
) -> usize
    requires { (start < n) × ((n ≤ length out.old) × Indexed m n es.now heads.now nexts.now) }
    ensures { Traced m n es.now start result out.new }
{
    let mut last = start;
    for c in 0..n {
        if !index::has_one(es, m, n, heads, nexts, 0, last) {
            return c;
        }
        let e = heads[2 * last] as usize;
        let next = store::edge_to(es, e);
        if !chain_goes_on(es, m, n, heads, nexts, last, next as usize) {
            return c;
        }
        out[c] = next;
        last = next as usize;
    }
    n
}
