// A new vertex takes over the edges of an old one, joined where one is there already. A mark for each vertex says where its edge stands.
#![tactic(auto)]

ghost use Rattle.std.specs.Prelude.{◌≡◌, ◌+◌, ◌*◌, ◌-◌, ◌<◌};
ghost use Rattle.redirect.specs.Redirect.{OneReady, OneDone, Redirectable, Redirected};

// Adds edge e with y as its end `off`, or joins it to the one that is there; the number of edges.
fn redirect_edge(
    es: &mut [u32],
    m: usize,
    n: usize,
    off: usize,
    y: u32,
    lo: usize,
    map: &mut [u32],
    e: usize,
) -> usize
    requires { OneReady off y n lo m es.old map.old e }
    ensures { OneDone off y n lo m es.old e result es.new map.new }
{
    let x = store::edge_end(es, e, 1 - off);
    // a mark at or below `lo` is of an earlier use, and says nothing
    let mark = map[x as usize] as usize;
    let at = if mark <= lo { m } else { mark - 1 };
    let from = if off == 0 { y } else { x };
    let to = if off == 0 { x } else { y };
    let k = store::add_or_update_edge(es, m, at, from, to, store::carried(es, e));
    map[x as usize] = (at + 1) as u32;
    k
}

// The new vertex y takes over v's edges at the end `off` (0 outgoing, 1 incoming), of the first `old`; the number of edges.
pub fn redirect_edges(
    es: &mut [u32],
    old: usize,
    n: usize,
    heads: &[u32],
    nexts: &[u32],
    off: usize,
    v: usize,
    m: usize,
    y: u32,
    lo: usize,
    map: &mut [u32],
) -> usize
    requires { Redirectable off y n lo old m es.old heads.now nexts.now map.old v }
    ensures { Redirected off y n lo old m es.old v result es.new map.new }
{
    let mut k = m;
    let mut e = heads[2 * v + off] as usize;
    while e < old {
        k = redirect_edge(es, k, n, off, y, lo, map, e);
        e = nexts[2 * e + off] as usize;
    }
    k
}
