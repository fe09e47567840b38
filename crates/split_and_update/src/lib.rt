// Middles between a top and a bottom, or tails below a top, become a shared prefix, a shared suffix and what remains of each
// (`split_and_update`). New vertices and edges stand behind the old ones; then the middles go.
#![tactic(auto)]

ghost use Rattle.std.specs.Prelude.{◌≡◌, cond, ◌+◌, ◌*◌, ◌-◌, ◌<◌, ◌≤◌, eqb, length};
ghost use Rattle.defs.specs.Lists.{bit};
ghost use Rattle.defs.specs.SeqGraph.{joined_data};
ghost use Rattle.edge_data.specs.EdgeData.{carried_data};
ghost use Rattle.store.specs.Store.{put_edge, part};
ghost use Rattle.split_and_update.specs.Pushed.{PartPushed, Restables, RestsPushed, left_nodes};
ghost use Rattle.split_and_update.specs.Ends.{Entered, end_carried, Mids, DirectIs, any_ref, plans_of, EdgeIfPushed, MidsPushed, Edgeable, EdgesAdded};
ghost use Rattle.split_and_update.specs.Split.{Vertable, VertsAdded, places_of, Splittable, SplitDone};

use edge_data::Carried;
use memory::Held;

// Where the new vertices stand: the prefix, the suffix, the first of what remains of the middles.
#[derive(Clone, Copy)]
pub struct Places {
    pub top: u32,
    pub bottom: u32,
    pub prefix: u32,
    pub suffix: u32,
    pub middles: u32,
    pub prefixed: bool,
    pub suffixed: bool,
    pub linked: bool,
    pub consumed: bool,
}

// The numbers of the suffix and of the first middle among the new vertices, and of all vertices.
#[derive(Clone, Copy)]
pub struct Added {
    pub suffix: usize,
    pub middles: usize,
    pub all: usize,
}

// What v's first edge at the end `off` carries. Where there is none: support 0, a reference edge where the edge into v is one, not capped.
pub fn end_data(es: &[u32], m: usize, heads: &[u32], off: usize, v: u32) -> Carried
    requires { Entered m es.now heads.now off v }
    ensures { result ≡ end_carried m es.now heads.now off v }
{
    let e = heads[2 * (v as usize) + off] as usize;
    if e < m {
        return store::carried(es, e);
    }
    let into = heads[2 * (v as usize) + 1] as usize;
    let flag = edge_data::new_flag(store::edge_is_ref(es, into));
    Carried { support: 0, flag }
}

// A part of the pool that starts at `start` becomes the sequence of vertex k, unless it is empty; the number of vertices.
pub fn push_part(vs: &mut [u32], k: usize, start: usize, part: &[u8]) -> usize
    requires { (start + length part.now < 4294967296) × (0 < length part.now → 2 * k + 2 ≤ length vs.old) }
    ensures { PartPushed k vs.old start part.now result vs.new }
{
    if part.is_empty() {
        return k;
    }
    store::put_vertex(vs, k, start as u32, part.len() as u32);
    k + 1
}

// What is left of the sequence from `start` on, of `len` bytes, starts behind x bytes and ends before y.
pub fn push_rest(
    vs: &mut [u32],
    k: usize,
    p: &[u8],
    start: usize,
    len: usize,
    x: usize,
    y: usize,
) -> usize
    requires y_bound { (x + y ≤ len) × ((start + len ≤ length p.now) × (start + len < 4294967296)) }
    requires k_in_bounds { x + y < len → 2 * k + 2 ≤ length vs.old }
    ensures { PartPushed k vs.old (start + x) (part p.now (start + x) (len - y - x)) result vs.new }
{
    push_part(vs, k, start + x, &p[start + x..start + len - y])
}

// What is left of each of the first c of `nodes`; the number of vertices.
pub fn push_rests(
    vs: &mut [u32],
    k: usize,
    p: &[u8],
    nodes: &[u32],
    c: usize,
    x: usize,
    y: usize,
) -> usize
    requires { Restables k vs.old p.now nodes.now c x y }
    ensures { RestsPushed k vs.old p.now nodes.now c x y result vs.new }
{
    let mut j = k;
    for i in 0..c {
        let start = store::vertex_start(vs, nodes[i]);
        let len = store::vertex_len(vs, nodes[i]);
        j = push_rest(vs, j, p, start, len, x, y);
    }
    j
}

// Whether an edge at the end `off` of one of the middles that remain is a reference edge.
pub fn mids_ref(
    es: &[u32],
    m: usize,
    vs: &[u32],
    heads: &[u32],
    nodes: &[u32],
    c: usize,
    cut: usize,
    off: usize,
) -> bool
    requires { (off ≤ 1) × Mids m es.now vs.now heads.now nodes.now c }
    ensures { result ≡ any_ref off (plans_of m es.now heads.now (left_nodes vs.now cut nodes.now c)) }
{
    let mut any = false;
    for i in 0..c {
        let v = nodes[i];
        if cut < store::vertex_len(vs, v) {
            let d = end_data(es, m, heads, off, v);
            any |= edge_data::flag_is_ref(d.flag);
        }
    }
    any
}

// What the edges of the middles that are consumed carry together.
pub fn prefix_to_suffix(
    es: &[u32],
    m: usize,
    vs: &[u32],
    heads: &[u32],
    nodes: &[u32],
    c: usize,
    cut: usize,
) -> Carried
    requires { Mids m es.now vs.now heads.now nodes.now c }
    ensures { DirectIs m es.now vs.now heads.now nodes.now c cut result }
{
    let mut all = Carried {
        support: 0,
        flag: 0,
    };
    for i in 0..c {
        let v = nodes[i];
        if store::vertex_len(vs, v) <= cut {
            let into = end_data(es, m, heads, 1, v);
            let out = end_data(es, m, heads, 0, v);
            all = edge_data::joined(all, edge_data::joined(into, out));
        }
    }
    all
}

// An edge that is added twice is joined with itself.
pub fn twice_if(test: bool, d: Carried) -> Carried
    ensures { carried_data result ≡ cond test (joined_data (carried_data d) (carried_data d)) (carried_data d) }
{
    if test { edge_data::joined(d, d) } else { d }
}

// Stores an edge between u and the middle j at k: from u to j at the end 1, from j to u at the end 0.
pub fn put_mid_edge(es: &mut [u32], k: usize, off: usize, u: u32, j: u32, s: u32, f: u32)
    requires { 4 * k + 4 ≤ length es.old }
    ensures { es.new ≡ cond (eqb off 1) (put_edge es.old k u j s f) (put_edge es.old k j u s f) }
{
    if off == 1 {
        store::put_edge(es, k, u, j, s, f);
    } else {
        store::put_edge(es, k, j, u, s, f);
    }
}

// Edges between u and the middles that remain, which stand from `first` on; the number of edges.
pub fn push_mid_edges(
    es: &mut [u32],
    m: usize,
    k: usize,
    vs: &[u32],
    heads: &[u32],
    nodes: &[u32],
    c: usize,
    cut: usize,
    off: usize,
    u: u32,
    first: u32,
) -> usize
    requires off_bound { (off ≤ 1) × ((m ≤ k) × ((first + c < 4294967296) × Mids m es.old vs.now heads.now nodes.now c)) }
    requires c_in_bounds { 4 * (k + length (left_nodes vs.now cut nodes.now c)) ≤ length es.old }
    ensures { MidsPushed m k es.old vs.now heads.now nodes.now c cut off u first result es.new }
{
    let mut at = k;
    let mut j = first;
    for i in 0..c {
        let v = nodes[i];
        if cut < store::vertex_len(vs, v) {
            let d = end_data(es, m, heads, off, v);
            put_mid_edge(es, at, off, u, j, d.support, d.flag);
            at += 1;
            j += 1;
        }
    }
    at
}

// An edge behind the first k, where it is to be; the number of edges.
pub fn push_edge_if(es: &mut [u32], k: usize, test: bool, a: u32, b: u32, s: u32, f: u32) -> usize
    requires { 4 * (k + bit test) ≤ length es.old }
    ensures { EdgeIfPushed k es.old test a b s f result es.new }
{
    if !test {
        return k;
    }
    store::put_edge(es, k, a, b, s, f);
    k + 1
}

// The new edges; their number and that of the old ones.
pub fn add_edges(
    es: &mut [u32],
    m: usize,
    vs: &[u32],
    heads: &[u32],
    nodes: &[u32],
    c: usize,
    cut: usize,
    w: Places,
) -> usize
    requires { Edgeable m es.old vs.now heads.now nodes.now c cut w }
    ensures { EdgesAdded m es.old vs.now heads.now nodes.now c cut w result es.new }
{
    let d = prefix_to_suffix(es, m, vs, heads, nodes, c, cut);
    let direct = edge_data::flag_is_ref(d.flag);
    let to_mids = mids_ref(es, m, vs, heads, nodes, c, cut, 1);
    let from_mids = mids_ref(es, m, vs, heads, nodes, c, cut, 0);
    let into = edge_data::new_flag(to_mids || direct);
    let out = edge_data::new_flag(from_mids || direct);
    let t = if w.prefixed { w.prefix } else { w.top };
    let b = if w.suffixed { w.suffix } else { w.bottom };
    let once = twice_if(w.prefixed, d);
    let k1 = push_edge_if(es, m, w.prefixed, w.top, w.prefix, 1, into);
    let k2 = push_edge_if(es, k1, w.linked, w.suffix, w.bottom, 1, out);
    let k3 = push_mid_edges(es, m, k2, vs, heads, nodes, c, cut, 1, t, w.middles);
    let k4 = push_edge_if(es, k3, w.consumed, t, b, once.support, once.flag);
    push_mid_edges(es, m, k4, vs, heads, nodes, c, cut, 0, b, w.middles)
}

// The new vertices: the prefix of x bytes, the suffix of y bytes, what is left of each middle.
pub fn add_vertices(
    vs: &mut [u32],
    n: usize,
    p: &[u8],
    nodes: &[u32],
    c: usize,
    x: usize,
    y: usize,
) -> Added
    requires { Vertable n vs.old p.now nodes.now c x y }
    ensures { VertsAdded n vs.old p.now nodes.now c x y result vs.new }
{
    let start = store::vertex_start(vs, nodes[0]);
    let end = start + store::vertex_len(vs, nodes[0]);
    let suffix = push_part(vs, n, start, &p[start..start + x]);
    let from = end - y;
    let middles = push_part(vs, suffix, from, &p[from..end]);
    let all = push_rests(vs, middles, p, nodes, c, x, y);
    Added {
        suffix,
        middles,
        all,
    }
}

pub fn new_places(
    top: u32,
    bottom: u32,
    ends: bool,
    n: usize,
    a: Added,
    c: usize,
    x: usize,
    y: usize,
) -> Places
    requires { (n < 4294967296) × ((a.suffix < 4294967296) × (a.middles + c < 4294967296)) }
    ensures { result ≡ places_of top bottom ends n a c x y }
{
    Places {
        top,
        bottom,
        prefix: n as u32,
        suffix: a.suffix as u32,
        middles: a.middles as u32,
        prefixed: 0 < x,
        suffixed: 0 < y,
        linked: 0 < y && ends,
        consumed: a.all < a.middles + c,
    }
}

// The first c of `nodes` become a prefix of x bytes, a suffix of y bytes, and what is left of each. `ends` says whether there is a bottom.
pub fn split_and_update(
    held: Held,
    es: &mut [u32],
    vs: &mut [u32],
    p: &[u8],
    heads: &[u32],
    nodes: &[u32],
    c: usize,
    map: &mut [u32],
    top: u32,
    bottom: u32,
    ends: bool,
    x: usize,
    y: usize,
) -> Held
    requires { Splittable held es.old vs.old p.now heads.now nodes.now c map.old top bottom ends x y }
    ensures { SplitDone held es.old vs.old p.now nodes.now c top bottom ends x y result
        es.new vs.new }
{
    let a = add_vertices(vs, held.n, p, nodes, c, x, y);
    let w = new_places(top, bottom, ends, held.n, a, c, x, y);
    let m = add_edges(es, held.m, vs, heads, nodes, c, x + y, w);
    let left = compact::remove_vertices_by_id(es, vs, a.all, m, nodes, c, map);
    Held {
        n: left.n,
        m: left.m,
        ..held
    }
}
