// Vertices that go: the numbers of the others close up, in place (`compact_vertices_and_remap_edges`).
#![tactic(auto)]

ghost use Rattle.std.specs.Prelude.{◌≡◌, ℕ, ◌+◌, ◌*◌, ◌<◌, ◌≤◌, length, get_or};
ghost use Rattle.store.specs.Store.{nums_in, EndsBelow, Numbered};
ghost use Rattle.compact.specs.Compact.{BothSet, Cleared, Marked, Renumbered, VertsClosed, EdgesClosed, Compactable, Compacted, Below, Removed};

#[derive(Clone, Copy)]
pub struct Counts {
    pub n: usize,
    pub m: usize,
}

// Fills the first n places with x.
pub fn fill(dst: &mut [u32], n: usize, x: u32)
    requires { n ≤ length dst.old }
    ensures { (k : ℕ) → k < n → get_or dst.new k 0 ≡ x }
{
    dst[..n].fill(x);
}

// No mark from `from` on, below `to`.
pub fn clear_marks(marks: &mut [u8], from: usize, to: usize)
    requires { (from ≤ to) × (to ≤ length marks.old) }
    ensures { Cleared marks.old from to marks.new }
{
    marks[from..to].fill(0);
}

// Of n vertices those that go get 1, the others 0.
pub fn mark_gone(map: &mut [u32], n: usize, gone: &[u32], g: usize)
    requires n_in_bounds { (n ≤ length map.old) × (g ≤ length gone.now) }
    requires by_index { (k : ℕ) → k < g → get_or gone.now k 0 < n }
    ensures { Marked (nums_in g gone.now) n map.new }
{
    fill(map, n, 0);
    for i in 0..g {
        map[gone[i] as usize] = 1;
    }
}

// Turns the marks of n vertices into their new numbers plus 1, and 0 for those that go.
pub fn number(map: &mut [u32], n: usize)
    requires { (n ≤ length map.old) × (n < 4294967296) }
    ensures { Renumbered map.old n map.new }
{
    let mut j = 0;
    for v in 0..n {
        if map[v] == 0 {
            j += 1;
            map[v] = j;
        } else {
            map[v] = 0;
        }
    }
}

// Closes n vertices up in place; the number left.
pub fn close_vertices(vs: &mut [u32], n: usize, map: &[u32]) -> usize
    requires { (2 * n ≤ length vs.old) × (n ≤ length map.now) }
    ensures { VertsClosed map.now n vs.old result vs.new }
{
    let mut j = 0;
    for v in 0..n {
        if map[v] != 0 {
            let start = store::start_number(vs, v);
            let len = store::len_number(vs, v);
            store::put_vertex(vs, j, start, len);
            j += 1;
        }
    }
    j
}

pub fn both_set(a: u32, b: u32) -> bool
    ensures { BothSet a b result }
{
    a != 0 && b != 0
}

// Drops the edges with an end that goes and renumbers the others, in place; the number left.
pub fn close_edges(es: &mut [u32], m: usize, map: &[u32], n: usize) -> usize
    requires { (4 * m ≤ length es.old) × (Numbered n map.now × EndsBelow n m es.old) }
    ensures { EdgesClosed map.now m es.old result es.new }
{
    let mut j = 0;
    for e in 0..m {
        let a = map[store::edge_from(es, e) as usize];
        let b = map[store::edge_to(es, e) as usize];
        if both_set(a, b) {
            let s = store::edge_support(es, e);
            let f = store::edge_flag(es, e);
            store::put_edge(es, j, a - 1, b - 1, s, f);
            j += 1;
        }
    }
    j
}

// Takes away the vertices that are marked in `map`, which then holds the new numbers plus 1, and 0 for those that went.
pub fn compact_vertices(
    es: &mut [u32],
    vs: &mut [u32],
    n: usize,
    m: usize,
    map: &mut [u32],
) -> Counts
    requires { Compactable n m es.old vs.old map.old }
    ensures { Compacted n m es.old vs.old map.old result es.new vs.new map.new }
{
    number(map, n);
    let left = close_vertices(vs, n, map);
    let kept = close_edges(es, m, map, n);
    Counts { n: left, m: kept }
}

// Takes away the first g vertices of `gone`.
pub fn remove_vertices_by_id(
    es: &mut [u32],
    vs: &mut [u32],
    n: usize,
    m: usize,
    gone: &[u32],
    g: usize,
    map: &mut [u32],
) -> Counts
    requires { Compactable n m es.old vs.old map.old × Below gone.now g n }
    ensures { Removed n m es.old vs.old (nums_in g gone.now) result es.new vs.new map.new }
{
    mark_gone(map, n, gone, g);
    compact_vertices(es, vs, n, m, map)
}
