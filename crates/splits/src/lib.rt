// Splits: each vertex is tried once in a round; the marks of tried vertices follow their vertices through a rewrite.
#![tactic(auto)]

ghost use Rattle.std.specs.Prelude.{◌≡◌, ℕ, ◌+◌, ◌*◌, ◌<◌, ◌≤◌, length, get_or};
ghost use Rattle.memory.specs.Memory.{graph_of, vertex_room, Ready, Counted};
ghost use Rattle.splits.specs.Splits.{Movable, MarksMoved, Remarked, SplitFirst, SplitAll};

use memory::{Held, Work};

// The marks of the vertices that stay close up; how many these are.
fn move_marks(tried: &mut [u8], n: usize, map: &[u32]) -> usize
    requires { Movable tried.old n map.now }
    ensures { MarksMoved tried.old n map.now result tried.new }
{
    let mut j = 0;
    for v in 0..n {
        if map[v] != 0 {
            tried[j] = tried[v];
            j += 1;
        }
    }
    j
}

// The split at v, and the marks under the new numbers.
fn split_at(
    held: Held,
    es: &mut [u32],
    vs: &mut [u32],
    p: &[u8],
    heads: &[u32],
    nexts: &[u32],
    nodes: &mut [u32],
    map: &mut [u32],
    tried: &mut [u8],
    v: usize,
) -> Option<Held>
    requires { Ready 4 held es.old vs.old p.now heads.now nexts.now nodes.old map.old
        × ((v < held.n) × (vertex_room heads.now ≤ length tried.old)) }
    ensures { Remarked held es.old vs.old p.now heads.now nexts.now
        tried.old v result es.new vs.new tried.new }
{
    let h = split_suffix::try_split_common_suffix(held, es, vs, p, heads, nexts, nodes, map, v)?;
    let kept = move_marks(tried, held.n, map);
    compact::clear_marks(tried, kept, h.n);
    Some(h)
}

// The split at the first vertex that is not marked and allows it; each vertex that is tried on the way is marked.
fn first_split(
    held: Held,
    es: &mut [u32],
    vs: &mut [u32],
    p: &[u8],
    heads: &[u32],
    nexts: &[u32],
    nodes: &mut [u32],
    map: &mut [u32],
    tried: &mut [u8],
) -> Option<Held>
    requires { Ready 4 held es.old vs.old p.now heads.now nexts.now nodes.old map.old × (vertex_room heads.now ≤ length tried.old) }
    ensures { SplitFirst held es.old vs.old p.now heads.now nexts.now
        tried.old result es.new vs.new tried.new }
{
    for v in 0..held.n {
        if tried[v] == 0 {
            tried[v] = 1;
            if let Some(h) = split_at(held, es, vs, p, heads, nexts, nodes, map, tried, v) {
                return Some(h);
            }
        }
    }
    None
}

// Splits until no vertex that was not tried allows one.
pub fn split_until_complete(
    work: Work,
    es: &mut [u32],
    vs: &mut [u32],
    p: &[u8],
    heads: &mut [u32],
    nexts: &mut [u32],
    nodes: &mut [u32],
    map: &mut [u32],
    tried: &mut [u8],
) -> Work
    requires { Ready 4 work.held es.old vs.old p.now heads.old nexts.old nodes.old map.old
        × (Counted work.rewrites heads.old × (vertex_room heads.old ≤ length tried.old)) }
    ensures { SplitAll work es.old vs.old p.now result es.new vs.new
        heads.new nexts.new nodes.new map.new }
{
    compact::clear_marks(tried, 0, work.held.n);
    let mut w = work;
    while let Some(held) = first_split(w.held, es, vs, p, heads, nexts, nodes, map, tried) {
        index::build_index(es, held.m, held.n, heads, nexts);
        w = Work {
            held,
            rewrites: w.rewrites + 1,
        };
    }
    w
}
