// A rewrite at the first vertex that allows it, and until no vertex allows it.
#![tactic(auto)]

ghost use Rattle.std.specs.Prelude.{◌≡◌, refl, true, ℕ, ◌+◌, ◌*◌, ◌<◌, ◌≤◌, length};
ghost use Rattle.defs.specs.SeqGraph.{node_count};
ghost use Rattle.defs.specs.Simplify.{RewriteKind, diamond, tails, merge, rewrite_kind_number, first_at};
ghost use Rattle.memory.specs.Memory.{graph_of, Ready, Counted, Left};
ghost use Rattle.until.specs.Until.{rewrite_of, is_transform, Completed};

use memory::{Held, Work};

// A kind of rewrite, tried at a vertex.
pub trait Transform {
    ghost kind: { RewriteKind };

    // The rewrite at v.
    fn try_at(
        least: usize,
        held: Held,
        es: &mut [u32],
        vs: &mut [u32],
        p: &mut [u8],
        heads: &[u32],
        nexts: &[u32],
        nodes: &mut [u32],
        map: &mut [u32],
        v: usize,
    ) -> Option<Held>
        requires { Ready least held es.old vs.old p.old heads.now nexts.now nodes.old map.old × (v < held.n) }
        ensures { Left (rewrite_of kind least (graph_of held es.old vs.old p.old) v) es.old
            vs.old p.old heads.now nexts.now result es.new vs.new p.new };
}

// A kind that a vertex alone allows. Zips take whole chains, and splits have marks.
pub trait VertexTransform: Transform {
    // The number that the method gives the kind.
    fn number() -> u32
        ensures { result ≡ rewrite_kind_number Self.kind };

    // What each `impl` must prove: a vertex alone allows the kind, which is diamond, tails or merge.
    ghost allowed: { is_transform Self.kind ≡ true };
}

pub struct Diamonds;

impl Transform for Diamonds {
    ghost kind = { diamond };

    fn try_at(
        least: usize,
        held: Held,
        es: &mut [u32],
        vs: &mut [u32],
        p: &mut [u8],
        heads: &[u32],
        nexts: &[u32],
        nodes: &mut [u32],
        map: &mut [u32],
        v: usize,
    ) -> Option<Held> {
        merge_diamond::try_merge_diamond(held, es, vs, p, heads, nexts, nodes, map, v as u32)
    }
}

impl VertexTransform for Diamonds {
    ghost allowed = { refl };

    fn number() -> u32 {
        1
    }
}

pub struct Tails;

impl Transform for Tails {
    ghost kind = { tails };

    fn try_at(
        least: usize,
        held: Held,
        es: &mut [u32],
        vs: &mut [u32],
        p: &mut [u8],
        heads: &[u32],
        nexts: &[u32],
        nodes: &mut [u32],
        map: &mut [u32],
        v: usize,
    ) -> Option<Held> {
        merge_diamond::try_merge_tails(held, es, vs, p, heads, nexts, nodes, map, v as u32, least)
    }
}

impl VertexTransform for Tails {
    ghost allowed = { refl };

    fn number() -> u32 {
        2
    }
}

pub struct Merges;

impl Transform for Merges {
    ghost kind = { merge };

    fn try_at(
        least: usize,
        held: Held,
        es: &mut [u32],
        vs: &mut [u32],
        p: &mut [u8],
        heads: &[u32],
        nexts: &[u32],
        nodes: &mut [u32],
        map: &mut [u32],
        v: usize,
    ) -> Option<Held> {
        merge_suffices::try_merge_common_suffices(held, es, vs, p, heads, nexts, nodes, map, v)
    }
}

impl VertexTransform for Merges {
    ghost allowed = { refl };

    fn number() -> u32 {
        4
    }
}

// The rewrite at the first vertex that allows it.
pub fn first_at<T: Transform>(
    least: usize,
    held: Held,
    es: &mut [u32],
    vs: &mut [u32],
    p: &mut [u8],
    heads: &[u32],
    nexts: &[u32],
    nodes: &mut [u32],
    map: &mut [u32],
) -> Option<Held>
    requires { Ready least held es.old vs.old p.old heads.now nexts.now nodes.old map.old }
    ensures { Left (first_at (rewrite_of T.kind least (graph_of held es.old vs.old p.old)) 0 held.n)
        es.old vs.old p.old heads.now nexts.now result es.new vs.new p.new }
{
    for v in 0..held.n {
        if let Some(h) = T::try_at(least, held, es, vs, p, heads, nexts, nodes, map, v) {
            return Some(h);
        }
    }
    None
}

// The rewrite until no vertex allows it, from vertex 0 again after each success.
pub fn transform_until_complete<T: Transform>(
    least: usize,
    work: Work,
    es: &mut [u32],
    vs: &mut [u32],
    p: &mut [u8],
    heads: &mut [u32],
    nexts: &mut [u32],
    nodes: &mut [u32],
    map: &mut [u32],
) -> Work
    requires { Ready least work.held es.old vs.old p.old heads.old nexts.old nodes.old map.old
        × Counted work.rewrites heads.old }
    ensures { Completed T.kind least work es.old vs.old p.old result es.new vs.new
        p.new heads.new nexts.new nodes.new map.new }
{
    let mut w = work;
    while let Some(held) = first_at::<T>(least, w.held, es, vs, p, heads, nexts, nodes, map) {
        index::build_index(es, held.m, held.n, heads, nexts);
        w = Work {
            held,
            rewrites: w.rewrites + 1,
        };
    }
    w
}

// The same of a kind that a vertex alone allows: no other can be handed over.
pub fn vertex_transform_until_complete<T: VertexTransform>(
    least: usize,
    work: Work,
    es: &mut [u32],
    vs: &mut [u32],
    p: &mut [u8],
    heads: &mut [u32],
    nexts: &mut [u32],
    nodes: &mut [u32],
    map: &mut [u32],
) -> Work
    requires { Ready least work.held es.old vs.old p.old heads.old nexts.old nodes.old map.old
        × Counted work.rewrites heads.old }
    ensures { Completed T.kind least work es.old vs.old p.old result es.new vs.new
        p.new heads.new nexts.new nodes.new map.new }
{
    transform_until_complete::<T>(least, work, es, vs, p, heads, nexts, nodes, map)
}

#[cfg(test)]
mod tests;
