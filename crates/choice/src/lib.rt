// The graph of the choice: what the first four steps of `cleanup_seq_graph` make of a graph. Zip, orphans, what is not connected to the
// reference, simplification.
#![tactic(auto)]

ghost use Rattle.std.specs.Prelude.{◌+◌, ◌<◌};
ghost use Rattle.defs.specs.SeqGraph.{Graph};
ghost use Rattle.defs.specs.Cleanup.{remove_singleton_orphan_vertices, remove_vertices_not_connected_to_ref};
ghost use Rattle.compact.specs.Compact.{Compactable};
ghost use Rattle.index.specs.Index.{Indexed};
ghost use Rattle.zip_linear_chains.specs.Zips.{ZippedAll};
ghost use Rattle.reach.specs.Reach.{Walkable};
ghost use Rattle.orphans.specs.Orphans.{Reduced};
ghost use Rattle.choice.specs.Choice.{fresh, Zippable, Cleanable, BeforeChoice};

use memory::{Held, Work};

// The index, and the opening zip.
fn zip_all(
    held: Held,
    es: &mut [u32],
    vs: &mut [u32],
    p: &mut [u8],
    heads: &mut [u32],
    nexts: &mut [u32],
    nodes: &mut [u32],
    map: &mut [u32],
    starts: &mut [u32],
) -> Work
    requires { Zippable held es.old vs.old p.old heads.old nexts.old nodes.old map.old starts.old }
    ensures { ZippedAll (fresh held) es.old vs.old p.old result es.new vs.new
        p.new heads.new nexts.new nodes.new map.new }
{
    index::build_index(es, held.m, held.n, heads, nexts);
    let work = Work { held, rewrites: 0 };
    zip_linear_chains::zip_linear_chains(work, es, vs, p, heads, nexts, nodes, map, starts)
}

// Lone vertices go, then what is not connected to the reference.
fn keep_connected(
    held: Held,
    es: &mut [u32],
    vs: &mut [u32],
    heads: &mut [u32],
    nexts: &mut [u32],
    nodes: &mut [u32],
    map: &mut [u32],
    tried: &mut [u8],
) -> Held
    requires { Compactable held.n held.m es.old vs.old map.old
        × (Indexed held.m held.n es.old heads.old nexts.old
        × (Walkable held.n tried.old nodes.old × (held.m < 4294967296))) }
    ensures { Reduced (λ (g : Graph). remove_vertices_not_connected_to_ref (remove_singleton_orphan_vertices g)) held es.old
        vs.old result es.new vs.new }
{
    let a = orphans::remove_singleton_orphan_vertices(held, es, vs, heads, nexts, map);
    index::build_index(es, a.m, a.n, heads, nexts);
    connected::remove_vertices_not_connected_to_ref(a, es, vs, heads, nexts, nodes, map, tried)
}

// The graph of the choice, and the rewrites that it took.
pub fn before_choice(
    held: Held,
    es: &mut [u32],
    vs: &mut [u32],
    p: &mut [u8],
    heads: &mut [u32],
    nexts: &mut [u32],
    nodes: &mut [u32],
    map: &mut [u32],
    starts: &mut [u32],
    tried: &mut [u8],
    sig: &mut [u32],
) -> Work
    requires { Cleanable held es.old vs.old p.old heads.old nexts.old nodes.old map.old starts.old tried.old sig.old }
    ensures { BeforeChoice held es.old vs.old p.old heads.old nexts.old result
        es.new vs.new p.new }
{
    let z = zip_all(held, es, vs, p, heads, nexts, nodes, map, starts);
    let a = keep_connected(z.held, es, vs, heads, nexts, nodes, map, tried);
    let s = rounds::simplify_graph_full(
        a,
        rounds::MIN_TAIL_SUFFIX_LEN,
        es,
        vs,
        p,
        heads,
        nexts,
        nodes,
        map,
        starts,
        tried,
        sig,
    );
    Work {
        held: s.held,
        rewrites: z.rewrites + s.rewrites,
    }
}
