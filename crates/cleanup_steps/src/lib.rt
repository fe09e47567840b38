// Cleanup (`cleanup_seq_graph`): the graph of the choice, and of it what lies on a path from the first reference source to the first
// reference sink, simplified.
#![tactic(auto)]

ghost use Rattle.std.specs.Prelude.{◌≡◌, ◌+◌, ◌<◌};
ghost use Rattle.std.proofs.Math.Option.{some};
ghost use Rattle.defs.specs.Cleanup.{reference_source_vertex, reference_sink_vertex};
ghost use Rattle.index.specs.Index.{Indexed};
ghost use Rattle.memory.specs.Memory.{graph_of, Countable};
ghost use Rattle.refs.specs.Refs.{FirstSource, FirstSink};
ghost use Rattle.choice.specs.Choice.{Cleanable};
ghost use Rattle.cleanup_steps.specs.CleanUp.{uncleaned, After, CleanUp};

use memory::{Held, Work};

// How a cleanup ended, as the Rust's enum has it.
#[derive(Clone, Copy)]
pub enum SeqGraphCleanupStatus {
    AssembledSomeVariation,
    JustAssembledReference,
}

// The cleaned graph, its status, and the rewrites made.
#[derive(Clone, Copy)]
pub struct CleanedUp {
    pub held: Held,
    pub status: SeqGraphCleanupStatus,
    pub rewrites: u32,
}

// Without a source or a sink the graph of the choice is the answer.
fn just_reference(w: Work) -> CleanedUp
    ensures { result ≡ uncleaned w }
{
    CleanedUp {
        held: w.held,
        status: SeqGraphCleanupStatus::JustAssembledReference,
        rewrites: w.rewrites,
    }
}

// What lies on a path from s to t, simplified; a single vertex gains an empty second one.
fn keep_between(
    work: Work,
    s: usize,
    t: usize,
    es: &mut [u32],
    vs: &mut [u32],
    p: &mut [u8],
    heads: &mut [u32],
    nexts: &mut [u32],
    nodes: &mut [u32],
    map: &mut [u32],
    starts: &mut [u32],
    tried: &mut [u8],
    sig: &mut [u32],
) -> CleanedUp
    requires { Cleanable work.held es.old vs.old p.old heads.old nexts.old nodes.old map.old starts.old tried.old
        sig.old × (Indexed work.held.m work.held.n es.old heads.old nexts.old
        × (Countable 202 work.rewrites heads.old × ((s < work.held.n) × (t < work.held.n)))) }
    ensures { After work (some s) (some t) es.old vs.old p.old heads.old
        nexts.old result es.new vs.new p.new }
{
    let b = connected::remove_paths_not_connected_to_ref(
        work.held, s, t, es, vs, heads, nexts, nodes, map, tried,
    );
    let z = rounds::simplify_graph_full(
        b,
        rounds::MIN_TAIL_SUFFIX_LEN,
        es,
        vs,
        p,
        heads,
        nexts,
        nodes,
        map,
        starts,
        tried,
        sig,
    );
    CleanedUp {
        held: dummy_vertex::add_dummy_vertex(z.held, es, vs),
        status: SeqGraphCleanupStatus::AssembledSomeVariation,
        rewrites: work.rewrites + z.rewrites,
    }
}

// The source and the sink are chosen.
fn after_choice(
    work: Work,
    source: Option<usize>,
    sink: Option<usize>,
    es: &mut [u32],
    vs: &mut [u32],
    p: &mut [u8],
    heads: &mut [u32],
    nexts: &mut [u32],
    nodes: &mut [u32],
    map: &mut [u32],
    starts: &mut [u32],
    tried: &mut [u8],
    sig: &mut [u32],
) -> CleanedUp
    requires { Cleanable work.held es.old vs.old p.old heads.old nexts.old nodes.old map.old starts.old tried.old
        sig.old × (Indexed work.held.m work.held.n es.old heads.old nexts.old
        × (Countable 202 work.rewrites heads.old × (FirstSource work.held.m work.held.n es.old source
        × FirstSink work.held.m work.held.n es.old sink))) }
    ensures { After work (reference_source_vertex (graph_of work.held es.old vs.old p.old))
        (reference_sink_vertex (graph_of work.held es.old vs.old p.old)) es.old
        vs.old p.old heads.old nexts.old result es.new vs.new p.new }
{
    let Some(s) = source else {
        return just_reference(work);
    };
    let Some(t) = sink else {
        return just_reference(work);
    };
    keep_between(
        work, s, t, es, vs, p, heads, nexts, nodes, map, starts, tried, sig,
    )
}

pub fn cleanup_seq_graph(
    held: Held,
    es: &mut [u32],
    vs: &mut [u32],
    p: &mut [u8],
    heads: &mut [u32],
    nexts: &mut [u32],
    nodes: &mut [u32],
    map: &mut [u32],
    starts: &mut [u32],
    tried: &mut [u8],
    sig: &mut [u32],
) -> CleanedUp
    requires { Cleanable held es.old vs.old p.old heads.old nexts.old nodes.old map.old starts.old tried.old sig.old }
    ensures { CleanUp held es.old vs.old p.old heads.old nexts.old result
        es.new vs.new p.new }
{
    let w = choice::before_choice(
        held, es, vs, p, heads, nexts, nodes, map, starts, tried, sig,
    );
    let m = w.held.m;
    let n = w.held.n;
    index::build_index(es, m, n, heads, nexts);
    let source = refs::reference_source_vertex(es, m, n, heads, nexts);
    let sink = refs::reference_sink_vertex(es, m, n, heads, nexts);
    after_choice(
        w, source, sink, es, vs, p, heads, nexts, nodes, map, starts, tried, sig,
    )
}
