// Reading a record of kind 1: its refusal, of number 1 to 7, or the graph in the slices, its sequences in the record itself.
#![tactic(auto)]

ghost use Rattle.accept.specs.Accept.{RoomToRead, ReadAs};

use memory::Held;
use record::Takes;
use refusal::Refusal;

// The graph, which the slices then hold, or why there is none.
pub fn read_sequence_graph(
    rec: &[u8],
    es: &mut [u32],
    vs: &mut [u32],
    heads: &mut [u32],
    nexts: &mut [u32],
    nodes: &mut [u32],
    map: &mut [u32],
) -> Result<Held, Refusal>
    requires { RoomToRead rec.now es.old vs.old heads.old nexts.old nodes.old map.old }
    ensures { ReadAs rec.now result es.new vs.new }
{
    let k = record::check_layout(rec, Takes::SequenceOnly)?;
    let held = load::load_graph(rec, k, es, vs);
    let Held { n, m, .. } = held;
    index::build_index(es, m, n, heads, nexts);
    if doubled::doubled_edge(es, m, n, heads, nexts, map) {
        return Err(Refusal::Doubled);
    }
    if cycle::has_cycle(es, m, n, heads, nexts, map, nodes) {
        return Err(Refusal::HasCycle);
    }
    Ok(held)
}
