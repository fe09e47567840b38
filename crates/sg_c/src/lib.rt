// The library for C: each public call under its C name, with the promise of the call of that name in `sg`, which it makes. include/seq_graph.h
// declares them.
#![tactic(auto)]

ghost use Rattle.vertex_sequence.specs.Handed.{Placed};
ghost use Rattle.sg.specs.OnTable.{ConvertsOn, SimplifiesOn, CleansOn, CleansPathsOn, TellsReferenceOn, TellsPathOn};

use calls::{Answer, CleanupAnswer, SimplifyAnswer};
use tallies::Tallies;
use vertex_sequence::SequencePlace;

#[unsafe(no_mangle)]
pub extern "C" fn sg_vertex_sequence(rec: &[u8], vertex: u32, number: &mut u32) -> SequencePlace
    ensures { Placed rec.now vertex number.new result }
{
    sg::sg_vertex_sequence(rec, vertex, number)
}

#[unsafe(no_mangle)]
pub extern "C" fn sg_from_assembly_graph(
    rec: &[u8],
    out: &mut [u8],
    caller: u32,
    table: &mut Tallies,
) -> Answer
    ensures { ConvertsOn rec.now out.old caller result out.new table.old table.new }
{
    sg::sg_from_assembly_graph(rec, out, caller, table)
}

#[unsafe(no_mangle)]
pub extern "C" fn sg_simplify_graph(
    rec: &[u8],
    out: &mut [u8],
    caller: u32,
    table: &mut Tallies,
) -> SimplifyAnswer
    ensures { SimplifiesOn rec.now out.old caller result out.new table.old table.new }
{
    sg::sg_simplify_graph(rec, out, caller, table)
}

#[unsafe(no_mangle)]
pub extern "C" fn sg_cleanup_seq_graph(
    rec: &[u8],
    out: &mut [u8],
    caller: u32,
    table: &mut Tallies,
) -> CleanupAnswer
    ensures { CleansOn rec.now out.old caller result out.new table.old table.new }
{
    sg::sg_cleanup_seq_graph(rec, out, caller, table)
}

#[unsafe(no_mangle)]
pub extern "C" fn sg_clean_non_ref_paths(
    rec: &[u8],
    out: &mut [u8],
    caller: u32,
    table: &mut Tallies,
) -> Answer
    ensures { CleansPathsOn rec.now out.old caller result out.new table.old table.new }
{
    sg::sg_clean_non_ref_paths(rec, out, caller, table)
}

#[unsafe(no_mangle)]
pub extern "C" fn sg_reference_path_bytes(
    rec: &[u8],
    out: &mut [u8],
    caller: u32,
    table: &mut Tallies,
) -> Answer
    ensures { TellsReferenceOn rec.now out.old caller result out.new table.old table.new }
{
    sg::sg_reference_path_bytes(rec, out, caller, table)
}

#[unsafe(no_mangle)]
pub extern "C" fn sg_path_bases_bytes(
    rec: &[u8],
    start: u32,
    edges: &[u32],
    out: &mut [u8],
    caller: u32,
    table: &mut Tallies,
) -> Answer
    ensures { TellsPathOn rec.now start edges.now out.old caller result out.new table.old
        table.new }
{
    sg::sg_path_bases_bytes(rec, start, edges, out, caller, table)
}
