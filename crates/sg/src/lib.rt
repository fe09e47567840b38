// Each public call under its C name, with the promise of the call itself and of the table of tallies. All but `sg_vertex_sequence` are their
// core, which does the work, and then `tallies::count_call`. `sg_c` exports them to C.
#![tactic(auto)]

ghost use Rattle.vertex_sequence.specs.Handed.{Placed};
ghost use Rattle.sg.specs.OnTable.{ConvertsOn, SimplifiesOn, CleansOn, CleansPathsOn, TellsReferenceOn, TellsPathOn};

use calls::{Answer, CleanupAnswer, SimplifyAnswer};
use tallies::Tallies;
use vertex_sequence::SequencePlace;

pub fn sg_vertex_sequence(rec: &[u8], vertex: u32, number: &mut u32) -> SequencePlace
    ensures { Placed rec.now vertex number.new result }
{
    vertex_sequence::vertex_sequence_place(rec, vertex, number)
}

pub fn sg_from_assembly_graph(
    rec: &[u8],
    out: &mut [u8],
    caller: u32,
    table: &mut Tallies,
) -> Answer
    ensures { ConvertsOn rec.now out.old caller result out.new table.old table.new }
{
    let r = from_assembly_graph::from_assembly_graph(rec, out, caller);
    tallies::count_call(table, caller, r.number, 0);
    r
}

pub fn sg_simplify_graph(
    rec: &[u8],
    out: &mut [u8],
    caller: u32,
    table: &mut Tallies,
) -> SimplifyAnswer
    ensures { SimplifiesOn rec.now out.old caller result out.new table.old table.new }
{
    let r = simplify_graph::simplify_graph(rec, out, caller);
    tallies::count_call(table, caller, r.number, r.rewrites);
    r
}

// The rewrites are counted and not answered.
pub fn sg_cleanup_seq_graph(
    rec: &[u8],
    out: &mut [u8],
    caller: u32,
    table: &mut Tallies,
) -> CleanupAnswer
    ensures { CleansOn rec.now out.old caller result out.new table.old table.new }
{
    let r = cleanup_seq_graph::cleanup_seq_graph(rec, out, caller);
    tallies::count_call(table, caller, r.answer.number, r.rewrites);
    r.answer
}

pub fn sg_clean_non_ref_paths(
    rec: &[u8],
    out: &mut [u8],
    caller: u32,
    table: &mut Tallies,
) -> Answer
    ensures { CleansPathsOn rec.now out.old caller result out.new table.old table.new }
{
    let r = clean_non_ref_paths::clean_non_ref_paths(rec, out, caller);
    tallies::count_call(table, caller, r.number, 0);
    r
}

pub fn sg_reference_path_bytes(
    rec: &[u8],
    out: &mut [u8],
    caller: u32,
    table: &mut Tallies,
) -> Answer
    ensures { TellsReferenceOn rec.now out.old caller result out.new table.old table.new }
{
    let r = string_calls::reference_path_bytes(rec, out, caller);
    tallies::count_call(table, caller, r.number, 0);
    r
}

pub fn sg_path_bases_bytes(
    rec: &[u8],
    start: u32,
    edges: &[u32],
    out: &mut [u8],
    caller: u32,
    table: &mut Tallies,
) -> Answer
    ensures { TellsPathOn rec.now start edges.now out.old caller result out.new table.old
        table.new }
{
    let r = string_calls::path_bases_bytes(rec, start, edges, out, caller);
    tallies::count_call(table, caller, r.number, 0);
    r
}
