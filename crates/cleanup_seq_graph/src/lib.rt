// cleanup_seq_graph: a record in, its cleanup's record out, and the rewrites for the caller's tally. Nothing is asked of the caller.
#![tactic(auto)]

ghost use Rattle.cleanup_seq_graph.specs.Cleans.{CleansCounted};

use calls::CountedCleanup;
use rewriting::RewritingCall;

pub fn cleanup_seq_graph(rec: &[u8], out: &mut [u8], caller: u32) -> CountedCleanup
    ensures { CleansCounted rec.now out.old caller result out.new }
{
    let r = rewriting_calls::answer(RewritingCall::CleanupSeqGraph, rec, out, caller);
    calls::cleanup_answer(r.sent, r.status, r.rewrites)
}
