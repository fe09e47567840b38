// simplify_graph: a record in, its simplification's record out. Nothing is asked of the caller.
#![tactic(auto)]

ghost use Rattle.simplify_graph.specs.Simplifies.{Simplifies};

use calls::SimplifyAnswer;
use rewriting::RewritingCall;

pub fn simplify_graph(rec: &[u8], out: &mut [u8], caller: u32) -> SimplifyAnswer
    ensures { Simplifies rec.now out.old caller result out.new }
{
    let r = rewriting_calls::answer(RewritingCall::SimplifyGraph, rec, out, caller);
    calls::simplify_answer(r.sent, r.rewrites, r.rounds, r.end)
}
