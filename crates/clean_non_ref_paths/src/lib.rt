// clean_non_ref_paths: a record in, out the record of its graph without the paths to the reference source and from the reference sink
// that are no reference paths. Nothing is asked of the caller.
#![tactic(auto)]

ghost use Rattle.clean_non_ref_paths.specs.CleansPaths.{CleansPaths};

use calls::Answer;
use reading_calls::ReadingCall;

pub fn clean_non_ref_paths(rec: &[u8], out: &mut [u8], caller: u32) -> Answer
    ensures { CleansPaths rec.now out.old caller result out.new }
{
    reading_calls::answer(ReadingCall::CleanNonRefPaths, &[], rec, out, caller)
}
