// The string calls: the bytes of the reference path, and of a path along a list of edges. Nothing is asked of the caller.
#![tactic(auto)]

ghost use Rattle.std.specs.Prelude.{length};
ghost use Rattle.defs.specs.Calls.{reference_path_bytes_response, path_bases_bytes_response};
ghost use Rattle.string_calls.specs.TellsBytes.{TellsBytes};

use calls::Answer;
use reading_calls::ReadingCall;

// 10 where there is no reference path.
pub fn reference_path_bytes(rec: &[u8], out: &mut [u8], caller: u32) -> Answer
    ensures { TellsBytes rec.now (reference_path_bytes_response rec.now (length out.old) caller) out.old result out.new }
{
    reading_calls::answer(ReadingCall::ReferencePathBytes, &[], rec, out, caller)
}

// 9 where the start or the list of edges is no path.
pub fn path_bases_bytes(rec: &[u8], start: u32, list: &[u32], out: &mut [u8], caller: u32) -> Answer
    ensures { TellsBytes rec.now (path_bases_bytes_response rec.now start list.now (length out.old) caller)
        out.old result out.new }
{
    reading_calls::answer(ReadingCall::PathBasesBytes(start), list, rec, out, caller)
}
