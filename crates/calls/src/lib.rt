// What the public calls have in common: their result structs, and what is sent: the number of a refusal, or the record of a graph where it
// fits.
#![tactic(auto)]

ghost use Rattle.std.specs.Prelude.{◌≡◌, length};
ghost use Rattle.refusal.specs.Refusals.{number_of_refusal};
ghost use Rattle.defs.specs.Record.{sequence_graph, encode};
ghost use Rattle.form.specs.Coded.{form_is};
ghost use Rattle.memory.specs.Memory.{graph_of};
ghost use Rattle.calls.specs.Answers.{AnswersSimplify, AnswersCleanup};
ghost use Rattle.calls.specs.Sending.{fits, Sendable, Responds, GraphSendable, SendsGraph};

use form::Form;
use memory::Held;
use refusal::Refusal;

// What a call sends: 0 and the length of what it wrote, or the number of the refusal and 0. Of calls without more fields it is the answer.
#[derive(Clone, Copy)]
#[repr(C)]
pub struct Answer {
    pub number: u32,
    pub length: u32,
}

impl From<Refusal> for Answer {
    ghost from_gives = { λ refusal answer. answer ≡ record { number = number_of_refusal refusal; length = 0 } };

    fn from(refusal: Refusal) -> Answer {
        Answer {
            number: refusal.number(),
            length: 0,
        }
    }
}

#[derive(Clone, Copy)]
#[repr(C)]
pub struct SimplifyAnswer {
    pub number: u32,
    pub length: u32,
    pub rewrites: u32,
    pub rounds: u32,
    pub end: u32,
}

#[derive(Clone, Copy)]
#[repr(C)]
pub struct CleanupAnswer {
    pub number: u32,
    pub length: u32,
    pub status: u32,
}

// A cleanup's answer, and the rewrites, which are counted and not answered.
#[derive(Clone, Copy)]
pub struct CountedCleanup {
    pub answer: CleanupAnswer,
    pub rewrites: u32,
}

// When refused every field but the number is 0.
pub fn simplify_answer(sent: Answer, rewrites: u32, rounds: u32, end: u32) -> SimplifyAnswer
    ensures { AnswersSimplify sent rewrites rounds end result }
{
    let number = sent.number;
    if number != 0 {
        return SimplifyAnswer {
            number,
            length: 0,
            rewrites: 0,
            rounds: 0,
            end: 0,
        };
    }
    SimplifyAnswer {
        number: 0,
        length: sent.length,
        rewrites,
        rounds,
        end,
    }
}

pub fn cleanup_answer(sent: Answer, status: u32, made: u32) -> CountedCleanup
    ensures { AnswersCleanup sent status made result }
{
    let number = sent.number;
    if number != 0 {
        let refused = CleanupAnswer {
            number,
            length: 0,
            status: 0,
        };
        return CountedCleanup {
            answer: refused,
            rewrites: 0,
        };
    }
    let answer = CleanupAnswer {
        number: 0,
        length: sent.length,
        status,
    };
    CountedCleanup {
        answer,
        rewrites: made,
    }
}

// The record of a held graph, in this form, where it fits.
pub fn send_record(
    out: &mut [u8],
    form: Form,
    status: u32,
    held: Held,
    es: &[u32],
    vs: &[u32],
    p: &[u8],
) -> Answer
    requires { Sendable (form_is form) status held es.now vs.now p.now }
    ensures { Responds (fits (length out.old)
        (encode (form_is form) sequence_graph status (graph_of held es.now vs.now p.now))) out.old result out.new }
{
    let length = write_record::record_length(form, held, vs);
    if out.len() < length {
        return Answer::from(Refusal::NoRoom);
    }
    let written = write_record::write_record(out, form, status, held, es, vs, p);
    Answer {
        number: 0,
        length: written as u32,
    }
}

// What was made of a record: its graph, which the slices hold, or the number of its refusal. It takes every number, also one that none of the
// library's refusals has.
pub fn send(
    made: Result<Held, u32>,
    form: Form,
    status: u32,
    out: &mut [u8],
    es: &[u32],
    vs: &[u32],
    p: &[u8],
) -> Answer
    requires { GraphSendable (form_is form) status made es.now vs.now p.now }
    ensures { SendsGraph (form_is form) status made es.now vs.now p.now out.old result out.new }
{
    match made {
        Ok(held) => send_record(out, form, status, held, es, vs, p),
        Err(number) => Answer { number, length: 0 },
    }
}
