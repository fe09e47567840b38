// Makes the call of a stored case: its core, and then the table by value. The call under its C name is these two.
use crate::expected::{BEFORE, Got, same_answer, same_output, word};
use crate::table::same_table;
use calls::{Answer, CountedCleanup, SimplifyAnswer};

// What a case came to.
#[derive(Clone, Copy)]
pub enum Outcome {
    Answered,
    Refused,
    Differs,
}

fn plain(r: Answer) -> Got {
    Got {
        number: r.number,
        length: r.length,
        ..Got::default()
    }
}

fn simplified(r: SimplifyAnswer) -> Got {
    Got {
        number: r.number,
        length: r.length,
        field1: r.rewrites,
        field2: r.rounds,
        field3: r.end,
        rewrites: r.rewrites,
    }
}

fn cleaned(r: CountedCleanup) -> Got {
    let a = r.answer;
    Got {
        number: a.number,
        length: a.length,
        field1: a.status,
        rewrites: r.rewrites,
        ..Got::default()
    }
}

// The core of the call of that number; a number that no case has where there is no such call.
fn call(call: u32, start: u32, rec: &[u8], list: &[u32], out: &mut [u8], caller: u32) -> Got {
    match call {
        1 => plain(from_assembly_graph::from_assembly_graph(rec, out, caller)),
        2 => simplified(simplify_graph::simplify_graph(rec, out, caller)),
        3 => cleaned(cleanup_seq_graph::cleanup_seq_graph(rec, out, caller)),
        4 => plain(clean_non_ref_paths::clean_non_ref_paths(rec, out, caller)),
        5 => plain(string_calls::reference_path_bytes(rec, out, caller)),
        6 => plain(string_calls::path_bases_bytes(rec, start, list, out, caller)),
        _ => Got {
            number: u32::MAX,
            ..Got::default()
        },
    }
}

fn accepted(number: u32) -> Outcome {
    match number {
        0 => Outcome::Answered,
        _ => Outcome::Refused,
    }
}

fn compare(case: &[u8], got: Got, out: &[u8], expected: &[u8]) -> Outcome {
    if same_table(case, got.number, got.rewrites)
        && same_answer(case, got)
        && same_output(out, expected)
    {
        accepted(got.number)
    } else {
        Outcome::Differs
    }
}

// Whether this part of the record is handed back, and not another number than that one.
fn same_part(vertex: u32, rec: &[u8], expected: &[u8], number: u32) -> bool {
    let mut told = 0;
    let part = vertex_sequence::vertex_sequence(rec, vertex, &mut told);
    told == number && part == expected
}

// A vertex's sequence, as a place for C and as a part of the record.
fn run_vertex(case: &[u8], rec: &[u8], expected: &[u8]) -> Outcome {
    let mut number = 0;
    let place = sg::sg_vertex_sequence(rec, word(case, 1), &mut number);
    let got = Got {
        number,
        length: place.length,
        field1: place.offset,
        ..Got::default()
    };
    if same_answer(case, got) && same_part(word(case, 1), rec, expected, number) {
        accepted(number)
    } else {
        Outcome::Differs
    }
}

// Makes the call with as much of list and room of out as the case says, and compares all that it answers and writes.
fn run_in(case: &[u8], rec: &[u8], list: &[u32], expected: &[u8], out: &mut [u8]) -> Outcome {
    let count = word(case, 16) as usize;
    let room = word(case, 2) as usize;
    if list.len() < count || out.len() < room {
        return Outcome::Differs;
    }
    let got = call(
        word(case, 0),
        word(case, 1),
        rec,
        &list[..count],
        &mut out[..room],
        word(case, 3),
    );
    compare(case, got, out, expected)
}

// The numbers of four bytes each, as many as the list has room for.
fn read_list(bytes: &[u8], list: &mut [u32]) {
    for (place, word) in list.iter_mut().zip(bytes.chunks_exact(4)) {
        *place = le::u32_at(word, 0);
    }
}

// Room for the list and for the output of every stored case.
const LIST_MOST: usize = 16384;

const OUT_MOST: usize = 65536;

fn run(case: &[u8], rec: &[u8], numbers: &[u8], expected: &[u8]) -> Outcome {
    if word(case, 0) == 0 {
        return run_vertex(case, rec, expected);
    }
    let mut list = [0u32; LIST_MOST];
    read_list(numbers, &mut list);
    let mut out = [BEFORE; OUT_MOST];
    run_in(case, rec, &list, expected, &mut out)
}

// Takes a case apart: 18 numbers, the record, the list's numbers, the output's bytes.
pub fn replay(case: &[u8]) -> Outcome {
    if case.len() < 72 {
        return Outcome::Differs;
    }
    let rest = case.len() - 72;
    let length = word(case, 15) as usize;
    if rest < length {
        return Outcome::Differs;
    }
    let record_end = 72 + length;
    let count = word(case, 16) as usize;
    if (rest - length) / 4 < count {
        return Outcome::Differs;
    }
    let list_end = record_end + 4 * count;
    run(
        case,
        &case[72..record_end],
        &case[record_end..list_end],
        &case[list_end..],
    )
}
