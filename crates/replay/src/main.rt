// Replays the stored cases of each call of the library and prints how many there are. data/ has a file for each call;
// tools/make_vectors.py writes them and sets out their layout.
#![tactic(auto)]

mod expected;
mod run;
mod table;

use run::{Outcome, replay};
use std::fs::File;
use std::io;
use std::io::Read;
use std::rt::Files;

#[derive(Clone, Copy, Default)]
pub struct Counts {
    pub cases: u32,
    pub refused: u32,
    pub differ: u32,
}

fn replay_part(buf: &[u8], n: usize) -> Outcome {
    match buf.get(..n) {
        Some(case) => replay(case),
        None => Outcome::Differs,
    }
}

// No case is longer.
const CASE_MOST: usize = 65536;

// The number that begins a case, as far as the file goes; bytes that are missing count as 0.
fn case_len(file: &[u8]) -> usize {
    let mut head = [0u8; 4];
    for (place, byte) in head.iter_mut().zip(file) {
        *place = *byte;
    }
    le::u32_at(&head, 0) as usize
}

// Replays the case at the front, if there is one, and says what stands behind it. A case that is too long or cut short differs.
fn one_case(file: &[u8]) -> Option<(Outcome, &[u8])> {
    if file.is_empty() {
        return None;
    }
    let n = case_len(file);
    let rest = file.get(4..).unwrap_or(&[]);
    if CASE_MOST < n {
        return Some((Outcome::Differs, rest));
    }
    Some((replay_part(rest, n), rest.get(n..).unwrap_or(&[])))
}

fn report(rt: &impl Print, n: u32) -> io::Result<()> {
    println!(rt; "case {n} differs")
}

fn add(c: Counts, d: Counts) -> Counts {
    Counts {
        cases: c.cases.saturating_add(d.cases),
        refused: c.refused.saturating_add(d.refused),
        differ: c.differ.saturating_add(d.differ),
    }
}

fn counted(c: Counts, refused: u32, differ: u32) -> Counts {
    add(
        c,
        Counts {
            cases: 1,
            refused,
            differ,
        },
    )
}

fn count(rt: &impl Print, c: Counts, outcome: Outcome) -> io::Result<Counts> {
    match outcome {
        Outcome::Answered => Ok(counted(c, 0, 0)),
        Outcome::Refused => Ok(counted(c, 1, 0)),
        Outcome::Differs => {
            report(rt, c.cases)?;
            Ok(counted(c, 0, 1))
        }
    }
}

// More cases than a file has.
const CASES_MOST: u32 = 1000000;

// The cases of one file.
fn all_cases(rt: &impl Print, file: &[u8]) -> io::Result<Counts> {
    let mut c = Counts::default();
    let mut left = file;
    for _ in 0..CASES_MOST {
        let Some((outcome, rest)) = one_case(left) else {
            return Ok(c);
        };
        c = count(rt, c, outcome)?;
        left = rest;
    }
    Ok(c)
}

fn print_count(rt: &impl Print, n: u32, what: &str) -> io::Result<()> {
    print!(rt; "{n}{what}")
}

// Replays one file; a file that is missing has no case.
fn replay_file(
    rt: &(impl Files + Alloc + Print + Eprint),
    path: &str,
    name: &str,
    before: Counts,
) -> io::Result<Counts> {
    let mut file = match File::open(rt, path) {
        Ok(file) => file,
        Err(e) => {
            eprintln!(rt; "{path}: {e}")?;
            return Ok(before);
        }
    };
    let mut bytes = Vec::new(rt.alloc());
    file.read_to_end(&mut bytes)?;
    let here = all_cases(rt, &bytes)?;
    print_count(rt, here.cases, name)?;
    Ok(add(before, here))
}

fn print_sum(rt: &impl Print, c: Counts) -> io::Result<()> {
    print_count(rt, c.cases, " cases, ")?;
    print_count(rt, c.refused, " refused, ")?;
    print_count(rt, c.differ, " differ\n")
}

fn main(rt: HostRuntime) -> io::Result<()> {
    let files = [
        ("vertex_sequence.bin", " vertex_sequence, "),
        ("from_assembly_graph.bin", " from_assembly_graph, "),
        ("simplify_graph.bin", " simplify_graph, "),
        ("cleanup_seq_graph.bin", " cleanup_seq_graph, "),
        ("clean_non_ref_paths.bin", " clean_non_ref_paths, "),
        ("reference_path_bytes.bin", " reference_path_bytes, "),
        ("path_bases_bytes.bin", " path_bases_bytes; "),
    ];
    let mut sum = Counts::default();
    for (path, name) in files {
        sum = replay_file(&rt, path, name, sum)?;
    }
    print_sum(&rt, sum)
}
