// A graph held in slices, and the room that its rewrites need.
#![tactic(auto)]

use kmer::KmerSize;

// What stands beside the slices: the k-mer size, the numbers of vertices and edges, and how many bytes of the pool are in use.
#[derive(Clone, Copy)]
pub struct Held {
    pub k: KmerSize,
    pub n: usize,
    pub m: usize,
    pub used: usize,
}

// A graph and the number of rewrites made so far.
#[derive(Clone, Copy)]
pub struct Work {
    pub held: Held,
    pub rewrites: u32,
}
