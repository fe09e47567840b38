// A k-mer size is its own kind of number, as `KmerSize` of `bio_ids.rs` is.
#![tactic(auto)]

ghost use Rattle.std.specs.Prelude.{◌≡◌};
ghost use Rattle.kmer.specs.Size.{size_of};

// The limits of a k-mer's size.
pub const LEAST_SIZE: u16 = 2;

pub const MOST_SIZE: u16 = 128;

// A k-mer size, 2 to 128. Its number is private here, and `kmer_size` alone makes one, behind the check.
#[derive(Clone, Copy)]
pub struct KmerSize(u16);

pub fn kmer_size(n: u16) -> Option<KmerSize>
    ensures { result ≡ size_of n }
{
    if n < LEAST_SIZE || MOST_SIZE < n {
        return None;
    }
    Some(KmerSize(n))
}

pub fn value(k: KmerSize) -> u16
    ensures { result ≡ k.0 }
{
    k.0
}
