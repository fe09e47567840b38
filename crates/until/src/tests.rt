// A kind that no vertex alone allows may be handed to what takes a `Transform`, and nothing is done.
ghost use Rattle.defs.specs.Simplify.{zip};

use crate::{Transform, first_at, transform_until_complete};
use memory::{Held, Work};
use std::test::Fail;

struct Zips;

impl Transform for Zips {
    ghost kind = { zip };

    fn try_at(
        least: usize,
        held: Held,
        es: &mut [u32],
        vs: &mut [u32],
        p: &mut [u8],
        heads: &[u32],
        nexts: &[u32],
        nodes: &mut [u32],
        map: &mut [u32],
        v: usize,
    ) -> Option<Held> {
        None
    }
}

// One vertex, whose sequence is empty, and no edge; 7 rewrites made before.
#[test]
fn zips_leave_a_vertex_as_it_is(rt: HostRuntime) -> Result<(), Fail> {
    let mut es = [0u32; 8];
    let mut vs = [0u32; 4];
    let mut p = [0u8; 3];
    let mut heads = [0u32; 2];
    let mut nexts = [0u32; 2];
    let mut nodes = [0u32; 1];
    let mut map = [0u32; 2];
    let held = Held {
        k: kmer::kmer_size(10).ok_or("10 is a size")?,
        n: 1,
        m: 0,
        used: 0,
    };
    index::build_index(&es, 0, 1, &mut heads, &mut nexts);
    let work = Work { held, rewrites: 7 };
    let done = transform_until_complete::<Zips>(
        4, work, &mut es, &mut vs, &mut p, &mut heads, &mut nexts, &mut nodes, &mut map,
    );
    assert_eq!(rt; done.rewrites, 7);
    assert_eq!(rt; done.held.n, 1);
    let tried = first_at::<Zips>(
        4, done.held, &mut es, &mut vs, &mut p, &heads, &nexts, &mut nodes, &mut map,
    );
    assert!(rt; tried.is_none());
    Ok(())
}
