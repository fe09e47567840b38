// The bytes of the sequences: comparing and copying within the pool, and packing it.
#![tactic(auto)]

ghost use Rattle.std.specs.Prelude.{◌≡◌, ℕ, ◌+◌, ◌*◌, ◌<◌, ◌≤◌, length, get_or};
ghost use Rattle.defs.specs.Lists.{same_list};
ghost use Rattle.store.specs.Store.{part};
ghost use Rattle.pool.specs.Pool.{Apart, Moved, Packable, Packed};

// Whether n bytes from a on are those from b on.
pub fn same_part(p: &[u8], a: usize, b: usize, n: usize) -> bool
    requires { (a + n ≤ length p.now) × (b + n ≤ length p.now) }
    ensures { result ≡ same_list (part p.now a n) (part p.now b n) }
{
    p[a..a + n] == p[b..b + n]
}

// Copies n bytes from `from` on to `to` on. The two parts do not overlap.
pub fn copy_within(p: &mut [u8], to: usize, from: usize, n: usize)
    requires { Apart p.old to from n }
    ensures { Moved p.old to from n p.new }
{
    for i in 0..n {
        p[to + i] = p[from + i];
    }
}

// Copies the sequences of n vertices, in order, to `base` on, and notes where each then starts behind `base`; how many bytes they are.
fn gather(vs: &mut [u32], n: usize, p: &mut [u8], base: usize) -> usize
    requires { Packable n vs.old p.old base }
    ensures { Packed base n vs.old p.old result vs.new p.new }
{
    let mut used = 0;
    for v in 0..n {
        let start = store::start_number(vs, v) as usize;
        let len = store::len_number(vs, v) as usize;
        copy_within(p, base + used, start, len);
        store::put_start(vs, v, used as u32);
        used += len;
    }
    used
}

// Packs the sequences of n vertices to the front of the pool; how many bytes they are. The bytes from `base` on are scratch.
pub fn pack(vs: &mut [u32], n: usize, p: &mut [u8], base: usize) -> usize
    requires { Packable n vs.old p.old base }
    ensures { Packed 0 n vs.old p.old result vs.new p.new }
{
    let used = gather(vs, n, p, base);
    copy_within(p, 0, base, used);
    used
}
