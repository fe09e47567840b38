// A slice copied into another, by a loop: the library's own way would have the archive ask the program that links it for `memmove`.
#![tactic(auto)]

ghost use Rattle.std.specs.Prelude.{◌≡◌, length};

pub fn copy<T: Copy>(dst: &mut [T], src: &[T])
    requires { length dst.old ≡ length src.now }
    ensures { dst.new ≡ src.now }
{
    for i in 0..src.len() {
        dst[i] = src[i];
    }
}
