// Writes numbers to a slice from a place on.
#![tactic(auto)]

ghost use Rattle.std.specs.Prelude.{◌≡◌, ◌+◌, ◌≤◌, length};
ghost use Rattle.base_common.specs.Wrote.{put};

// Copies src to dst from place w on.
pub fn copy<T: Copy>(src: &[T], dst: &mut [T], w: usize)
    requires { w + length src.now ≤ length dst.old }
    ensures { dst.new ≡ put dst.old w src.now }
{
    dst[w..w + src.len()].copy_from_slice(src);
}
