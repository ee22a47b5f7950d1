// Writing words into a slice with bounded room.
ghost use Rattle.std.specs.Prelude.{◌≤◌, length};
ghost use Rattle.kept.specs.Writing.{Writes};

// Writes all of `source`, and answers the place behind it; nothing where it does not fit.
pub fn copy(source: &[u16], out: &mut [u16], at: usize) -> Option<usize>
    requires { at ≤ length out.old }
    ensures { Writes source.now out.old at result out.new }
{
    let count = source.len();
    if out.len() - at < count {
        return None;
    }
    // word by word: `copy_from_slice` is a call of C's `memmove`, which the archive would need from outside
    for i in 0..count {
        out[at + i] = source[i];
    }
    Some(at + count)
}
