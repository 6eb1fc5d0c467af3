// A run stored in a list.
ghost use Rattle.std.specs.Prelude.{◌≡◌, ◌+◌, ◌≤◌, length};
ghost use Rattle.lists.specs.Pasted.{pasted};

// Stores w in the list from index `at` on.
pub fn paste<T: Copy>(list: &mut [T], at: usize, w: &[T])
    requires { at + length w.now ≤ length list.old }
    ensures { list.new ≡ pasted list.old at w.now }
{
    list[at..at + w.len()].copy_from_slice(w);
}
