// One place of a list set.
ghost use Rattle.std.specs.Prelude.{◌≡◌, set};

// The list with `x` at `at`; unchanged where that is past its end.
pub fn set_at<T: Copy>(xs: &mut [T], at: usize, x: T)
    ensures { xs.new ≡ set xs.old at x }
{
    if at < xs.len() {
        xs[at] = x;
    }
}
