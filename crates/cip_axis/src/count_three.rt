// Counting, one by one.
ghost use Rattle.std.specs.Prelude.{◌≡◌, ◌≤◌, cond};

/// 1 for what counts, 0 for what doesn't.
pub fn one_if(counts: bool) -> usize
    ensures value { result ≡ cond counts 1 0 }
    ensures few { result ≤ 1 }
{
    if counts { 1 } else { 0 }
}
