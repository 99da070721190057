ghost use Rattle.std.specs.Prelude.{◌≡◌, ◌++◌, length, take, drop, min};

/// Copies bytes from the front of `from` to the front of `to`, at most `most` and as many as both
/// have, and answers how many.
pub(crate) fn copy_front(from: &[u8], most: usize, to: &mut [u8]) -> usize
    ensures count { result ≡ min most (min (length from.now) (length to.old)) }
    ensures bytes { to.new ≡ take result from.now ++ drop result to.old }
    ensures moved { from.now ≡ take result to.new ++ drop result from.now }
{
    let count = most.min(from.len().min(to.len()));
    to[..count].copy_from_slice(&from[..count]);
    count
}
