//! Words, part by part.
ghost use Rattle.std.specs.Prelude.{◌≡◌, min, length};
ghost use Rattle.std.proofs.Math.Seq.{paste};

/// Copies words from the low end of one buffer to that of another, as many as both have.
pub(crate) fn copy(from: &[u32], to: &mut [u32])
    ensures { to.new ≡ paste to.old 0 from.now (min (length from.now) (length to.old)) }
{
    let n = from.len().min(to.len());
    to[..n].copy_from_slice(&from[..n]);
}
