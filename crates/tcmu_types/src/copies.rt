//! Bytes that are copied from their places, and to them.
ghost use Rattle.std.specs.Prelude.{◌≡◌, ◌+◌, ◌≤◌, length, take, drop};
ghost use Rattle.tcmu_types.specs.Overwriting.{overwritten};

/// Fills `into` with the bytes from `at` on.
pub fn copy_out(bytes: &[u8], at: usize, into: &mut [u8])
    requires { at + length into.old ≤ length bytes.now }
    ensures { into.new ≡ take (length into.new) (drop at bytes.now) }
{
    let end = at + into.len();
    into.copy_from_slice(&bytes[at..end]);
}

/// Puts a piece in the place of the bytes from `at` on.
pub fn overwrite(bytes: &mut [u8], at: usize, piece: &[u8])
    requires { at + length piece.now ≤ length bytes.old }
    ensures { bytes.new ≡ overwritten at piece.now bytes.old }
{
    bytes[at..at + piece.len()].copy_from_slice(piece);
}
