//! Texts that are made in place.
ghost use Rattle.std.specs.Prelude.{◌≡◌, ◌+◌, ◌≤◌, ◌++◌, length};
ghost use Rattle.std.specs.Fmt.{decimal};
ghost use Rattle.arrayvec.specs.ArrayVec.{array_vec_len};

use arrayvec::ArrayVec;

/// Adds bytes at the end.
pub fn push_bytes<const N: usize>(out: &mut ArrayVec<u8, N>, bytes: &[u8])
    requires { array_vec_len out.old + length bytes.now ≤ N }
    ensures bytes { out.new.items ≡ out.old.items ++ bytes.now }
    ensures len { array_vec_len out.new ≡ array_vec_len out.old + length bytes.now }
{
    let _ = out.try_extend_from_slice(bytes);
}

/// Adds a number in decimal: at most ten digits.
pub fn push_number<const N: usize>(out: &mut ArrayVec<u8, N>, number: u32)
    requires { array_vec_len out.old + 10 ≤ N }
    ensures bytes { out.new.items ≡ out.old.items ++ decimal number }
    ensures len { array_vec_len out.new ≤ array_vec_len out.old + 10 }
{
    push_bytes(out, itoa::Buffer::new().format(number).as_bytes());
}
