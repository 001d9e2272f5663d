// A list that is written in part. What that makes of it stands in specs/.
#![tactic(auto)]

ghost use Rattle.std.specs.Prelude.{◌≡◌, ◌+◌, ◌≤◌, length};
ghost use Rattle.std.proofs.lemmas.List.Edits.{sets};

// Writes a row from the entry `start` on.
pub fn put_row<T: Copy>(row: &[T], out: &mut [T], start: usize)
    requires { start + length row.now ≤ length out.old }
    ensures { out.new ≡ sets out.old start row.now }
{
    out[start..start + row.len()].copy_from_slice(row);
}
