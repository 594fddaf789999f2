// The height of a new tower.
ghost use Rattle.std.specs.Prelude.{◌≡◌, ◌≤◌};
ghost use Rattle.blockfile.specs.Put.{new_height};

// The trailing zero bits of the number of spans m, at most the head's max height.
pub fn tower_height(m: usize, most: usize) -> usize
    requires { m ≤ 4294967295 }
    ensures { result ≡ new_height m most }
{
    let zeros = u32::trailing_zeros(m as u32) as usize;
    zeros.min(most)
}
