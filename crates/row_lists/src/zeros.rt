// A word list filled with zeros from a place on. Whoever calls a function here owes its `requires`.
ghost use Rattle.std.specs.Prelude.{◌≡◌, ◌++◌, ◌-◌, ◌≤◌, length, take, replicate};

pub fn bytes_from(list: &mut [u8], from: usize)
    requires { from ≤ length list.old }
    ensures { list.new ≡ take from list.old ++ replicate (length list.old - from) 0 }
{
    list[from..].fill(0);
}
