// A table copied into another, and one value put all over a table.
#![tactic(auto)]

ghost use Rattle.std.specs.Prelude.{◌≡◌, length, replicate};

// The values of one table into another. (std's method would do, but the archive for other languages would then ask for memmove.)
pub fn copy<T: Copy>(into: &mut [T], from: &[T])
    requires { length into.old ≡ length from.now }
    ensures { into.new ≡ from.now }
{
    for (i, x) in from.iter().enumerate() {
        into[i] = *x;
    }
}

// One value all over a table.
pub fn fill<T: Copy>(table: &mut [T], x: T)
    ensures { table.new ≡ replicate (length table.old) x }
{
    for cell in table {
        *cell = x;
    }
}
