// Counts and the room of a table.

ghost use Rattle.std.specs.Prelude.{◌≡◌, min};

// The smaller of a count and the room that it has. The records in use of a table are counted by `tables::fit::in_use`.
pub fn at_most(n: usize, limit: usize) -> usize
    ensures { result ≡ min n limit }
{
    n.min(limit)
}
