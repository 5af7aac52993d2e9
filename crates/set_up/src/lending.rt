// The queue cells of a set-up.
ghost use Rattle.std.specs.Prelude.{◌≡◌, length, replicate};

// Every queue cell becomes 0.
pub fn clear_cells(cells: &mut [u32])
    ensures { cells.new ≡ replicate (length cells.old) 0 }
{
    cells.fill(0);
}
