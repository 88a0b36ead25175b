//! Laws about how the changes of an event are divided into lines.
ghost use Rattle.std.specs.Prelude.{◌≡◌, List, flat_map, All};
ghost use Rattle.run_log.specs.{Changed, rows, IsRow};

/// The lines of an event contain all listed changes, in their order, each once.
pub fn rows_hold_all()
    ensures { (ds : List Changed) → flat_map (λ row. row) (rows ds) ≡ ds }
{}

/// A line has a single change, or consecutive bytes.
pub fn rows_continue()
    ensures { (ds : List Changed) → All IsRow (rows ds) }
{}
