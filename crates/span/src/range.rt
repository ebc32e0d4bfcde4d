// Ranges of a pool.
ghost use Rattle.std.specs.Prelude.{◌≡◌};
ghost use Rattle.span.specs.Blank.{range_of};

use crate::Range;

impl Range {
    // The records from `first` on; none of them is 0 and 0, wherever it would begin.
    pub fn new(first: usize, count: usize) -> Range
        ensures { result ≡ range_of first count }
    {
        if count == 0 {
            Range { first: 0, count: 0 }
        } else {
            Range { first, count }
        }
    }
}
