//! Laws of scatter and gather.
ghost use Rattle.region_model.specs.Iovecs.{GathersAgain};
ghost use Rattle.iovec_scatter.specs.Ends.{EndsAlong};

/// What gather reads of what scatter wrote is what was written.
pub fn gathers_again()
    ensures { GathersAgain }
{}

/// Where the blocks below a limit end below 2^64, the iovecs along such blocks do: what `iovs_of` wants.
pub fn ends_along()
    ensures { EndsAlong }
{}
