//! Worked examples of the load: what its definitions give for numbers that engineers can reckon.
ghost use Rattle.text_model.specs.Load.{FirstNumber, FirstCommand, FirstLine, DeviceLine, DrainBehindSixteen, EmptySummary, OneSummary};

/// The load's device, its first number, command and line for seed 0, its drains, and its summary.
pub fn load_examples()
    ensures number { FirstNumber }
    ensures command { FirstCommand }
    ensures line { FirstLine }
    ensures device { DeviceLine }
    ensures drains { DrainBehindSixteen }
    ensures empty { EmptySummary }
    ensures one { OneSummary }
{}
