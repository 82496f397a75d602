// Sample texts, as the contract of a function that does nothing (specs/Cases.antt).
ghost use Rattle.plotter.specs.Cases.{PlotsOf};

pub fn sample_plots()
    ensures { PlotsOf }
{}
