// Sample texts, as the contract of a function that does nothing (specs/Cases.antt).
ghost use Rattle.writer.specs.Cases.{Writings};

pub fn sample_writings()
    ensures { Writings }
{}
