// Sample texts, as the contract of a function that does nothing (specs/Cases.antt).
ghost use Rattle.reader.specs.Cases.{Readings};

#[tactic(auto, unfolding(words::specs::Numbers::spelt_after, grammar::specs::Words::words, grammar::specs::Words::indent, grammar::specs::Lines::line_of, grammar::specs::Lines::lines_from, grammar::specs::Lines::used, crate::specs::Text::body))]
pub fn sample_readings()
    ensures { Readings }
{}
