// Which texts are accepted, as the contract of a function that does nothing (specs/Accepted.antt).
ghost use Rattle.reader.specs.Accepted.{AcceptedLaw};

pub fn accepted_texts()
    ensures { AcceptedLaw }
{}
