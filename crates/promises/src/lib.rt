#![tactic(auto)]
// The whole promise of an accepted packing, and packing as a relation. Each function's contract states theorems; none has code.
ghost use Rattle.promises.specs.Laws.{PromiseHolds, PromiseOfSettled, PromiseOfTried, PrunedPromise, OnePacking};
ghost use Rattle.promises.specs.Tells.{EachSentenceTells};

// What packing gives for the plan in the book of the calls keeps the whole promise.
pub fn promise_holds()
    ensures by_calls { PromiseHolds }
    ensures settled { PromiseOfSettled }
    ensures tried { PromiseOfTried }
{}

// The pruned list of calls leads to the same packing.
pub fn pruned_promise()
    ensures { PrunedPromise }
{}

// Packing, and nothing else, meets the relation.
pub fn one_packing()
    ensures { OnePacking }
{}

// Each sentence of the promise rules out records that break it.
pub fn promise_tells()
    ensures { EachSentenceTells }
{}
