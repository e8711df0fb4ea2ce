// The law of lives, as a calculator's contracts cite it. Only a contract promises a theorem, so each has a function that does nothing.
#![tactic(auto)]

ghost use Rattle.life.specs.Example.{ExampleIsLived};
ghost use Rattle.life.specs.Law.{LivesKeepTheLaw, NewCalculatorsLive, CallsGoOn};

/// Every life keeps the law.
#[tactic(auto, using(crate::proofs::Lawful::lawful))]
pub fn lives_keep_the_law()
    ensures { LivesKeepTheLaw }
{}

/// A new calculator lives, whatever its register table holds.
pub fn new_calculators_live()
    ensures { NewCalculatorsLive }
{}

/// A call that steps goes on with every life.
pub fn calls_go_on()
    ensures { CallsGoOn }
{}

/// The law is about something: one life, with calls accepted and refused.
#[tactic(auto, using(crate::proofs::Example::example_is_lived_lem))]
pub fn example_is_lived()
    ensures { ExampleIsLived }
{}
