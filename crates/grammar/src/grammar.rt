// A sealed grammar: what a draft had declared. It takes no more rules.
ghost use Rattle.std.specs.Prelude.{◌≡◌};
ghost use Rattle.grammar.specs.Lists.{Sealed};
ghost use Rattle.grammar.specs.Once.{sealed_once};
ghost use Rattle.grammar.specs.Contents.{declared_lists};

use crate::declarations::Declarations;
use cost::Cost;

#[derive(Drop)]
pub struct Grammar<C: Cost> {
    pub(crate) declarations: Declarations<C>,
    pub ghost sealed: { Sealed C.Cost.model (declared_lists declarations) } by { sealed_once C.Cost.model (declared_lists declarations) },
}

impl<C: Cost> Grammar<C> {
    ghost use Rattle.grammar.specs.Meaning.{grammar_lists};

    // What has been declared. Within the limits, every rule's parts are declared and fit.
    pub fn declarations(&self) -> &Declarations<C>
        ensures lists { declared_lists result.now ≡ grammar_lists self.now }
        ensures sealed { Sealed C.Cost.model (grammar_lists self.now) }
    {
        &self.declarations
    }
}
