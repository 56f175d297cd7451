// Looking names up.
ghost use Rattle.std.specs.Prelude.{◌≡◌, ℕ, ◌<◌, List, length, IfSome};
ghost use Rattle.name.specs.Names.{text};
ghost use Rattle.grammar.specs.Drafting.{place_from};

use crate::parts::{Nonterminal, Operator};
use name::Name;

// What has a name.
pub trait Named {
    ghost called: { Self → List ℕ };

    fn name(&self) -> &Name
        ensures { text result.now ≡ called self.now };
}

impl Named for Operator {
    ghost called = { λ x. text x.name };

    fn name(&self) -> &Name {
        &self.name
    }
}

impl Named for Nonterminal {
    ghost called = { λ x. text x.name };

    fn name(&self) -> &Name {
        &self.name
    }
}

// The place of the first that has the name.
pub fn find<T: Named>(items: &[T], name: &Name) -> Option<usize>
    ensures value { result ≡ place_from T.Named.called 0 (text name.now) items.now }
    ensures within { IfSome result (λ i. i < length items.now) }
{
    items.iter().position(|x| x.name().same(name))
}
