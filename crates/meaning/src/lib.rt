// The reader and the relation of writings: what one accepts, the other says. Functions that carry the laws.
#![tactic(auto)]

ghost use Rattle.std.specs.Prelude.{◌≡◌, true};
ghost use Rattle.meaning.specs.Laws.{Unique, FrontFree, Excludes};

// No bytes can be read two ways, and no beginning of a writing is one.
pub fn writings_stand() -> bool
    ensures answer { result ≡ true }
    ensures unique { Unique }
    ensures front { FrontFree }
{
    true
}

// What the promise of reading leaves open to no answer that meets it.
pub fn promise_excludes() -> bool
    ensures answer { result ≡ true }
    ensures excludes { Excludes }
{
    true
}
