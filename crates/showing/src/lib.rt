// What `text` and `value` answer is what the payload has there. A function that carries the laws.
#![tactic(auto)]

ghost use Rattle.std.specs.Prelude.{◌≡◌, true};
ghost use Rattle.showing.specs.Laws.{TextShown, TextAnswered, ValueShown, ValueAnswered, KeyShown, Walk, End};

// The text at a place, the value and the key of a node, and a range of nodes, one item after the other.
pub fn showing_stands() -> bool
    ensures answer { result ≡ true }
    ensures text { TextShown }
    ensures within { TextAnswered }
    ensures value { ValueShown }
    ensures answered { ValueAnswered }
    ensures key { KeyShown }
    ensures walk { Walk }
    ensures end { End }
{
    true
}
