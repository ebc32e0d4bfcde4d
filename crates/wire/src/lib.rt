// The format of a trace payload: what bytes are a writing of it.
#![tactic(auto)]

ghost use Rattle.std.specs.Prelude.{◌≡◌, true};
ghost use Rattle.wire.specs.Stands.{Independent};

// A writing is the same one whatever follows it.
pub fn format_stands() -> bool
    ensures answer { result ≡ true }
    ensures independent { Independent }
{
    true
}
