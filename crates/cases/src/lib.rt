// The worked cases of the format.
#![tactic(auto)]

ghost use Rattle.std.specs.Prelude.{◌≡◌, true};
ghost use Rattle.cases.specs.Cases.{CasesStand};
ghost use Rattle.cases.specs.Written.{CasesWritten};

// The definition of reading computes what the worked cases say.
#[tactic(auto, using(crate::proofs::Cases::stand))]
pub fn cases_stand() -> bool
    ensures stand { CasesStand }
    ensures answer { result ≡ true }
{
    true
}

// The worked cases that are read are writings of the format.
#[tactic(auto, using(crate::proofs::Written::cases_written))]
pub fn cases_written() -> bool
    ensures written { CasesWritten }
    ensures answer { result ≡ true }
{
    true
}
