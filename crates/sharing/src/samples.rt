// Samples of the rules, as the contract of a function.
ghost use Rattle.sharing.specs.Samples.{TenOverThreeSevens};

pub fn ten_over_three_sevens()
    ensures { TenOverThreeSevens }
{}
