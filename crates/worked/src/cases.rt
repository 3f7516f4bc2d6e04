ghost use Rattle.std.specs.Prelude.{◌≡◌};
ghost use Rattle.worked.specs.Cases.{Worked};

/// The worked cases.
pub fn worked_cases_stand() -> u8
    ensures { Worked }
{
    0
}
