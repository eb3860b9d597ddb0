// A test of equality for the arm of a test.
ghost use Rattle.std.specs.Prelude.{◌≡◌, ◌==◌};
ghost use Rattle.runs.specs.Tests.{same_option};

/// Whether the arm that a test takes is this one, or both are absent.
pub(crate) fn same_arms(taken: Option<u64>, arm: Option<u32>) -> bool
    ensures { result ≡ same_option ◌==◌ taken arm }
{
    match taken {
        None => match arm {
            None => true,
            Some(_) => false,
        },
        Some(taken) => match arm {
            None => false,
            Some(arm) => taken == u64::from(arm),
        },
    }
}
