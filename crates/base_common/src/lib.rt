// A range test that gives the Bool which a definition of specs/ has.
#![tactic(auto)]

ghost use Rattle.std.specs.Prelude.{◌≡◌};
ghost use Rattle.base_common.specs.Tests.{within};

// k is one of lo, .., hi
pub fn within(k: u32, lo: u32, hi: u32) -> bool
    ensures { result ≡ within k lo hi }
{
    (lo..=hi).contains(&k)
}
