//! Keys and names, compared.
ghost use Rattle.std.specs.Prelude.{◌≡◌};
ghost use Rattle.std.specs.Str.{bytes_eq};
ghost use Rattle.cd_rules.specs.Keys.{same_key};

use cd_types::Key;

/// Whether two texts have the same bytes.
pub fn same_bytes(a: &[u8], b: &[u8]) -> bool
    ensures { result ≡ bytes_eq a.now b.now }
{
    a == b
}

/// Whether two keys are of the same step.
#[tactic(auto, unfolding(cd_rules::specs::Keys::same_key))]
pub fn same_key(a: &Key, b: &Key) -> bool
    ensures { result ≡ same_key a.now b.now }
{
    same_bytes(a.pnode.as_bytes(), b.pnode.as_bytes())
        && a.home == b.home
        && a.number.number() == b.number.number()
        && a.place == b.place
}
