// The protected list: components that have to come protected.
ghost use Rattle.std.specs.Prelude.{◌≡◌};
ghost use Rattle.rules.specs.Listed.{kinds_known, listed_in};

use crate::component::ComponentId;

// Whether each identifier is of a known kind.
pub(crate) fn kinds_known(listed: &[ComponentId]) -> bool
    ensures { result ≡ kinds_known listed.now }
{
    listed.iter().all(|id| id.known_kind().is_some())
}

// Whether the identifier is among them.
pub(crate) fn lists(listed: &[ComponentId], id: ComponentId) -> bool
    ensures { result ≡ listed_in id listed.now }
{
    listed.contains(&id)
}
