//! A worked case, by the definitions.

ghost use Rattle.rasta_core_link.specs.Worked.{LimitOfPdus};
ghost use Rattle.rasta_core_link.specs.declared.identity.Identity.{Identity};

/// An end that sent 2147483000 PDUs in its connection closes it in its next call, with reason 2; one that sent one
/// fewer goes on.
pub fn full_connection_closes()
    ensures { (identity : Identity) → LimitOfPdus identity }
{}
