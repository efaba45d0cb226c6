//! The name by which a server looks a user up (RFC 5802, section 5.1).

ghost use Rattle.std.specs.Prelude.{IfOk, option_map, string_bytes};
ghost use Rattle.scram_lib.specs.Names.{IsLookedUp, IsPreparedName};

use crate::server::Service;
use fe2o3_scram::OutOfMemory;
use saslprep::{SaslprepError, Unassigned, saslprep};
use std::alloc::Global;

impl Service<'_, '_> {
    /// Returns the name of the records of the user who sends this name, or `None` if no record can have it.
    pub(crate) fn name_of(&self, alloc: Global, sent: &str) -> Result<Option<String>, OutOfMemory>
        ensures { IfOk result (λ name. IsLookedUp self.now.saslprep sent.now (option_map string_bytes name)) }
    {
        if self.saslprep {
            return prepared_name(alloc, sent);
        }
        Ok(Some(sent.to_string(alloc)?))
    }
}

/// Returns the name as SASLprep prepares it for a query (RFC 4013), or `None` if it rejects the name or prepares it to
/// nothing.
fn prepared_name(alloc: Global, sent: &str) -> Result<Option<String>, OutOfMemory>
    ensures { IfOk result (λ name. IsPreparedName sent.now (option_map string_bytes name)) }
{
    match saslprep(alloc, sent, Unassigned::Allowed) {
        Ok(name) if name.is_empty() => Ok(None),
        Ok(name) => Ok(Some(name.into_owned(alloc)?)),
        Err(SaslprepError::OutOfMemory) => Err(OutOfMemory),
        Err(_) => Ok(None),
    }
}
