//! Laws of a server. Each function has an empty body and states only its contract.

ghost use Rattle.fe2o3_sasl_core.specs.ChallengeCounts.{BoundsHold, SaslServersAreBounded, ServersHaveFewChallenges};
ghost use Rattle.fe2o3_sasl_core.specs.SavedServers.{RestoredStagesAreEqual};
ghost use Rattle.fe2o3_sasl_core.specs.ServerLaws.{OfferedScramsKeepChannels};

use crate::sasl_acceptor::SaslAcceptor;

/// States that a server that is saved and restored between two frames, with the same records, options and connection, is as
/// before, at any point of a connection.
pub fn restored_servers()
    ensures { RestoredStagesAreEqual }
{}

/// States how many challenges a login has: an init, and responses that are all answered by challenges. It has one more than
/// are left after that to its init, by any bound of its acceptor. At a server it has one, and one more for each extra
/// challenge.
pub fn challenge_counts<A: SaslAcceptor>()
    ensures counted { BoundsHold A.machine }
    ensures bounds { SaslServersAreBounded }
    ensures server { ServersHaveFewChallenges }
{}

/// States what a server of a connection with a channel accepts: each of its SCRAM mechanisms, with `-PLUS` and without it,
/// rejects what is no extension in the place of one, and takes no `y,,`.
pub fn offered_scrams()
    ensures { OfferedScramsKeepChannels }
{}
