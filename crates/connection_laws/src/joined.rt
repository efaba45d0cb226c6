//! Two sides that receive each other's bytes unaltered exist.

ghost use Rattle.connection_laws.specs.JoinedSides.{JoinedSidesExist, UserLogsIn};

/// States that the premises of the law `unaltered::unaltered` can be met, in whatever pieces the bytes arrive. For each
/// login, provider, limits and calls that meet the premises on them, there are two sides that these calls join. Both log
/// in. The calls have to be enough:
/// - each is passed a byte or more, and there are 1544 of the client and 1032 of the server, one for each byte that can
///   arrive;
/// - or each is passed 512 bytes or more, and there are four of the client and three of the server, one for each unit.
///
/// One such login is given too. The user "user" has the password "pencil" and uses SCRAM-SHA-256. The record has a salt of
/// 32 bytes and the count 4096, and both limits are 512. Two sides are joined unit by unit, and two byte by byte.
pub fn joined_sides()
    ensures exist { JoinedSidesExist }
    ensures example { UserLogsIn }
{}
