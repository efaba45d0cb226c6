//! Laws of the definitions. Each function has an empty body and states only its contract, about every list of bytes,
//! which the check has proved.

ghost use Rattle.fe2o3_sasl_core.specs.Hex.{OneBytesOfHex, HexIsReadAgain};
ghost use Rattle.fe2o3_sasl_core.specs.MechanismLaws.{OneAcceptorReply, OneProfileReply, SomeAcceptorReply, SomeProfileReply, PlainRunsNameUsers, OffersAgree, PlainIdentitiesAgree, PlainLetsIn, PlainRefuses, AnonymousLetsIn, SomethingIsOffered, NamesDiffer};
ghost use Rattle.fe2o3_sasl.specs.examples.ClientExamples.{KeysLogIn, StaleKeysLogInLater};
ghost use Rattle.fe2o3_sasl.specs.examples.Examples.{PremisesCanBeMet, ShiftedTextsPass};
ghost use Rattle.fe2o3_sasl.specs.examples.MemoryExamples.{AcceptorsAskForNone, AskForNone, OwnedAskForNone, ServersWantNone, ClientsWantNone};
ghost use Rattle.fe2o3_sasl_core.specs.ProfileMachine.{StepAllocates};
ghost use Rattle.fe2o3_sasl_core.specs.Headline.{AnswersOkExactly, ReportsOkExactly, TakenVerifiersAgree};
ghost use Rattle.fe2o3_sasl_core.specs.CostLaws.{ServerRunsCost, ClientRunsCost};
ghost use Rattle.fe2o3_sasl_core.specs.AnyMechanismLaws.{AnyMechanismRunsAreSplit};
ghost use Rattle.fe2o3_sasl_core.specs.UnknownUsers.{MockRecordIsMet, SaltTextsDiffer, UnknownCostsAsMock, UnknownIsMock};
ghost use Rattle.fe2o3_sasl_core.specs.StepLaws.{OksLogIn, ReportedOksAreSigned, VerifiedOnSignature};
ghost use Rattle.fe2o3_sasl_core.specs.Laws.{EveryServer, EveryClient, OneServerHistory, OneClientHistory, SomeServerHistory, SomeClientHistory, AcceptorRunsAreHistories, AcceptorRunsNameUsers, AgreedUsersAreNamed, ProfileRunsAreHistories, KeyedRunsAreRuns, KeyedRunsAreHistories, OksWithinChallenges, RepeatedResponsesAreRefused, OneResponseOneNonce, RefusalsLeaveOpen, PositionsAreUsedOnce, EqualMessagesAgree, NoShortExtensions, OneStrictSideIsEnough, EqualMessagesBindOneChannel, TakenVerifiersAreJudged, ShownProofsAreJudged, OneVerdictEach, OneAuditEach, RepeatedClientPositions, RepeatedServerPositions, RepeatedClientFindings, RepeatedServerFindings, ClientsLogIn, ServersLogIn, ServersWantMemory, ClientsWantMemory, ProfilesWantMemory};

use fe2o3_sasl_core::any_mechanism::HasMechanism;
pub use fe2o3_scram::laws::{
    accepted_messages, base64_texts, clone_of_version, digests, each_text_is_read, escaped_names,
    kept_keys, mechanism_names, mixed_texts, one_answer_each, parts, record_texts,
    texts_without_memory, unaltered_exchanges, users_texts,
};

/// The headline theorem. Over every list of frame bodies:
///
/// - A SCRAM server answers Ok exactly when a response fits its open challenge and its proof meets the stored key.
/// - A SCRAM client reports Ok exactly on the signature of its open answered challenge. That is in the outcome or, if
///   the client accepts that, in the challenge that it answered last.
/// - If a SCRAM server, over any list of bodies of its own, issued that signature, both agree on user name and client
///   nonce, or their own differing AuthMessages share one HMAC value. If the init had two parts, or one side received no
///   attribute of RFC 5802 in the place of an extension, they also agree on full nonce, salt and count. In the second
///   case they agree on the header and on the data of the channel too.
pub fn headline()
    ensures server { EveryServer AnswersOkExactly }
    ensures client { EveryClient ReportsOkExactly }
    ensures agreement { EveryClient TakenVerifiersAgree }
{}

/// Without allocation failures a history is a function of its events, on either side.
pub fn one_history_each()
    ensures server { OneServerHistory }
    ensures client { OneClientHistory }
{}

/// A run of the SCRAM acceptor's machine over any list of bodies is a server history, and a run of a SCRAM profile's
/// machine a client history.
pub fn runs_are_histories()
    ensures acceptor { AcceptorRunsAreHistories }
    ensures profile { ProfileRunsAreHistories }
{}

/// States what one step means to its caller.
///
/// - SCRAM server: it answers Ok only if a challenge is open, and the body is a response to it whose proof meets the
///   record of its user. The acceptor then names that user.
/// - SCRAM client: it reports Ok only on the signature of the answer that it waits on. That is in the outcome or, if
///   the client accepts that, in a challenge before an outcome without data (RFC 4422, section 5).
///
/// A caller's own proof cites them as `oks_log_in` and `reported_oks_are_signed` of `StepLawLemmas.antt`, and
/// `verified_on_signature` of `SignatureStepLemmas.antt`. Both files are in `proofs/lemmas/steps` of `fe2o3_sasl_core`.
pub fn steps()
    ensures server { OksLogIn }
    ensures client { ReportedOksAreSigned }
    ensures verified { VerifiedOnSignature }
{}

/// Bounds what a run costs if its steps share one meter: no more HMAC values than the sum over its bodies. A SCRAM
/// acceptor computes two for each response. A SCRAM profile computes as many as its limit and four more for each
/// challenge. The contract of a step says what that step costs.
pub fn run_costs()
    ensures server { ServerRunsCost }
    ensures client { ClientRunsCost }
{}

/// States which user is logged in after a run over any list of bodies. A SCRAM acceptor names a user exactly if the run
/// has an accepted response with no challenge after it: the user of the init that this response answered. The acceptor
/// of PLAIN names its user exactly if some body of the run was answered Ok. The user of an agreed finding of an audit
/// is named after its Ok.
pub fn users()
    ensures runs { AcceptorRunsNameUsers }
    ensures plain { PlainRunsNameUsers }
    ensures agreed { AgreedUsersAreNamed }
{}

/// A server of two acceptors, over any list of bodies: each body goes where `part_for` sends it in the state
/// before it, to one of the two acceptors or to neither. What goes to one is a run of that one by itself. What
/// goes to neither is rejected. A proof of your own cites `any_mechanism_runs` of `AnyMechanismLemmas.antt` in
/// `fe2o3_sasl_core`.
pub fn any_mechanism<A: HasMechanism, B: HasMechanism>()
    ensures { AnyMechanismRunsAreSplit A.names B.names A.machine B.machine }
{}

/// States what a server with mock authentication shows of an unknown user. Without a record of a name it gives the same
/// replies to the same events as with the mock record of that name, in every state, with as many HMAC values for each.
/// A stranger can thus learn of a name no more than whether its record is the mock record: a salt and two keys that are
/// HMAC values under the server's secret, and the mock count. The salts of two mechanisms, or of two names, are HMAC
/// values of two different texts. `server_logins::unknown_names` of `connection_laws` says this of a `Server` of all
/// mechanisms.
///
/// A server with mock authentication is a SCRAM server like any other: its provider has a record for each name, and
/// every law of SCRAM servers holds of it. It accepts an unknown user only by a proof whose key has the mock StoredKey
/// as its digest.
pub fn unknown_users()
    ensures one { UnknownIsMock }
    ensures cost { UnknownCostsAsMock }
    ensures salts { SaltTextsDiffer }
    ensures met { MockRecordIsMet }
{}

/// A client with the keys of a password runs like the client with the password, as long as servers name the salt and
/// the count of the keys; so its run is a client history of that login too.
pub fn keyed_runs()
    ensures runs { KeyedRunsAreRuns }
    ensures histories { KeyedRunsAreHistories }
{}

/// States what users of a server rely on, whatever it receives. It never accepts more often than it challenges. An
/// accepted response that is repeated before a new challenge is rejected. One response text under two challenges means
/// one full nonce.
pub fn servers()
    ensures oks { OksWithinChallenges }
    ensures repeated { RepeatedResponsesAreRefused }
    ensures one_nonce { OneResponseOneNonce }
{}

/// States what follows from the definition of "last open" for any list of replies. Two Oks of a server never have one
/// open challenge, two reported Oks of a client never one answer, and two answers never one start. A rejection leaves
/// open what was open.
pub fn positions()
    ensures used_once { PositionsAreUsedOnce }
    ensures left_open { RefusalsLeaveOpen }
{}

/// If a client and a server meet and their AuthMessages are equal, they mean one login, and the init had neither three
/// nor four parts.
pub fn equal_messages()
    ensures agree { EqualMessagesAgree }
    ensures no_short_extensions { NoShortExtensions }
{}

/// One strict side is enough. Where the client or the server is strict (by `ClientOptions` or
/// `ServerRules`), as to extensions each client is that has a channel and each server that binds one, one
/// of them received no attribute of RFC 5802 in the place of an extension. So `Agree` speaks of the header, the data of
/// the channel, the full nonce, salt and count too, whatever the other side is.
pub fn strict_sides()
    ensures { OneStrictSideIsEnough }
{}

/// Channel binding (RFC 5802, section 6). A client has a channel if it binds it or says `y,,`. If it has one and the server
/// accepts no `y,,`, equal AuthMessages of an answer and of an accepted response mean one channel: of one kind, with the same
/// data. Neither side needs an option. If `verdicts` says that the sides agree, nobody has two channels between them,
/// whatever mechanisms the client was offered.
pub fn bound_channels()
    ensures { EqualMessagesBindOneChannel }
{}

/// Each verifier that a client took and a server issued, and each proof that it showed and a server
/// accepted, has one verdict: the sides agree, or their own texts or keys collide, or, for a proof, the
/// client's key was another.
pub fn verdicts()
    ensures taken { TakenVerifiersAreJudged }
    ensures shown { ShownProofsAreJudged }
    ensures one { OneVerdictEach }
{}

/// An audit lists the same findings of the same login, provider and lists of events, for any replies.
pub fn one_audit_each()
    ensures { OneAuditEach }
{}

/// States when a position is matched twice. Among agreed findings of one kind, an Ok of a server is matched with two
/// positions of a client only if the client's nonce was repeated. A position of a client is matched with two Oks of a
/// server, both to an init of two parts, only if the server's nonce was.
pub fn repeated_nonces()
    ensures client { RepeatedClientPositions }
    ensures server { RepeatedServerPositions }
{}

/// States when an audit's list repeats positions. Agreed findings of one kind repeat a position of the server only if a
/// nonce of the client was repeated. With parameters they repeat a position of the client only if a nonce of the server
/// was repeated.
pub fn repeated_findings()
    ensures client { RepeatedClientFindings }
    ensures server { RepeatedServerFindings }
{}

/// States when a login succeeds. The client logs in if
/// - no body is altered on the way, no allocation fails, and no frame is too large;
/// - its secret opens the server's record: a password that is printable ASCII or was passed as prepared, the keys of
///   the record's password, salt and count, or such a password beside stale keys;
/// - the count is from 1 on and within the client's limits;
/// - the server accepts the client's GS2 header, and expects the channel that the client binds, if any.
///
/// An audit of it has exactly two findings, and in both the sides agree.
pub fn unaltered_runs()
    ensures client { ClientsLogIn }
    ensures server { ServersLogIn }
{}

/// Two worked examples of the definitions: an unaltered login, and one with a text that is shifted between two
/// messages. The first meets each premise of the law of unaltered runs. In the second both sides agree although
/// they mean two nonces. There they cannot agree on more than user name and client nonce.
pub fn worked_examples()
    ensures premises_can_be_met { PremisesCanBeMet }
    ensures shifted_texts_pass { ShiftedTextsPass }
{}

/// Worked examples of clients, each in the first of those logins: one with the keys of its password, and one with
/// these keys that rejects a challenge with another salt and logs in by the next one.
pub fn worked_clients()
    ensures keys { KeysLogIn }
    ensures stale_keys { StaleKeysLogInLater }
{}

/// Laws of every mechanism.
///
/// - Each acceptor and each profile has at most one reply to a frame.
/// - A server offers what a profile asks for exactly if both are of one mechanism.
/// - PLAIN lets in the same user with the same password and rejects all others, in words without zero bytes (RFC 4616,
///   section 2).
/// - A message of PLAIN that logs its user in by a record names the user and the identity of the profile that sent it.
/// - ANONYMOUS lets in each client that asks for it.
/// - A server always offers something, and the six profiles have six names.
pub fn mechanisms()
    ensures one_acceptor_reply { OneAcceptorReply }
    ensures one_profile_reply { OneProfileReply }
    ensures offers_agree { OffersAgree }
    ensures plain_lets_in { PlainLetsIn }
    ensures plain_refuses { PlainRefuses }
    ensures plain_identities { PlainIdentitiesAgree }
    ensures anonymous_lets_in { AnonymousLetsIn }
    ensures something_is_offered { SomethingIsOffered }
    ensures names_differ { NamesDiffer }
{}

/// Each acceptor has a reply to each init and to each response, and each profile to every frame, in each
/// state and with each nonce: with `mechanisms` it has exactly one.
pub fn replies()
    ensures acceptors { SomeAcceptorReply }
    ensures profiles { SomeProfileReply }
{}

/// A hexadecimal text spells at most one list of bytes, and each list of bytes has such a text in digits of either
/// case.
pub fn hex_texts()
    ensures one { OneBytesOfHex }
    ensures again { HexIsReadAgain }
{}

/// Over every list of events whose bodies are bytes, each server and each client has a history without allocation
/// failures: with `one_history_each` it has exactly one.
pub fn histories_exist()
    ensures server { SomeServerHistory }
    ensures client { SomeClientHistory }
{}

/// States where an allocation may fail: at an init and at a response of a server; at a list with the name, at a
/// challenge and at an outcome with data of a SCRAM client; of any profile at a list from which it takes a mechanism, at an
/// empty challenge that it answers, and at an outcome with data, but for a client by a policy that has selected none; and
/// nowhere else. All other replies are determined: `one_history_each`, `mechanisms`.
pub fn want_of_memory()
    ensures server { ServersWantMemory }
    ensures client { ClientsWantMemory }
    ensures profile { ProfilesWantMemory }
{}

/// Worked examples of frames at which nothing is allocated, so that the answer is never out of memory. An acceptor
/// allocates nothing at an init of another mechanism and at a response that is not expected, and that of PLAIN never. A
/// profile allocates nothing at a list from which it takes no mechanism, a challenge that is not UTF-8 or not expected,
/// an outcome without data, and one of code Ok for SCRAM that is not UTF-8 or not expected. Histories have the like.
pub fn no_want_of_memory()
    ensures acceptors { AcceptorsAskForNone }
    ensures owned { OwnedAskForNone }
    ensures steps { AskForNone StepAllocates }
    ensures servers { ServersWantNone }
    ensures clients { ClientsWantNone }
{}
