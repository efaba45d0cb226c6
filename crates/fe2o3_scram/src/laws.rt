//! Laws of the definitions. Each function has an empty body and states only its contract, about every list of bytes,
//! which the check has proved.

ghost use Rattle.std.specs.Prelude.{◌≡◌};
ghost use Rattle.fe2o3_scram.specs.Agreement.{OneStrictSideOfTextsIsEnough, VerifiedTextsAgree};
ghost use Rattle.fe2o3_scram.specs.BoundChannels.{EqualTextsBindOneChannel, ForeignClientsBindOneChannel, ForeignServersExpectThis, SetServersReject, ShownTextsAgree, ShownTextsBindOneChannel, UnofferedTextsDiffer, VerifiedTextsBindOneChannel};
ghost use Rattle.fe2o3_scram.specs.examples.MovedChannels.{MovedChannelsPass, MovedFirstsAreRefused};
ghost use Rattle.fe2o3_scram.specs.Logins.{AcceptedTextsLogIn, VerifiedTextsAreSigned};
ghost use Rattle.fe2o3_scram.specs.Laws.{OneVersion, OneFinalText, OneSignature, DigestsAreSized, MacsAreSized, OneBytesOfBase64, Base64IsReadAgain, NoCommaInBase64, PartsExist, OneListOfParts, OneEscapedName, NoCommaInEscapedNames, OneClientFirst, OneServerFirst, OneClientFinal, OneServerFinal, SomeClientFirst, SomeServerFirst, SomeClientFinal, SomeServerFinal, UnalteredExchangesSucceed, MadeRecordsAreReadable, OneRecord, OneSpelling, RecordsAreReadAgain, SomeRecord, OneUsersAnswer, SomeUsersAnswer, UsersAreReadAgain, OneMixedAnswer, SomeMixedAnswer, MixedAreReadAgain, MixedAreWrittenBack, NoMismatch, KeysStandForPassword, KeysAnswerAsPassword, BothAnswerAsPassword, OneRecordOfPassword, OneAnswerOfPassword, ServerErrorsAreReadAgain, OneServerError, ServerErrorsAreNoSignature};
ghost use Rattle.fe2o3_scram.specs.ScramServer.{StatesAreReported};
ghost use Rattle.fe2o3_scram.specs.examples.MemoryExamples.{AnsweredClientsAllocateNothing, CommasAllocateNothing, ErrorsAllocateNothing, OtherNoncesAllocateNothing, MissingBindingsAllocateNothing, UnknownMechanismsAllocateNothing, UnknownUsersAllocateNothing};

use crate::hmac::ScramVersion;

/// Returns the same version, without an allocation.
pub fn clone_of_version(version: &ScramVersion) -> ScramVersion
    ensures { result ≡ version.now }
{
    version.clone().unwrap()
}

/// No two versions have one mechanism name.
pub fn mechanism_names()
    ensures { OneVersion }
{}

/// Digests and HMAC values have the length of their hash, and hold bytes.
pub fn digests()
    ensures digests { DigestsAreSized }
    ensures macs { MacsAreSized }
{}

/// A base64 text encodes one list of bytes, is read again, and has no comma.
pub fn base64_texts()
    ensures one { OneBytesOfBase64 }
    ensures again { Base64IsReadAgain }
    ensures no_comma { NoCommaInBase64 }
{}

/// A text has one list of parts.
pub fn parts()
    ensures some { PartsExist }
    ensures one { OneListOfParts }
{}

/// A user name has one escaped text, which has no comma.
pub fn escaped_names()
    ensures one { OneEscapedName }
    ensures no_comma { NoCommaInEscapedNames }
{}

/// Each of the four messages has at most one answer. The last two have one too before a key or a signature is tested.
pub fn one_answer_each()
    ensures client_first { OneClientFirst }
    ensures server_first { OneServerFirst }
    ensures client_final { OneClientFinal }
    ensures final_text { OneFinalText }
    ensures server_final { OneServerFinal }
    ensures signature { OneSignature }
{}

/// The message of a server error is read as that error, and no message is two errors. A client that waits for a signature
/// rejects each with `ServerSignatureMismatch`.
pub fn server_errors()
    ensures again { ServerErrorsAreReadAgain }
    ensures one { OneServerError }
    ensures rejected { ServerErrorsAreNoSignature }
{}

/// States what an accepted message means. A server accepts a client-final message only if a challenge
/// is open and the proof meets the record that it was made with, and then names the user of the
/// challenge. A client accepts a server-final message only with the signature of the answer that it
/// waits for. A caller's own proof cites these from `proofs/lemmas/messages/LoginLemmas.antt`.
///
/// If a client accepted the message by which a server accepted, both agree on version, user name and
/// client nonce, or their own differing AuthMessages share one HMAC value. They agree on the nonce of
/// both sides, salt and count if the client-first message had two parts, or if one side received no
/// attribute that RFC 5802 defines in the place of an extension; in the second case also on the header and the data of the
/// channel. One strict side is enough for that: `strict` of `ClientOptions` or of `ServerRules`.
pub fn accepted_messages()
    ensures server { AcceptedTextsLogIn }
    ensures client { VerifiedTextsAreSigned }
    ensures agreement { VerifiedTextsAgree }
    ensures strict { OneStrictSideOfTextsIsEnough }
{}

/// States what channel binding protects against: someone who has one channel to the client and another to the server, as
/// with a false certificate. A client that has a channel sends `y,,` or binds it, whatever mechanisms it was offered. If
/// the server accepts no `y,,`, then both bind one channel, of one kind and with the same data: if the client verified the
/// message by which the server accepted, or if the server accepted the proof that the client showed. Otherwise two different
/// AuthMessages share one HMAC value, or two keys one digest. Neither side needs an option.
///
/// - `equal`, `unoffered`: the same of equal AuthMessages alone; a client that says `y,,` never has that of such a server.
/// - `foreign_client`, `set_server`: if the server rejects what is no extension, it is true of a client of another library.
/// - `foreign_server`: and of a server of another library, if the client is of this one.
/// - `moved`, `refused`: between two sides that are not strict, someone on the way can move attributes from one message to
///   another, so that each reads the channel that it expects; a client that has a channel reads no such message.
pub fn bound_channels()
    ensures equal { EqualTextsBindOneChannel }
    ensures foreign_client { ForeignClientsBindOneChannel }
    ensures set_server { SetServersReject }
    ensures foreign_server { ForeignServersExpectThis }
    ensures unoffered { UnofferedTextsDiffer }
    ensures verified { VerifiedTextsBindOneChannel }
    ensures shown { ShownTextsAgree }
    ensures shown_channel { ShownTextsBindOneChannel }
    ensures moved { MovedChannelsPass }
    ensures refused { MovedFirstsAreRefused }
{}

/// A client and a server with the same password log in if nothing is altered on the way.
pub fn unaltered_exchanges()
    ensures { UnalteredExchangesSucceed }
{}

/// Each of the four messages has an answer, whatever its bytes are.
pub fn each_text_is_read()
    ensures client_first { SomeClientFirst }
    ensures server_first { SomeServerFirst }
    ensures client_final { SomeClientFinal }
    ensures server_final { SomeServerFinal }
{}

/// A record is read again from its text, and no other text is read as that record. Each text has one answer. A record
/// that is made of a password is read again.
pub fn record_texts()
    ensures again { RecordsAreReadAgain }
    ensures spelling { OneSpelling }
    ensures one { OneRecord }
    ensures some { SomeRecord }
    ensures made { MadeRecordsAreReadable }
{}

/// A client with the keys of a password answers like one with the password, or returns that the server names another
/// salt or iteration count. One with both answers like one with the password.
pub fn kept_keys()
    ensures stand { KeysStandForPassword }
    ensures answer { KeysAnswerAsPassword }
    ensures both { BothAnswerAsPassword }
{}

/// A password of printable ASCII is prepared to itself: typed or prepared, it gives one record, and a client one
/// answer.
pub fn printable_passwords()
    ensures record { OneRecordOfPassword }
    ensures answer { OneAnswerOfPassword }
{}

/// Users that can be written are read again from their lines. Each text of lines has one answer: the users that it
/// spells, or its first malformed line and that line's fault.
pub fn users_texts()
    ensures again { UsersAreReadAgain }
    ensures one { OneUsersAnswer }
    ensures some { SomeUsersAnswer }
{}

/// Users with records of several versions are read again from their lines, if they can be written. Users that were read
/// are written as the very text that was read, and no line is rejected for its version. Each text of lines has one
/// answer.
pub fn mixed_texts()
    ensures again { MixedAreReadAgain }
    ensures back { MixedAreWrittenBack }
    ensures version { NoMismatch }
    ensures one { OneMixedAnswer }
    ensures some { SomeMixedAnswer }
{}

/// States worked examples of texts that are rejected before a call allocates, so never with `OutOfMemory`. A
/// server-final message that is an error; a server-first message to a client that has answered one; a client-first
/// message of an unknown user; a client-final message with another nonce, and one without a channel binding; a record
/// of an unknown mechanism; and a line whose name has a comma.
pub fn texts_without_memory()
    ensures errors { ErrorsAllocateNothing }
    ensures answered { AnsweredClientsAllocateNothing }
    ensures unknown_users { UnknownUsersAllocateNothing }
    ensures other_nonces { OtherNoncesAllocateNothing }
    ensures missing_bindings { MissingBindingsAllocateNothing }
    ensures unknown_mechanisms { UnknownMechanismsAllocateNothing }
    ensures commas { CommasAllocateNothing }
{}

/// States what the state of a server is. Two servers with the same open challenge, record of that challenge and
/// logged-in user are in one state. So `open_challenge`, the record and `authenticated_user` are enough to restore a
/// server.
pub fn saved_servers()
    ensures { StatesAreReported }
{}
