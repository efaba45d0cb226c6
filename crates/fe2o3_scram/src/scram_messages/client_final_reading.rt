//! Reads the client-final message, up to the test of its proof.

ghost use Rattle.std.specs.Prelude.{◌≡◌, ◌≢◌, ◌++◌, true, false, ℕ, List, IfOk, IfErr, MatchOption, OnOk, codes};
ghost use Rattle.fe2o3_scram.specs.private.Tests.{binding_tests, final_nonce_tests, spelling_tests};
ghost use Rattle.fe2o3_scram.specs.Readings.{Gives, IsFirst, NoneHolds};
ghost use Rattle.fe2o3_scram.specs.ClientFinal.{HasProof, ReachesBase64, ReachesBinding, ReadsFinalText, client_final_values};
ghost use Rattle.fe2o3_scram.specs.ChannelBinding.{cbind_input, has_more_than_flag, plain_header};
ghost use Rattle.fe2o3_scram.specs.Texts.{Part, LastPart, HasBase64, base64_text};

use crate::scram_messages::attributes::{CHANNEL_BINDING_KEY, NONCE_KEY, PROOF_KEY};
use crate::scram_messages::client_header::ClientHeader;
use crate::scram_messages::error::ServerScramErrorKind;
use crate::scram_messages::grammar::is_misplaced;
use crate::texts::{after, attribute, bytes_of, last_part};
use std::alloc::Global;

/// What a client-final message names (RFC 5802, section 7).
#[derive(Debug, Drop)]
pub struct ClientFinal<'a> {
    /// The text before the proof and its comma, as it was sent.
    pub without_proof: &'a str,

    /// The client's proof, of any length.
    pub proof: Vec<u8>,
}

impl<'a> ClientFinal<'a> {
    /// Reads a client-final message (RFC 5802, sections 5.1 and 7), up to the test of its proof. The nonce is that of
    /// both sides, as the server-first message named it. The GS2 header of the client-first message was `n,,`.
    ///
    /// The errors are, in this order: `Utf8Error` if the text is not UTF-8 (RFC 3629); for the channel binding
    /// `CannotParseClientFinalMessage`, `Base64DecodeError` and `InvalidChannelBinding`; for the nonce
    /// `CannotParseClientFinalMessage` and `IncorrectClientFinalNonce`; for the proof `ProofNotFoundInClientFinal` and
    /// `Base64DecodeError`. Parts between the nonce and the proof are ignored. `OutOfMemory` is returned only for a
    /// channel binding other than `biws`, or if the proof is read.
    pub fn parse(
        alloc: Global,
        client_server_nonce: &[u8],
        text: &'a [u8],
    ) -> Result<Self, ServerScramErrorKind>
        ensures { Gives ServerScramErrorKind.OutOfMemory
            (ReachesBase64 plain_header client_server_nonce.now text.now) client_final_values result
            (ReadsFinalText plain_header false client_server_nonce.now text.now) }
    {
        ClientFinal::parse_with_header(
            alloc,
            &ClientHeader::plain(),
            false,
            client_server_nonce,
            text,
        )
    }

    /// Like `parse`, of a client with this header: its channel binding has to be the GS2 header and the data of the
    /// channel, in base64, instead of `biws` (`ServerRules::expected_channel`). After the other errors a
    /// `strict` server returns `MisplacedAttribute` if a part between the nonce and the proof is no extension (RFC 5802,
    /// section 7); `compute_server_final_message_with_header` is so to each header but `n,,`. If a channel or an identity is
    /// expected, `OutOfMemory` may be returned for any channel binding.
    pub fn parse_with_header(
        alloc: Global,
        header: &ClientHeader<'_>,
        strict: bool,
        client_server_nonce: &[u8],
        text: &'a [u8],
    ) -> Result<Self, ServerScramErrorKind>
        ensures { Gives ServerScramErrorKind.OutOfMemory (ReachesBase64 header.now client_server_nonce.now text.now)
            client_final_values result (ReadsFinalText header.now strict client_server_nonce.now text.now) }
    {
        let Ok(client_final) = str::from_utf8(text) else {
            return Err(ServerScramErrorKind::Utf8Error);
        };
        test_binding(alloc, header, client_final)?;
        test_nonce(client_server_nonce, client_final)?;
        read_proof(alloc, strict, client_final)
    }
}

/// Tests that the client repeats its GS2 header, and has the channel that the server expects.
fn test_binding(
    alloc: Global,
    header: &ClientHeader<'_>,
    client_final: &str,
) -> Result<(), ServerScramErrorKind>
    ensures tested { OnOk result (NoneHolds (binding_tests header.now client_final.now)) }
    ensures bound { OnOk result (HasBase64 client_final.now 0 (codes "c=") (cbind_input header.now)) }
    ensures memory { IfErr result (λ kind. kind ≡ ServerScramErrorKind.OutOfMemory
        → ReachesBinding header.now client_final.now) }
    ensures err { IfErr result (λ kind. kind ≢ ServerScramErrorKind.OutOfMemory
        → IsFirst (binding_tests header.now client_final.now) kind) }
{
    let Some(base64_binding) = attribute(client_final, 0, CHANNEL_BINDING_KEY) else {
        return Err(ServerScramErrorKind::CannotParseClientFinalMessage);
    };
    if is_header_alone(header, base64_binding) {
        return Ok(());
    }
    let Some(binding) = bytes_of(alloc, base64_binding)? else {
        return Err(ServerScramErrorKind::Base64DecodeError);
    };
    let is_expected = header.is_cbind_input(alloc, &binding)?;
    if !is_expected {
        return Err(ServerScramErrorKind::InvalidChannelBinding);
    }
    Ok(())
}

/// Returns whether the text is the expected GS2 header in base64, and neither a channel nor an identity is expected.
fn is_header_alone(header: &ClientHeader<'_>, base64_binding: &str) -> bool
    ensures same { result ≡ true → base64_binding.now ≡ base64_text (cbind_input header.now) }
    ensures unbound { result ≡ true → has_more_than_flag header.now ≡ false }
    ensures other { result ≡ false → has_more_than_flag header.now ≡ false
        → base64_binding.now ≢ base64_text (cbind_input header.now) }
{
    match header.plain_base64() {
        Some(own) => base64_binding == own,
        None => false,
    }
}

/// Tests that the nonce is that of the challenge.
fn test_nonce(client_server_nonce: &[u8], client_final: &str) -> Result<(), ServerScramErrorKind>
    ensures tested { OnOk result (NoneHolds (final_nonce_tests client_server_nonce.now client_final.now)) }
    ensures same { OnOk result (Part client_final.now 1 (codes "r=" ++ client_server_nonce.now)) }
    ensures err { IfErr result (IsFirst (final_nonce_tests client_server_nonce.now client_final.now)) }
{
    let Some(nonce) = attribute(client_final, 1, NONCE_KEY) else {
        return Err(ServerScramErrorKind::CannotParseClientFinalMessage);
    };
    if nonce.as_bytes() != client_server_nonce {
        return Err(ServerScramErrorKind::IncorrectClientFinalNonce);
    }
    Ok(())
}

/// Returns the proof, and the text before it, which has only extensions after the nonce if the server is `strict`.
fn read_proof(
    alloc: Global,
    strict: bool,
    client_final: &str,
) -> Result<ClientFinal<'_>, ServerScramErrorKind>
    ensures tested { IfOk result (λ _. NoneHolds (spelling_tests strict client_final.now)) }
    ensures named { IfOk result (λ final. HasProof client_final.now (client_final_values final)) }
    ensures memory { IfErr result (λ kind. kind ≡ ServerScramErrorKind.OutOfMemory
        → (before : List ℕ) × (rest : List ℕ) × LastPart client_final.now before (codes "p=" ++ rest)) }
    ensures err { IfErr result (λ kind. kind ≢ ServerScramErrorKind.OutOfMemory
        → IsFirst (spelling_tests strict client_final.now) kind) }
{
    let Some((without_proof, last)) = last_part(client_final) else {
        return Err(ServerScramErrorKind::ProofNotFoundInClientFinal);
    };
    let Some(base64_proof) = after(last, PROOF_KEY) else {
        return Err(ServerScramErrorKind::ProofNotFoundInClientFinal);
    };
    let Some(proof) = bytes_of(alloc, base64_proof)? else {
        return Err(ServerScramErrorKind::Base64DecodeError);
    };
    if is_misplaced(strict, without_proof, 2) {
        return Err(ServerScramErrorKind::MisplacedAttribute);
    }
    Ok(ClientFinal {
        without_proof,
        proof,
    })
}
