//! Reads the server-final message.

ghost use Rattle.std.specs.Prelude.{◌||◌, false};
ghost use Rattle.fe2o3_scram.specs.ChannelBinding.{needs_strict};
ghost use Rattle.fe2o3_scram.specs.Readings.{Gives};
ghost use Rattle.fe2o3_scram.specs.ServerFinal.{ReachesVerifier, ReadsServerFinal, ReadsSignature};

use crate::hmac::ScramVersion;
use crate::same_bytes::same_bytes;
use crate::scram_messages::attributes::VERIFIER_KEY;
use crate::scram_messages::client_header::ClientHeader;
use crate::scram_messages::error::ScramErrorKind;
use crate::scram_messages::grammar::is_misplaced;
use crate::texts::{attribute, bytes_of};
use std::alloc::Global;

/// What a server-final message names (RFC 5802, section 7).
#[derive(Debug, Drop)]
pub struct ServerFinal {
    /// The server's signature, of any length.
    pub signature: Vec<u8>,
}

impl ServerFinal {
    /// Reads a server-final message (RFC 5802, sections 5.1 and 7), without a test of its signature.
    ///
    /// The errors are, in this order: `Utf8Error` if the text is not UTF-8 (RFC 3629), `ServerSignatureMismatch` if the
    /// first part does not begin with `v=`, and `Base64DecodeError`. Parts after the first are ignored. `OutOfMemory`
    /// is returned only if neither of the first two errors applies.
    pub fn parse(alloc: Global, text: &[u8]) -> Result<Self, ScramErrorKind>
        ensures { Gives ScramErrorKind.OutOfMemory (ReachesVerifier text.now)
            (λ message. message.signature.items) result (ReadsSignature false text.now) }
    {
        ServerFinal::read(alloc, false, text)
    }

    /// Reads a server-final message like `parse`. After the other errors a `strict` client returns `MisplacedAttribute` if
    /// a part after the signature is no extension (RFC 5802, section 7).
    fn read(alloc: Global, strict: bool, text: &[u8]) -> Result<Self, ScramErrorKind>
        ensures { Gives ScramErrorKind.OutOfMemory (ReachesVerifier text.now)
            (λ message. message.signature.items) result (ReadsSignature strict text.now) }
    {
        let Ok(server_final) = str::from_utf8(text) else {
            return Err(ScramErrorKind::Utf8Error);
        };
        let Some(base64_signature) = attribute(server_final, 0, VERIFIER_KEY) else {
            return Err(ScramErrorKind::ServerSignatureMismatch);
        };
        let Some(signature) = bytes_of(alloc, base64_signature)? else {
            return Err(ScramErrorKind::Base64DecodeError);
        };
        if is_misplaced(strict, server_final, 1) {
            return Err(ScramErrorKind::MisplacedAttribute);
        }
        Ok(ServerFinal { signature })
    }
}

impl ScramVersion {
    /// Tests that the server-final message has this signature (RFC 5802, section 5), which is the second value of the
    /// client's answer, and not in base64. Parts after the first are ignored. The signature is compared over its whole
    /// length, whatever the bytes are. That is read in the code and not proved; no claim is made about time.
    ///
    /// The errors are, in this order: `Utf8Error`; `ServerSignatureMismatch` if the first part does not begin with
    /// `v=`; `Base64DecodeError`; `ServerSignatureMismatch` for another signature. `OutOfMemory` is returned only if
    /// neither of the first two errors applies. After `ServerSignatureMismatch`, `ServerError::parse` says whether the
    /// message is an error of the server, such as `e=invalid-proof`.
    pub fn validate_server_final(
        &self,
        alloc: Global,
        server_final: &[u8],
        server_signature: &[u8],
    ) -> Result<(), ScramErrorKind>
        ensures { Gives ScramErrorKind.OutOfMemory (ReachesVerifier server_final.now) (λ value. value) result
            (ReadsServerFinal false server_signature.now server_final.now) }
    {
        verify(alloc, false, server_final, server_signature)
    }

    /// Like `validate_server_final`, by a client with this header, which is `strict` or not. After the other errors of
    /// the text, and before another signature, a client that is strict, has a channel or sends an authorization
    /// identity returns `MisplacedAttribute` if a part after the signature is no extension (RFC 5802, section 7).
    pub fn validate_server_final_with_header(
        &self,
        alloc: Global,
        header: &ClientHeader<'_>,
        strict: bool,
        server_final: &[u8],
        server_signature: &[u8],
    ) -> Result<(), ScramErrorKind>
        ensures { Gives ScramErrorKind.OutOfMemory (ReachesVerifier server_final.now) (λ value. value) result
            (ReadsServerFinal (needs_strict header.now || strict) server_signature.now server_final.now) }
    {
        verify(
            alloc,
            header.is_strict(strict),
            server_final,
            server_signature,
        )
    }
}

/// Tests that the server-final message has this signature, by a client that is `strict` or not.
fn verify(
    alloc: Global,
    strict: bool,
    server_final: &[u8],
    server_signature: &[u8],
) -> Result<(), ScramErrorKind>
    ensures { Gives ScramErrorKind.OutOfMemory (ReachesVerifier server_final.now) (λ value. value) result
        (ReadsServerFinal strict server_signature.now server_final.now) }
{
    let message = ServerFinal::read(alloc, strict, server_final)?;
    if same_bytes(message.signature.as_slice(), server_signature) {
        Ok(())
    } else {
        Err(ScramErrorKind::ServerSignatureMismatch)
    }
}
