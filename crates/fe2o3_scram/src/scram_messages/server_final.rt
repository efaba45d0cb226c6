//! The server-final message, which answers a client-final message.

ghost use Rattle.std.specs.Prelude.{◌≡◌, ◌≤◌, ◌<◌, ◌+◌, ◌++◌, ◌^◌, Bool, ℕ, List, length, IfOk, codes, false, true};
ghost use Rattle.fe2o3_scram.specs.ChannelBinding.{ClientHeader as HeaderOf, plain_header};
ghost use Rattle.fe2o3_scram.specs.Texts.{base64_text};
ghost use Rattle.fe2o3_scram.specs.Hmac.{digest_len};
ghost use Rattle.fe2o3_scram.specs.Keys.{server_signature};
ghost use Rattle.fe2o3_scram.specs.Credentials.{kept};
ghost use Rattle.fe2o3_scram.specs.Readings.{Gives};
ghost use Rattle.fe2o3_scram.specs.ClientFinal.{ReachesBase64, server_of, client_final_values};
ghost use Rattle.fe2o3_scram.specs.ServerFinal.{AnswersClientFinal, FinalCosts};
ghost use Rattle.fe2o3_scram.specs.private.Answers.{AnswersProof, IsMet, ProofCosts};
ghost use Rattle.fe2o3_scram.specs.private.Pieces.{whole};

use crate::OutOfMemory;
use crate::hmac::{Meter, ScramVersion};
use crate::keys::auth_pieces;
use crate::provider::StoredPassword;
use crate::scram_messages::attributes::VERIFIER_KEY;
use crate::scram_messages::client_final_reading::ClientFinal;
use crate::scram_messages::client_header::ClientHeader;
use crate::scram_messages::error::ServerScramErrorKind;
use crate::texts::{base64_len, push_base64};
use std::alloc::Global;

impl ScramVersion {
    /// Answers a client-final message (RFC 5802, sections 3 and 5), which has to fit the challenge, and whose proof has
    /// to meet the stored key. Keys are compared over the whole length, whatever the bytes are. That is read in the
    /// code and not proved; no claim is made about time.
    ///
    /// The texts are those of the challenge, as they were sent: the nonce of both sides, the client-first message
    /// without its GS2 header, which was `n,,`, and the server-first message. The version is that of the stored
    /// password.
    ///
    /// The errors are those of `ClientFinal::parse`, in its order, then `XorLengthMismatch` if the proof is not as long
    /// as a digest, and `AuthenticationFailed` if it does not meet the stored key. `OutOfMemory` is returned only where
    /// `ClientFinal::parse` allocates.
    pub fn compute_server_final_message(
        &self,
        alloc: Global,
        client_final: &[u8],
        client_server_nonce: &[u8],
        client_first_message_bare: &[u8],
        server_first_message: &[u8],
        stored_password: &StoredPassword<'_>,
    ) -> Result<Vec<u8>, ServerScramErrorKind>
        ensures { Gives ServerScramErrorKind.OutOfMemory
            (ReachesBase64 plain_header client_server_nonce.now client_final.now)
            (λ message. message.items) result
            (AnswersClientFinal (server_of self.now plain_header false client_first_message_bare.now
            server_first_message.now client_server_nonce.now (kept stored_password.now) true) client_final.now) }
    {
        self.compute_server_final_message_metered(
            alloc,
            client_final,
            client_server_nonce,
            client_first_message_bare,
            server_first_message,
            stored_password,
            &mut Meter::new(),
        )
    }

    /// Like `compute_server_final_message`; the meter, of at most 2^63, counts the HMAC values, also of an error.
    pub fn compute_server_final_message_metered(
        &self,
        alloc: Global,
        client_final: &[u8],
        client_server_nonce: &[u8],
        client_first_message_bare: &[u8],
        server_first_message: &[u8],
        stored_password: &StoredPassword<'_>,
        meter: &mut Meter,
    ) -> Result<Vec<u8>, ServerScramErrorKind>
        requires { meter.old ≤ 2 ^ 63 }
        ensures answer { Gives ServerScramErrorKind.OutOfMemory
            (ReachesBase64 plain_header client_server_nonce.now client_final.now)
            (λ message. message.items) result
            (AnswersClientFinal (server_of self.now plain_header false client_first_message_bare.now
            server_first_message.now client_server_nonce.now (kept stored_password.now) true) client_final.now) }
        ensures cost { FinalCosts (server_of self.now plain_header false client_first_message_bare.now
            server_first_message.now client_server_nonce.now (kept stored_password.now) true) client_final.now result
            meter.old meter.new }
    {
        self.compute_server_final_message_with_header(
            alloc,
            &ClientHeader::plain(),
            false,
            client_final,
            client_server_nonce,
            client_first_message_bare,
            server_first_message,
            stored_password,
            true,
            meter,
        )
    }

    /// Like `compute_server_final_message_metered`, to a client with this header, of a server that is `strict` or not
    /// (`ClientFinal::parse_with_header`). A server that expects a channel, `y,,` or an identity is strict in any case. A
    /// user who may not act for the identity gets `AuthenticationFailed`, after the proof is tested and before the answer
    /// is signed.
    pub fn compute_server_final_message_with_header(
        &self,
        alloc: Global,
        header: &ClientHeader<'_>,
        strict: bool,
        client_final: &[u8],
        client_server_nonce: &[u8],
        client_first_message_bare: &[u8],
        server_first_message: &[u8],
        stored_password: &StoredPassword<'_>,
        may_act: bool,
        meter: &mut Meter,
    ) -> Result<Vec<u8>, ServerScramErrorKind>
        requires { meter.old ≤ 2 ^ 63 }
        ensures answer { Gives ServerScramErrorKind.OutOfMemory
            (ReachesBase64 header.now client_server_nonce.now client_final.now) (λ message. message.items) result
            (AnswersClientFinal (server_of self.now header.now strict client_first_message_bare.now
            server_first_message.now client_server_nonce.now (kept stored_password.now) may_act) client_final.now) }
        ensures cost { FinalCosts (server_of self.now header.now strict client_first_message_bare.now
            server_first_message.now client_server_nonce.now (kept stored_password.now) may_act) client_final.now result
            meter.old meter.new }
    {
        let strict = header.is_strict(strict);
        let client_final = ClientFinal::parse_with_header(
            alloc,
            header,
            strict,
            client_server_nonce,
            client_final,
        )?;
        self.answer_proof(
            alloc,
            &client_final,
            client_first_message_bare,
            server_first_message,
            stored_password,
            may_act,
            meter,
        )
    }

    /// Tests the proof of a parsed message and the right to act for the identity, and signs.
    fn answer_proof(
        &self,
        alloc: Global,
        client_final: &ClientFinal<'_>,
        client_first_message_bare: &[u8],
        server_first_message: &[u8],
        stored_password: &StoredPassword<'_>,
        may_act: bool,
        meter: &mut Meter,
    ) -> Result<Vec<u8>, ServerScramErrorKind>
        requires { meter.old ≤ 2 ^ 63 }
        ensures answer { (header : HeaderOf) (strict : Bool) (nonce : List ℕ) →
            let server = server_of self.now header strict client_first_message_bare.now server_first_message.now nonce
            (kept stored_password.now) may_act in
            Gives ServerScramErrorKind.OutOfMemory (IsMet server (client_final_values client_final.now))
            (λ message. message.items) result (AnswersProof server (client_final_values client_final.now)) }
        ensures cost { ProofCosts result meter.old meter.new }
    {
        if client_final.proof.len() != self.digest_len() {
            return Err(ServerScramErrorKind::XorLengthMismatch);
        }
        let auth_message = auth_pieces(
            client_first_message_bare,
            server_first_message,
            client_final.without_proof.as_bytes(),
        );
        let meets = self.meets_stored_key(
            stored_password.stored_key,
            &client_final.proof,
            &auth_message,
            meter,
        )?;
        if !meets || !may_act {
            return Err(ServerScramErrorKind::AuthenticationFailed);
        }
        Ok(self.server_final(alloc, stored_password.server_key, &auth_message, meter)?)
    }

    /// Writes the server-final message: one HMAC value.
    fn server_final(
        &self,
        alloc: Global,
        server_key: &[u8],
        auth_message: &[&[u8]],
        meter: &mut Meter,
    ) -> Result<Vec<u8>, OutOfMemory>
        requires { meter.old + 1 < 2 ^ 64 }
        ensures text { IfOk result (λ message. message.items ≡ codes "v="
            ++ base64_text (server_signature self.now server_key.now (whole auth_message.now))) }
        ensures counted { meter.new ≡ meter.old + 1 }
    {
        let server_signature = self.server_signature_over(server_key, auth_message, meter);
        let room = base64_len(self.digest_len()).saturating_add(VERIFIER_KEY.len());
        let mut text = String::with_capacity(alloc, room)?;
        text.push_str(VERIFIER_KEY)?;
        push_base64(&mut text, server_signature.as_slice())?;
        Ok(text.into_bytes())
    }
}
