//! The client-final message, which answers a server-first message.

ghost use Rattle.std.specs.Prelude.{◌≡◌, ◌≤◌, ◌<◌, ◌+◌, ◌^◌, IfOk, IfErr, OnOk, OnErr, false, string_bytes};
ghost use Rattle.fe2o3_scram.specs.ChannelBinding.{plain_header};
ghost use Rattle.fe2o3_scram.specs.ClientFinal.{answer_by, answer_values, client_final_of, keys_for, without_proof, without_proof_with};
ghost use Rattle.fe2o3_scram.specs.ClientKeys.{keys_of};
ghost use Rattle.fe2o3_scram.specs.ClientSecret.{Password as ByPassword, no_limit, secret_of, up_to};
ghost use Rattle.fe2o3_scram.specs.Keys.{auth_message};
ghost use Rattle.fe2o3_scram.specs.Passwords.{Typed, password_bytes, password_of};
ghost use Rattle.fe2o3_scram.specs.Readings.{Gives};
ghost use Rattle.fe2o3_scram.specs.ServerFirst.{ReachesSalt, client_of, server_first_values};
ghost use Rattle.fe2o3_scram.specs.ServerFirstAnswers.{AnswerCosts, AnswersServerFirst, SendsServerFirst, hmac_count, pair_values};
ghost use Rattle.fe2o3_scram.specs.private.Serving.{Serves};

use crate::OutOfMemory;
use crate::client_secret::{ClientSecret, IterationLimits};
use crate::hmac::{Meter, ScramVersion};
use crate::keys::{CachedKeys, auth_message, auth_pieces};
use crate::passwords::Password;
use crate::scram_messages::attributes::{CHANNEL_BINDING_KEY, NONCE_KEY, PROOF_KEY};
use crate::scram_messages::client_header::ClientHeader;
use crate::scram_messages::error::ScramErrorKind;
use crate::scram_messages::server_first_reading::ServerFirst;
use crate::texts::{base64_len, push_base64};
use std::alloc::Global;

/// The length of `c=,r=,p=`: all but the channel binding, the nonce and the proof.
const FIXED_LEN: usize = 8;

/// A client's answer to a server-first message (RFC 5802, sections 3 and 5).
#[derive(Drop)]
pub struct ClientAnswer {
    /// The client-final message.
    pub message: Vec<u8>,

    /// The signature that the server-final message has to show.
    pub signature: Vec<u8>,

    /// The keys that the answer was made by, with the salt and the iteration count that the server named. Keep them
    /// only once the server has shown the signature: until then anybody may have named that salt.
    pub keys: CachedKeys,
}

impl ScramVersion {
    /// Answers a server-first message (RFC 5802, sections 3 and 5). Returns the client-final message and the signature
    /// that the server-final message has to show. Every iteration count from 1 on is accepted.
    ///
    /// `client_nonce` is the nonce of the client-first message, and `client_first_message_bare` that message without
    /// its GS2 header, both as they were sent. `server_first` is the server's text as received. The password is not
    /// prepared, and has to be printable ASCII (RFC 4013, section 2).
    ///
    /// The errors are those of `ServerFirst::parse`, in its order. `OutOfMemory` is returned only if no error before
    /// `Base64DecodeError` applies.
    pub fn compute_client_final_message(
        &self,
        alloc: Global,
        client_nonce: &str,
        password: &str,
        server_first: &str,
        client_first_message_bare: &[u8],
    ) -> Result<(Vec<u8>, Vec<u8>), ScramErrorKind>
        ensures { Gives ScramErrorKind.OutOfMemory (ReachesSalt client_nonce.now server_first.now) pair_values result
            (SendsServerFirst self.now
            (client_of client_nonce.now (ByPassword (Typed password.now)) (up_to no_limit) plain_header false)
            client_first_message_bare.now server_first.now) }
    {
        self.compute_client_final_message_metered(
            alloc,
            client_nonce,
            password,
            server_first,
            client_first_message_bare,
            &mut Meter::new(),
        )
    }

    /// Like `compute_client_final_message`; the meter, of at most 2^63, counts the HMAC values, also of an error.
    pub fn compute_client_final_message_metered(
        &self,
        alloc: Global,
        client_nonce: &str,
        password: &str,
        server_first: &str,
        client_first_message_bare: &[u8],
        meter: &mut Meter,
    ) -> Result<(Vec<u8>, Vec<u8>), ScramErrorKind>
        requires { meter.old ≤ 2 ^ 63 }
        ensures answer { Gives ScramErrorKind.OutOfMemory (ReachesSalt client_nonce.now server_first.now)
            pair_values result
            (SendsServerFirst self.now
            (client_of client_nonce.now (ByPassword (Typed password.now)) (up_to no_limit) plain_header false)
            client_first_message_bare.now server_first.now) }
        ensures cost { AnswerCosts
            (client_of client_nonce.now (ByPassword (Typed password.now)) (up_to no_limit) plain_header false)
            server_first.now result meter.old meter.new }
    {
        self.compute_client_final_message_limited(
            alloc,
            client_nonce,
            password,
            server_first,
            client_first_message_bare,
            u32::MAX,
            meter,
        )
    }

    /// Like `compute_client_final_message_metered`, but rejects an iteration count above the limit before any HMAC
    /// value is made.
    pub fn compute_client_final_message_limited(
        &self,
        alloc: Global,
        client_nonce: &str,
        password: &str,
        server_first: &str,
        client_first_message_bare: &[u8],
        limit: u32,
        meter: &mut Meter,
    ) -> Result<(Vec<u8>, Vec<u8>), ScramErrorKind>
        requires { meter.old ≤ 2 ^ 63 }
        ensures answer { Gives ScramErrorKind.OutOfMemory (ReachesSalt client_nonce.now server_first.now)
            pair_values result
            (SendsServerFirst self.now
            (client_of client_nonce.now (ByPassword (Typed password.now)) (up_to limit) plain_header false)
            client_first_message_bare.now server_first.now) }
        ensures cost { AnswerCosts (client_of client_nonce.now (ByPassword (Typed password.now)) (up_to limit) plain_header false)
            server_first.now result meter.old meter.new }
    {
        let answer = self.answer_server_first(
            alloc,
            client_nonce,
            ClientSecret::Password(Password::Typed(password)),
            server_first,
            client_first_message_bare,
            IterationLimits::up_to(limit),
            &ClientHeader::plain(),
            false,
            meter,
        )?;
        Ok((answer.message, answer.signature))
    }

    /// Answers a server-first message by a secret, if its iteration count is within the limits. The header is
    /// that of the client-first message. The other arguments are those of `compute_client_final_message`. The version
    /// is that of an answer by the password; an answer by keys has theirs.
    ///
    /// The errors are those of `ServerFirst::parse_with_header`, in its order. `OutOfMemory` is returned only if no error
    /// before `Base64DecodeError` applies.
    ///
    /// The meter, of at most 2^63, counts the HMAC values: two by keys, by the password four more than the iterations,
    /// and none for an error.
    pub fn answer_server_first(
        &self,
        alloc: Global,
        client_nonce: &str,
        secret: ClientSecret<'_>,
        server_first: &str,
        client_first_message_bare: &[u8],
        limits: IterationLimits,
        header: &ClientHeader<'_>,
        strict: bool,
        meter: &mut Meter,
    ) -> Result<ClientAnswer, ScramErrorKind>
        requires { meter.old ≤ 2 ^ 63 }
        ensures answer { Gives ScramErrorKind.OutOfMemory (ReachesSalt client_nonce.now server_first.now)
            answer_values result
            (AnswersServerFirst self.now (client_of client_nonce.now (secret_of secret.entry) limits header.now strict)
            client_first_message_bare.now server_first.now) }
        ensures cost { AnswerCosts (client_of client_nonce.now (secret_of secret.entry) limits header.now strict)
            server_first.now result meter.old meter.new }
    {
        let first = ServerFirst::read(
            alloc,
            client_nonce,
            secret,
            limits,
            header,
            strict,
            server_first,
        )?;
        let message = without_proof(alloc, header, first.nonce, self.digest_len())?;
        let keys = self.keys_for(secret, first, meter);
        let answer = keys.answer(
            alloc,
            message,
            client_first_message_bare,
            server_first,
            meter,
        )?;
        Ok(answer)
    }

    /// Returns the keys to answer a message by. The secret has to serve for it.
    fn keys_for(
        &self,
        secret: ClientSecret<'_>,
        first: ServerFirst<'_>,
        meter: &mut Meter,
    ) -> CachedKeys
        requires some { 1 ≤ first.iterations }
        requires serves { Serves (secret_of secret) (server_first_values first) }
        requires meter { meter.old ≤ 2 ^ 63 }
        ensures keys { result ≡ keys_for self.now (secret_of secret.entry) (server_first_values first.entry) }
        ensures counted { meter.new + 2 ≡ meter.old + hmac_count (secret_of secret.entry)
            (server_first_values first.entry) }
    {
        match secret {
            ClientSecret::Password(password) => self.keys_of(password, first, meter),
            ClientSecret::Keys(keys) => keys.with_salt(first.salt),
            ClientSecret::PasswordAndKeys { password, keys } => {
                if keys.are_of(&first.salt, first.iterations) {
                    keys.with_salt(first.salt)
                } else {
                    self.keys_of(password, first, meter)
                }
            }
        }
    }

    /// Computes the keys of a password with the salt and the count that a message names.
    fn keys_of(
        &self,
        password: Password<'_>,
        first: ServerFirst<'_>,
        meter: &mut Meter,
    ) -> CachedKeys
        requires some { 1 ≤ first.iterations }
        requires meter { meter.old ≤ 2 ^ 63 }
        ensures keys { result
            ≡ keys_of self.now (password_bytes (password_of password.entry)) first.entry.salt.items first.entry.iterations }
        ensures counted { meter.new ≡ meter.old + (first.entry.iterations + 2) }
    {
        let salted_password = self.salted_password(
            password.as_str().as_bytes(),
            &first.salt,
            first.iterations,
            meter,
        );
        CachedKeys::from_salted_password(
            *self,
            first.salt,
            first.iterations,
            salted_password.as_slice(),
            meter,
        )
    }
}

impl CachedKeys {
    /// Computes the answer by the keys (RFC 5802, section 3), from the text before the proof: two HMAC values.
    fn answer(
        self,
        alloc: Global,
        mut message: String,
        client_first_message_bare: &[u8],
        server_first: &str,
        meter: &mut Meter,
    ) -> Result<ClientAnswer, ScramErrorKind>
        requires { meter.old + 2 < 2 ^ 64 }
        ensures answer { IfOk result (λ answer. answer_values answer
            ≡ answer_by self client_first_message_bare.now server_first.now (string_bytes message)) }
        ensures counted { OnOk result (meter.new ≡ meter.old + 2) }
        ensures memory { IfErr result (λ kind. kind ≡ ScramErrorKind.OutOfMemory) }
        ensures at_most { OnErr result (meter.new ≤ meter.old + 2) }
        ensures never_falls { meter.old ≤ meter.new }
    {
        let auth_message = auth_pieces(
            client_first_message_bare,
            server_first.as_bytes(),
            message.as_bytes(),
        );
        let proof = self.client_proof(&auth_message, meter);
        let signature = self
            .scram_version()
            .server_signature_over(self.server_key(), &auth_message, meter);
        push_proof(&mut message, proof.as_slice())?;
        Ok(ClientAnswer {
            message: message.into_bytes(),
            signature: signature.as_slice().to_vec(alloc)?,
            keys: self,
        })
    }
}

impl ServerFirst<'_> {
    /// Concatenates the AuthMessage of an answer to this message (RFC 5802, section 3), for code that makes or tests
    /// its proof. `client_first_message_bare` and `server_first_message` are the texts as they were sent, and are not
    /// parsed. The client-final message is that of a client without channel binding.
    ///
    /// The only error is `OutOfMemory`.
    pub fn auth_message(
        &self,
        alloc: Global,
        client_first_message_bare: &[u8],
        server_first_message: &[u8],
    ) -> Result<Vec<u8>, OutOfMemory>
        ensures { IfOk result (λ text. text.items ≡ auth_message client_first_message_bare.now
            server_first_message.now (without_proof self.now.nonce.now)) }
    {
        let without_proof = without_proof(alloc, &ClientHeader::plain(), self.nonce, 0)?;
        auth_message(
            alloc,
            client_first_message_bare,
            server_first_message,
            without_proof.as_bytes(),
        )
    }
}

/// Writes the text before the proof: the channel binding in base64, and the nonce of both sides. Reserves room for a
/// proof of this length.
fn without_proof(
    alloc: Global,
    header: &ClientHeader<'_>,
    client_server_nonce: &str,
    proof_len: usize,
) -> Result<String, OutOfMemory>
    ensures { IfOk result (λ text. string_bytes text ≡ without_proof_with header.now client_server_nonce.now) }
{
    let room = FIXED_LEN
        .saturating_add(base64_len(header.cbind_input_len()))
        .saturating_add(client_server_nonce.len())
        .saturating_add(base64_len(proof_len));
    let mut text = String::with_capacity(alloc, room)?;
    text.push_str(CHANNEL_BINDING_KEY)?;
    header.push_cbind_input(alloc, &mut text)?;
    text.push_str(",")?;
    text.push_str(NONCE_KEY)?;
    text.push_str(client_server_nonce)?;
    Ok(text)
}

/// Appends the proof, which completes the client-final message.
fn push_proof(text: &mut String, client_proof: &[u8]) -> Result<(), OutOfMemory>
    ensures { OnOk result (string_bytes text.new ≡ client_final_of (string_bytes text.old) client_proof.now) }
{
    text.push_str(",")?;
    text.push_str(PROOF_KEY)?;
    push_base64(text, client_proof)
}
