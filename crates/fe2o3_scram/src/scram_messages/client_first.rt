//! The client-first message.

ghost use Rattle.std.specs.Prelude.{◌≡◌, IfOk};
ghost use Rattle.fe2o3_scram.specs.ChannelBinding.{header_of};
ghost use Rattle.fe2o3_scram.specs.ClientFirst.{client_first, client_first_bare, client_first_with};

use crate::OutOfMemory;
use crate::hmac::ScramVersion;
use crate::scram_messages::attributes::{NONCE_KEY, USERNAME_KEY};
use crate::scram_messages::client_header::ClientHeader;
use crate::scram_messages::escape::{escaped_len, push_escaped};
use bytes::Bytes;
use std::alloc::Global;

/// The length of `n=,r=`: all but the GS2 header, the user name and the nonce.
const FIXED_LEN: usize = 5;

impl ScramVersion {
    /// Writes the client-first message of a user without channel binding (RFC 5802, section 7). Returns it with and
    /// without its GS2 header; other calls take the latter as `client_first_message_bare`.
    ///
    /// The user name is plain, any list of bytes, and is escaped here. The nonce is a text without commas, and is
    /// written unchanged. The only error is `OutOfMemory`.
    pub fn client_first_message(
        &self,
        alloc: Global,
        username: &[u8],
        nonce: &[u8],
    ) -> Result<(Bytes, Bytes), OutOfMemory>
        ensures whole { IfOk result (λ message. message.0 ≡ client_first username.now nonce.now) }
        ensures bare { IfOk result (λ message. message.1 ≡ client_first_bare username.now nonce.now) }
    {
        self.client_first_message_with(alloc, &ClientHeader::plain(), username, nonce)
    }

    /// Like `client_first_message`, with this GS2 header.
    pub fn client_first_message_with(
        &self,
        alloc: Global,
        header: &ClientHeader<'_>,
        username: &[u8],
        nonce: &[u8],
    ) -> Result<(Bytes, Bytes), OutOfMemory>
        ensures whole { IfOk result (λ message. message.0 ≡ client_first_with (header_of header.now) username.now nonce.now) }
        ensures bare { IfOk result (λ message. message.1 ≡ client_first_bare username.now nonce.now) }
    {
        let room = FIXED_LEN
            .saturating_add(header.text_len())
            .saturating_add(escaped_len(username))
            .saturating_add(nonce.len());
        let mut text = Vec::with_capacity(alloc, room)?;
        header.push_text(&mut text)?;
        let start = text.len();
        text.extend_from_slice(USERNAME_KEY.as_bytes())?;
        push_escaped(&mut text, username)?;
        text.push(b',')?;
        text.extend_from_slice(NONCE_KEY.as_bytes())?;
        text.extend_from_slice(nonce)?;
        let client_first_message = Bytes::from_vec(text)?;
        let client_first_message_bare = client_first_message.slice(start..)?;
        Ok((client_first_message, client_first_message_bare))
    }
}
