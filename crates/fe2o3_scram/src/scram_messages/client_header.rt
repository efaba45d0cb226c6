//! What a client puts before its name, and repeats under its proof (RFC 5802, sections 6 and 7).

ghost use Rattle.std.specs.Prelude.{◌≡◌, ◌++◌, ◌||◌, ◌↔◌, true, false, IfOk, OnOk, MatchOption, option_map, string_bytes};
ghost use Rattle.fe2o3_scram.specs.ChannelBinding.{cbind_input, has_more_than_flag, header_of, header_text, needs_strict, plain_header};
ghost use Rattle.fe2o3_scram.specs.Texts.{base64_text};

use crate::OutOfMemory;
use crate::scram_messages::attributes::{
    AUTHZID_KEY, GS2_HEADER_BASE64, UNOFFERED_GS2_HEADER_BASE64,
};
use crate::scram_messages::client_channel::ClientChannel;
use crate::scram_messages::escape::{escaped_len, push_escaped};
use crate::texts::push_base64;
use std::alloc::Global;
use std::marker::Model;

/// What a client says in its GS2 header, and the channel that it binds (RFC 5802, section 6).
#[derive(Drop)]
pub struct ClientHeader<'a> {
    channel: ClientChannel,
    acts_for: Option<&'a str>,
}

impl<'a> Model for ClientHeader<'a> {
    ghost use Rattle.std.specs.Prelude.{option_map};
    ghost use Rattle.fe2o3_scram.specs.ChannelBinding.{ClientHeader};

    ghost Value = { ClientHeader };

    ghost view = { λ header. record {
      channel = header.channel;
      acts_for = option_map (λ name. name.now) header.acts_for;
    } };
}

impl<'a> ClientHeader<'a> {
    /// Returns the header of a client that says this of its channel, and acts for this identity, or for itself.
    pub fn new(channel: ClientChannel, acts_for: Option<&'a str>) -> Self
        ensures { result ≡ record { channel = channel; acts_for = option_map (λ name. name.now) acts_for.entry } }
    {
        ClientHeader { channel, acts_for }
    }

    /// Returns the header of a client that binds no channel and acts for itself: `n,,`.
    pub fn plain() -> Self
        ensures { result ≡ plain_header }
    {
        ClientHeader::new(ClientChannel::Absent, None)
    }

    /// Returns whether a side that sends or expects this header has to be strict: the client
    /// has a channel, whether it binds it or not, or names an identity.
    pub fn needs_strict(&self) -> bool
        ensures { result ≡ needs_strict self.now }
    {
        self.channel.is_there() || self.acts_for.is_some()
    }

    /// Returns whether a side with this header is strict: it has to be, or is set to.
    pub(crate) fn is_strict(&self, strict: bool) -> bool
        ensures { result ≡ (needs_strict self.now || strict) }
    {
        self.needs_strict() || strict
    }

    /// Returns how many bytes the GS2 header has. It only sizes a buffer: no contract rests on it.
    pub(crate) fn text_len(&self) -> usize {
        let name_len = match self.acts_for {
            Some(name) => escaped_len(name.as_bytes()).saturating_add(AUTHZID_KEY.len()),
            None => 0,
        };
        self.channel.flag().text().len().saturating_add(name_len)
    }

    /// Returns how many bytes the channel binding has. It only sizes a buffer: no contract rests on it.
    pub(crate) fn cbind_input_len(&self) -> usize {
        self.text_len().saturating_add(self.channel.data().len())
    }

    /// Appends the GS2 header (RFC 5802, section 7).
    pub(crate) fn push_text(&self, text: &mut Vec<u8>) -> Result<(), OutOfMemory>
        ensures { OnOk result (text.new.items ≡ text.old.items ++ header_text (header_of self.now)) }
    {
        let Some(name) = self.acts_for else {
            return text.extend_from_slice(self.channel.flag().text().as_bytes());
        };
        text.extend_from_slice(self.channel.flag().name().as_bytes())?;
        text.push(b',')?;
        text.extend_from_slice(AUTHZID_KEY.as_bytes())?;
        push_escaped(text, name.as_bytes())?;
        text.push(b',')?;
        Ok(())
    }

    /// Writes the channel binding (RFC 5802, section 7): the GS2 header and the data of the channel.
    fn cbind_input(&self, alloc: Global) -> Result<Vec<u8>, OutOfMemory>
        ensures { IfOk result (λ input. input.items ≡ cbind_input self.now) }
    {
        let mut input = Vec::with_capacity(alloc, self.cbind_input_len())?;
        self.push_text(&mut input)?;
        input.extend_from_slice(self.channel.data())?;
        Ok(input)
    }

    /// Returns whether these bytes are the channel binding of this client. They are compared over their whole length.
    pub(crate) fn is_cbind_input(&self, alloc: Global, bytes: &[u8]) -> Result<bool, OutOfMemory>
        ensures { IfOk result (λ is. (is ≡ true) ↔ (bytes.now ≡ cbind_input self.now)) }
    {
        let own = self.cbind_input(alloc)?;
        Ok(bytes == own.as_slice())
    }

    /// Appends the channel binding in base64. It is copied first if a channel is bound or an identity is named.
    pub(crate) fn push_cbind_input(
        &self,
        alloc: Global,
        text: &mut String,
    ) -> Result<(), OutOfMemory>
        ensures { OnOk result (string_bytes text.new ≡ string_bytes text.old ++ base64_text (cbind_input self.now)) }
    {
        if let Some(spelled) = self.plain_base64() {
            return text.push_str(spelled);
        }
        let input = self.cbind_input(alloc)?;
        push_base64(text, &input)
    }

    /// Returns the channel binding in base64 of a client that binds no channel and acts for itself, if this is one.
    pub(crate) fn plain_base64(&self) -> Option<&'static str>
        ensures { MatchOption result (has_more_than_flag self.now ≡ true)
            (λ text. (has_more_than_flag self.now ≡ false) × (text.now ≡ base64_text (cbind_input self.now))) }
    {
        if self.acts_for.is_some() {
            return None;
        }
        match &self.channel {
            ClientChannel::Absent => Some(GS2_HEADER_BASE64),
            ClientChannel::NotOffered => Some(UNOFFERED_GS2_HEADER_BASE64),
            ClientChannel::Bound(_) => None,
        }
    }
}
