//! The texts of statuses, and the version and the sizes by which a caller tests its header.

ghost use Rattle.std.specs.Prelude.{◌≡◌};
ghost use Rattle.sasl_c.specs.Texts.{size_in, status_text, struct_sizes};

use crate::client::ScramClient;
use crate::connection::Connection;
use crate::frames::SaslFrameView;
use crate::keys::ScramKeys;
use crate::login::Login;
use crate::records::ScramRecord;
use crate::rules::ScramRules;
use crate::sasl_client::{SaslClient, SaslLogin};
use crate::sasl_server::{SaslServer, SaslServerConfig};
use crate::server::ScramServer;
use std::mem::size_of;

/// A text that the library lends for as long as it is loaded.
#[repr(C)]
#[derive(Drop)]
pub struct Text<'a> {
    /// The bytes. The last one is zero.
    pub bytes: &'a [u8],
}

/// Returns the text of a status.
fn text_of(status: u32) -> &'static [u8]
    ensures { result.now ≡ status_text status }
{
    match status {
        0 => b"Done\0",
        1 => b"Out of memory\0",
        2 => b"The room is too small\0",
        3 => b"Not UTF-8\0",
        4 => b"No such version\0",
        5 => b"Too long\0",
        6 => b"The password is not printable ASCII\0",
        7 => b"The iteration count is 0\0",
        8 => b"No such secret\0",
        9 => b"No keys\0",
        10 => b"The keys are of another version\0",
        11 => b"The password is not that of the record\0",
        12 => b"No such mechanism\0",
        13 => b"The connection has ended\0",
        14 => b"The struct of the connection is invalid\0",
        15 => b"No user name is claimed\0",
        16 => b"The records of the user are needed\0",
        20 => b"Client: Invalid UTF-8\0",
        21 => b"Client: InsufficientParts\0",
        22 => b"Client: Extensions are not supported\0",
        23 => b"Client: Cannot find Nonce in challenge\0",
        24 => b"Client: Server Nonce should start with client Nonce\0",
        25 => b"Client: Salt key is not found in challenge\0",
        26 => b"Client: Invalid base64\0",
        27 => b"Client: Iteration count is not found in challenge\0",
        28 => b"Client: Cannot parse iteration count\0",
        29 => b"Client: Iteration count too small\0",
        30 => b"Client: Iteration count too large\0",
        31 => b"Client: Error normalizing password\0",
        32 => b"Client: The cached keys are for another salt or iteration count\0",
        33 => b"Client: Invalid length\0",
        34 => b"Client: LHS and RHS of XOR have different length\0",
        35 => b"Client: Illegal SCRAM client state\0",
        36 => b"Client: Server signature mismatch\0",
        37 => b"Client: Attribute in the place of an extension\0",
        40 => b"Server: Invalid UTF-8\0",
        41 => b"Server: Cannot parse GS2-header\0",
        42 => b"Server: Error parsing username field\0",
        43 => b"Server: Error parsing client nonce\0",
        44 => b"Server: Invalid length\0",
        45 => b"Server: LHS and RHS of XOR have different length\0",
        46 => b"Server: Error normalizing password\0",
        47 => b"Server: Error parsing client final message\0",
        48 => b"Server: Invalid channel binding\0",
        49 => b"Server: Invalid base64\0",
        50 => b"Server: Client final message has an incorrect nonce\0",
        51 => b"Server: Client final message doesn't have a proof\0",
        52 => b"Server: Authentication failed\0",
        53 => b"Server: Illegal SCRAM client state\0",
        54 => b"Server: Attribute in the place of an extension\0",
        60 => b"Record: The record does not have five fields\0",
        61 => b"Record: Unknown SCRAM mechanism\0",
        62 => b"Record: Cannot parse iteration count\0",
        63 => b"Record: Invalid base64\0",
        64 => b"Record: Key length mismatch\0",
        65 => b"Line: Line feed missing\0",
        66 => b"Line: Space missing\0",
        67 => b"Line: Cannot parse username\0",
        68 => b"Lines: No such user\0",
        69 => b"Line: The line cannot be written\0",
        70 => b"Connection: The header is not that of SASL\0",
        71 => b"Connection: The frame size is out of range\0",
        72 => b"Connection: Unexpected frame\0",
        73 => b"Connection: The reply does not fit in a frame\0",
        74 => b"Connection: Decode Error\0",
        75 => b"Connection: No SASL frame\0",
        76 => b"Connection: Too large\0",
        77 => b"Connection: Not implemented\0",
        81 => b"Connection: The login was rejected\0",
        82 => b"Connection: The login was rejected: system error\0",
        83 => b"Connection: The login was rejected: permanent system error\0",
        84 => b"Connection: The login was rejected: temporary system error\0",
        85 => b"No such choice\0",
        86 => b"The text holds a prohibited character\0",
        87 => b"The text mixes directions\0",
        88 => b"The text holds an unassigned code point\0",
        89 => b"Client: The server sent an error\0",
        90 => b"Connection: The other side ended the stream before the negotiation was complete\0",
        91 => b"Channel binding data of a wrong length\0",
        92 => b"No such channel\0",
        93 => b"The password is empty\0",
        _ => b"Unknown status\0",
    }
}

/// Writes the text of a status to `text`. It ends with a zero byte and stays valid for as long as the library is
/// loaded.
#[unsafe(no_mangle)]
pub extern "C" fn fe2o3_status_text(status: u32, text: &mut Text<'static>)
    ensures { text.new.bytes.now ≡ status_text status }
{
    text.bytes = text_of(status);
}

/// Returns how many bytes a struct has.
fn size(which: u32) -> usize
    ensures { result ≡ size_in struct_sizes which }
{
    match which {
        0 => size_of::<Login<'static>>(),
        1 => size_of::<ScramClient>(),
        2 => size_of::<ScramKeys>(),
        3 => size_of::<ScramServer>(),
        4 => size_of::<ScramRecord>(),
        5 => size_of::<Connection>(),
        6 => size_of::<SaslLogin<'static>>(),
        7 => size_of::<SaslClient>(),
        8 => size_of::<SaslFrameView<'static>>(),
        9 => size_of::<SaslServerConfig<'static>>(),
        10 => size_of::<SaslServer>(),
        11 => size_of::<ScramRules>(),
        _ => 0,
    }
}

/// Returns the version of the library: 10000 times the major, 100 times the minor, and the patch number.
#[unsafe(no_mangle)]
pub extern "C" fn fe2o3_version() -> u32
    ensures { result ≡ 500 }
{
    500
}

/// Returns how many bytes a struct has in the library. `which` is one of enum fe2o3_size_of; other numbers return 0.
/// If your own `sizeof` differs, your header is of another version.
#[unsafe(no_mangle)]
pub extern "C" fn fe2o3_size(which: u32) -> usize
    ensures { result ≡ size_in struct_sizes which }
{
    size(which)
}
