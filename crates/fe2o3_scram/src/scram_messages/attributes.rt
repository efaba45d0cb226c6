//! The GS2 header and the keys of attributes (RFC 5802, sections 5.1 and 7).

/// The GS2 header of a client that binds no channel and acts for itself.
pub(crate) const GS2_HEADER: &str = "n,,";

/// The base64 text of that client's GS2 header, as its channel binding data.
pub(crate) const GS2_HEADER_BASE64: &str = "biws";

/// The GS2 header `y,,`: the client supports channel binding, assumes that the server does not, and acts for itself.
pub(crate) const UNOFFERED_GS2_HEADER: &str = "y,,";

/// The base64 text of the GS2 header `y,,`.
pub(crate) const UNOFFERED_GS2_HEADER_BASE64: &str = "eSws";

/// The GS2 header of a client that binds its channel by `tls-unique`.
pub(crate) const UNIQUE_GS2_HEADER: &str = "p=tls-unique,,";

/// The GS2 header of a client that binds its channel by `tls-server-end-point`.
pub(crate) const SERVER_END_POINT_GS2_HEADER: &str = "p=tls-server-end-point,,";

/// The GS2 header of a client that binds its channel by `tls-exporter`.
pub(crate) const EXPORTER_GS2_HEADER: &str = "p=tls-exporter,,";

/// The flag `n` and its comma.
pub(crate) const NOT_SUPPORTED_FLAG: &str = "n,";

/// The flag `y` and its comma.
pub(crate) const CLIENT_SUPPORTS_FLAG: &str = "y,";

/// The flag of a client that binds its channel by `tls-unique`, and its comma.
pub(crate) const UNIQUE_FLAG: &str = "p=tls-unique,";

/// The flag of a client that binds its channel by `tls-server-end-point`, and its comma.
pub(crate) const SERVER_END_POINT_FLAG: &str = "p=tls-server-end-point,";

/// The flag of a client that binds its channel by `tls-exporter`, and its comma.
pub(crate) const EXPORTER_FLAG: &str = "p=tls-exporter,";

/// The identity that a client acts for.
pub(crate) const AUTHZID_KEY: &str = "a=";

/// The user name.
pub(crate) const USERNAME_KEY: &str = "n=";

/// The nonce.
pub(crate) const NONCE_KEY: &str = "r=";

/// The salt, in base64.
pub(crate) const SALT_KEY: &str = "s=";

/// The iteration count.
pub(crate) const ITERATION_COUNT_KEY: &str = "i=";

/// The channel binding data, in base64.
pub(crate) const CHANNEL_BINDING_KEY: &str = "c=";

/// The client's proof, in base64.
pub(crate) const PROOF_KEY: &str = "p=";

/// The server's signature, in base64.
pub(crate) const VERIFIER_KEY: &str = "v=";

/// The server's error.
pub(crate) const ERROR_KEY: &str = "e=";

/// The reserved attribute of mandatory extensions, of which there are none.
pub(crate) const RESERVED_MEXT: &str = "m=";
