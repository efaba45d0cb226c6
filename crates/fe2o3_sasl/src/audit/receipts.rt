//! The receipts of positions of two runs.

use crate::audit::Parameters;
use fe2o3_scram::cached_keys::CachedKeys;
use fe2o3_scram::hmac::DigestBytes;

/// The receipt of a position of the client: the proof that it showed there or the verifier that it took, and the values
/// of its answer.
#[derive(Drop)]
pub(crate) struct ClientReceipt {
    pub place: usize,
    pub shown: Vec<u8>,
    pub message: Vec<u8>,
    pub keys: CachedKeys,
    pub stored_key: DigestBytes,
}

/// The receipt of a position where the server answered Ok: the verifier that it gave, the proof that it accepted, and
/// the values of both.
#[derive(Drop)]
pub(crate) struct ServerReceipt {
    pub place: usize,
    pub verifier: Vec<u8>,
    pub proof: Vec<u8>,
    pub message: Vec<u8>,
    pub username: String,
    pub client_nonce: String,
    pub parameters: Option<Parameters>,
    pub stored_key: Vec<u8>,
    pub server_key: Vec<u8>,
    pub recovered_key: Vec<u8>,
}
