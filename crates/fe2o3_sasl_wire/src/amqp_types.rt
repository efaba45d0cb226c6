//! The AMQP types of SASL frames (AMQP 1.0, part 5, section 5.3.3).

ghost use Rattle.std.specs.Prelude.{◌≡◌, ◌==◌, ⊤, [], ◌∷◌, codes, IfOk, bytes_eq};
ghost use Rattle.std.specs.Cmp.{on_per, on_equiv, partial_equiv_from_equiv, nat_eq_equiv};
ghost use Rattle.std.specs.Cmp.Lexicographic.{pointwise, nat_list_eq_equiv, lists_per, lists_equiv};
ghost use Rattle.fe2o3_sasl_wire.specs.SaslFrames.{Mechanisms, outcome_code};
ghost use Rattle.fe2o3_sasl_wire.specs.AmqpTypes.{binary_bytes, mechanisms_frame, init_frame, challenge_frame, response_frame, outcome_frame, same_frame, DecodesCode};
ghost use Rattle.fe2o3_sasl_wire.specs.private.Sameness.{same_frame_equiv};

mod symbols;

use crate::OutOfMemory;
use crate::hidden::Hidden;
use std::alloc::{AllocError, Global};
use std::fmt;
pub use symbols::{Symbol, SymbolError};

/// Bytes of any value (AMQP 1.0, part 1, section 1.6.19).
#[derive(Debug, Drop)]
pub struct Binary(pub Vec<u8>);

impl Clone for Binary {
    ghost is_clone = { λ binary copy. binary_bytes copy ≡ binary_bytes binary };

    fn clone(&self) -> Result<Binary, AllocError> {
        Ok(Binary(self.0.clone()?))
    }
}

impl PartialEq for Binary {
    ghost eq = { λ left right. bytes_eq (binary_bytes left) (binary_bytes right) };

    ghost laws = { on_per binary_bytes (partial_equiv_from_equiv nat_list_eq_equiv) };

    fn eq(&self, other: &Binary) -> bool {
        self.0 == other.0
    }
}

impl Eq for Binary {
    ghost laws = { on_equiv binary_bytes nat_list_eq_equiv };
}

/// Values of one type (AMQP 1.0, part 1, section 1.6.24).
#[derive(Debug, Drop)]
pub struct Array<T>(pub Vec<T>);

impl<T: PartialEq> PartialEq for Array<T> {
    ghost eq = { λ left right. pointwise T.eq left.0.items right.0.items };

    ghost laws = { on_per (λ array. array.0.items) (lists_per T.laws) };

    fn eq(&self, other: &Array<T>) -> bool {
        self.0 == other.0
    }
}

impl<T: Eq> Eq for Array<T> {
    ghost laws = { on_equiv (λ array. array.0.items) (lists_equiv T.Eq.laws) };
}

impl<T: Clone> Array<T> {
    /// Returns an equal array, if clones of the items equal them, like those of symbols and of numbers. OutOfMemory if
    /// allocation fails.
    pub fn clone(&self) -> Result<Array<T>, OutOfMemory>
        requires { (item copy : T) → T.is_clone item copy → copy ≡ item }
        ensures { IfOk result (λ copy. copy.0.items ≡ self.now.0.items) }
    {
        Ok(Array(self.0.clone()?))
    }
}

/// The mechanisms that a server offers (AMQP 1.0, part 5, section 5.3.3.1). The standard requires at least one name,
/// but an empty list is read and written here.
#[derive(Debug, Drop)]
pub struct SaslMechanisms {
    /// The names of the mechanisms.
    pub sasl_server_mechanisms: Array<Symbol>,
}

impl SaslMechanisms {
    /// Returns the offer of ANONYMOUS only. OutOfMemory if allocation fails.
    pub fn anonymous(alloc: Global) -> Result<SaslMechanisms, OutOfMemory>
        ensures { IfOk result (λ mechanisms.
            mechanisms_frame mechanisms ≡ Mechanisms (codes "ANONYMOUS" ∷ [])) }
    {
        let mut mechanisms = Vec::with_capacity(alloc, 1)?;
        mechanisms.push(Symbol::of_ascii(alloc, "ANONYMOUS")?)?;
        Ok(SaslMechanisms {
            sasl_server_mechanisms: Array(mechanisms),
        })
    }
}

impl Clone for SaslMechanisms {
    ghost is_clone = { λ mechanisms copy. mechanisms_frame copy ≡ mechanisms_frame mechanisms };

    fn clone(&self) -> Result<SaslMechanisms, AllocError> {
        Ok(SaslMechanisms {
            sasl_server_mechanisms: self.sasl_server_mechanisms.clone()?,
        })
    }
}

impl PartialEq for SaslMechanisms {
    ghost eq = { λ left right. same_frame (mechanisms_frame left) (mechanisms_frame right) };

    ghost laws = { on_per mechanisms_frame (partial_equiv_from_equiv same_frame_equiv) };

    fn eq(&self, other: &SaslMechanisms) -> bool {
        self.sasl_server_mechanisms == other.sasl_server_mechanisms
    }
}

impl Eq for SaslMechanisms {
    ghost laws = { on_equiv mechanisms_frame same_frame_equiv };
}

/// The mechanism that the client chooses (AMQP 1.0, part 5, section 5.3.3.2). Its `Debug` shows only the length of the
/// initial response, which may be a password.
#[derive(Drop)]
pub struct SaslInit {
    /// The name of the mechanism.
    pub mechanism: Symbol,

    /// The client's first message, if the mechanism has one.
    pub initial_response: Option<Binary>,

    /// The host that the client asks for.
    pub hostname: Option<String>,
}

impl fmt::Debug for SaslInit {
    fn fmt<W: fmt::Write>(&self, f: &mut fmt::Formatter<W>) -> fmt::Result {
        let initial_response = self.initial_response.as_ref();
        f.debug_struct("SaslInit")
            .field("mechanism", &self.mechanism.as_str())
            .field(
                "initial_response",
                &initial_response.map(|binary| Hidden(&binary.0)),
            )
            .field("hostname", &self.hostname)
            .finish()
    }
}

impl Clone for SaslInit {
    ghost is_clone = { λ init copy. init_frame copy ≡ init_frame init };

    fn clone(&self) -> Result<SaslInit, AllocError> {
        Ok(SaslInit {
            mechanism: self.mechanism.clone()?,
            initial_response: self.initial_response.clone()?,
            hostname: self.hostname.clone()?,
        })
    }
}

impl PartialEq for SaslInit {
    ghost eq = { λ left right. same_frame (init_frame left) (init_frame right) };

    ghost laws = { on_per init_frame (partial_equiv_from_equiv same_frame_equiv) };

    fn eq(&self, other: &SaslInit) -> bool {
        self.mechanism == other.mechanism
            && self.initial_response == other.initial_response
            && self.hostname == other.hostname
    }
}

impl Eq for SaslInit {
    ghost laws = { on_equiv init_frame same_frame_equiv };
}

/// A challenge of the server (AMQP 1.0, part 5, section 5.3.3.3).
#[derive(Debug, Drop)]
pub struct SaslChallenge {
    /// The message of the mechanism.
    pub challenge: Binary,
}

impl Clone for SaslChallenge {
    ghost is_clone = { λ challenge copy. challenge_frame copy ≡ challenge_frame challenge };

    fn clone(&self) -> Result<SaslChallenge, AllocError> {
        Ok(SaslChallenge {
            challenge: self.challenge.clone()?,
        })
    }
}

impl PartialEq for SaslChallenge {
    ghost eq = { λ left right. same_frame (challenge_frame left) (challenge_frame right) };

    ghost laws = { on_per challenge_frame (partial_equiv_from_equiv same_frame_equiv) };

    fn eq(&self, other: &SaslChallenge) -> bool {
        self.challenge == other.challenge
    }
}

impl Eq for SaslChallenge {
    ghost laws = { on_equiv challenge_frame same_frame_equiv };
}

/// The client's response to a challenge (AMQP 1.0, part 5, section 5.3.3.4). Its `Debug` shows only the length of the
/// response, which may be a password.
#[derive(Drop)]
pub struct SaslResponse {
    /// The answer of the mechanism.
    pub response: Binary,
}

impl fmt::Debug for SaslResponse {
    fn fmt<W: fmt::Write>(&self, f: &mut fmt::Formatter<W>) -> fmt::Result {
        f.debug_struct("SaslResponse")
            .field("response", &Hidden(&self.response.0))
            .finish()
    }
}

impl Clone for SaslResponse {
    ghost is_clone = { λ response copy. response_frame copy ≡ response_frame response };

    fn clone(&self) -> Result<SaslResponse, AllocError> {
        Ok(SaslResponse {
            response: self.response.clone()?,
        })
    }
}

impl PartialEq for SaslResponse {
    ghost eq = { λ left right. same_frame (response_frame left) (response_frame right) };

    ghost laws = { on_per response_frame (partial_equiv_from_equiv same_frame_equiv) };

    fn eq(&self, other: &SaslResponse) -> bool {
        self.response == other.response
    }
}

impl Eq for SaslResponse {
    ghost laws = { on_equiv response_frame same_frame_equiv };
}

/// The end of a negotiation (AMQP 1.0, part 5, section 5.3.3.5).
#[derive(Debug, Drop)]
pub struct SaslOutcome {
    /// How it ended.
    pub code: SaslCode,

    /// The message of the mechanism at its end.
    pub additional_data: Option<Binary>,
}

impl Clone for SaslOutcome {
    ghost is_clone = { λ outcome copy. outcome_frame copy ≡ outcome_frame outcome };

    fn clone(&self) -> Result<SaslOutcome, AllocError> {
        Ok(SaslOutcome {
            code: self.code.clone()?,
            additional_data: self.additional_data.clone()?,
        })
    }
}

impl PartialEq for SaslOutcome {
    ghost eq = { λ left right. same_frame (outcome_frame left) (outcome_frame right) };

    ghost laws = { on_per outcome_frame (partial_equiv_from_equiv same_frame_equiv) };

    fn eq(&self, other: &SaslOutcome) -> bool {
        self.code == other.code && self.additional_data == other.additional_data
    }
}

impl Eq for SaslOutcome {
    ghost laws = { on_equiv outcome_frame same_frame_equiv };
}

/// How a negotiation ended (AMQP 1.0, part 5, section 5.3.3.6).
#[derive(Copy, Debug)]
pub enum SaslCode {
    /// The client is authenticated.
    Ok = 0,

    /// The client's credentials were rejected.
    Auth = 1,

    /// A system error.
    Sys = 2,

    /// A system error that is permanent.
    SysPerm = 3,

    /// A system error that may be transient.
    SysTemp = 4,
}

impl Clone for SaslCode {
    ghost is_clone = { λ code copy. copy ≡ code };

    ghost is_infallible = { λ _. ⊤ };

    fn clone(&self) -> Result<SaslCode, AllocError> {
        Ok(*self)
    }
}

impl PartialEq for SaslCode {
    ghost eq = { λ left right. outcome_code left == outcome_code right };

    ghost laws = { on_per outcome_code (partial_equiv_from_equiv nat_eq_equiv) };

    fn eq(&self, other: &SaslCode) -> bool {
        *self as u8 == *other as u8
    }
}

impl Eq for SaslCode {
    ghost laws = { on_equiv outcome_code nat_eq_equiv };
}

impl TryFrom<u8> for SaslCode {
    type Error = u8;

    ghost try_from_gives = { DecodesCode };

    /// Returns the byte itself as the error if it is not a code.
    fn try_from(value: u8) -> Result<Self, u8> {
        match value {
            0 => Ok(SaslCode::Ok),
            1 => Ok(SaslCode::Auth),
            2 => Ok(SaslCode::Sys),
            3 => Ok(SaslCode::SysPerm),
            4 => Ok(SaslCode::SysTemp),
            _ => Err(value),
        }
    }
}
