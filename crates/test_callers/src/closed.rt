//! A caller's own acceptor, by itself, in runs and step by step.

ghost use Rattle.std.specs.Prelude.{◌≡◌, Bool, true, ℕ, List, [], None, IfOk, OnErr, refl};
ghost use Rattle.fe2o3_sasl_wire.specs.declared.amqp_types.SaslCode.TheVariants.{Sys};
ghost use Rattle.fe2o3_sasl.specs.SaslAcceptor.{ends_with, reason_in, sent_frame};

use fe2o3_sasl::OutOfMemory;
use fe2o3_sasl::runs::{Event, ServerReply, acceptor_step, run_acceptor};
use fe2o3_sasl::sasl_acceptor::{SaslAcceptor, SaslServerFrame};
use fe2o3_sasl_wire::{Array, Error, SaslCode, SaslInit, SaslOutcome, SaslResponse, Symbol};
use std::alloc::{AllocError, Global};

/// A server that is closed: it names no mechanism, answers everyone with sys, and remembers whether anyone asked.
#[derive(Drop)]
struct Closed {
    asked: bool,
}

impl Closed {
    /// Returns the answer for everyone.
    fn turn_away(&mut self) -> SaslServerFrame
        ensures reply { sent_frame result ≡ ends_with Sys }
        ensures reason { reason_in result ≡ None }
        ensures asked { self.new.asked ≡ true }
    {
        self.asked = true;
        SaslServerFrame::Outcome(SaslOutcome {
            code: SaslCode::Sys,
            additional_data: None,
        })
    }
}

impl Clone for Closed {
    ghost is_clone = { λ closed copy. copy ≡ closed };

    fn clone(&self) -> Result<Closed, AllocError> {
        Ok(Closed { asked: self.asked })
    }
}

impl SaslAcceptor for Closed {
    ghost State = { Bool };

    ghost state = { λ closed. closed.asked };

    ghost names = { λ _. [] };

    ghost machine = { λ asked nonce frame reply next. (reply ≡ ends_with Sys) × (next ≡ true) };

    ghost Known = { Unit {0} };

    ghost known = { λ _. tt };

    ghost reasons = { λ known asked frame reason. ⊥ };

    ghost allocates = { λ asked frame. ⊥ };

    ghost hmacs = { λ asked frame n. n ≡ 0 };

    ghost clone_keeps = { λ closed copy same i. (same i).asked };

    ghost clone_knows = { λ closed copy same. refl };

    fn mechanisms(&self, alloc: Global) -> Result<Array<Symbol>, OutOfMemory> {
        Ok(Array(Vec::new(alloc)))
    }

    fn on_init(
        &mut self,
        _alloc: Global,
        _init: SaslInit,
        _nonce: &[u8; 32],
    ) -> Result<SaslServerFrame, OutOfMemory> {
        Ok(self.turn_away())
    }

    fn on_response(
        &mut self,
        _alloc: Global,
        _response: SaslResponse,
    ) -> Result<SaslServerFrame, OutOfMemory> {
        Ok(self.turn_away())
    }
}

/// Bodies, each with whether a closed server is asked.
static BODIES: [(&str, bool); 6] = [
    // a list of ANONYMOUS, an outcome, a challenge, nothing
    ("02010000005340c00f01e00c01a309414e4f4e594d4f5553", false),
    ("02010000005344c003015000", false),
    ("02010000005342c00301a000", false),
    ("", false),
    // an init of ANONYMOUS, a response
    ("02010000005341c00c01a309414e4f4e594d4f5553", true),
    ("02010000005343c00301a000", true),
];

/// Returns whether a reply is the outcome sys.
fn is_sys(reply: &Result<ServerReply, Error>) -> bool {
    matches!(reply, Ok(ServerReply::Outcome { code, .. }) if *code == SaslCode::Sys)
}

#[test]
fn an_acceptor_of_ones_own_keeps_its_state(rt: HostRuntime) {
    let (mut closed, mut events, nonce) = (Closed { asked: false }, Vec::new(rt.alloc()), [2; 32]);
    for &(digits, is_asked) in &BODIES {
        let body = hex::decode(rt.alloc(), digits).expect(&rt, "digits");
        let event = Event { body, nonce };
        let reply = acceptor_step(rt.alloc(), &mut closed, &event);
        assert!(rt; is_sys(&reply) == is_asked && closed.asked == is_asked);
        events.push(event).expect(&rt, "memory");
    }
    let mut copy = closed.clone().expect(&rt, "memory");
    let replies = run_acceptor(rt.alloc(), &mut copy, &events).expect(&rt, "memory");
    assert!(rt; copy.asked && replies.len() == BODIES.len());
    for (reply, (_, is_asked)) in replies.iter().zip(BODIES.iter()) {
        assert!(rt; is_sys(reply) == *is_asked);
    }
}
