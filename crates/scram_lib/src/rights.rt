//! `FILE.rights`: who may act for whom at a server (RFC 4422, section 2). Each line is `USER IDENTITY`, both escaped as in a
//! file of records. A user has no space and no colon.

ghost use Rattle.std.specs.Prelude.{◌≡◌, ◌≢◌, ◌<◌, ◌⊎◌, ◌++◌, ℕ, List, IfErr, IfOk, MatchBool, MatchOption, length, map, option_map, string_bytes};
ghost use Rattle.std.specs.List.{Contains};
ghost use Rattle.fe2o3_scram.specs.Texts.{Cut};
ghost use Rattle.scram_lib.specs.Acting.{GivesRight, words_of};
ghost use Rattle.scram_lib.specs.Done.{HasServed, IsWithRights};

use crate::done::Done;
use crate::server::Service;
use crate::task::Process;
use scram_base_lib::backend::Backend;
use scram_base_lib::lines::unescaped;
use scram_base_lib::stop::Stop;
use scram_base_lib::store;
use scram_base_lib::store::System;
use std::alloc::{AllocError, Global};
use std::io::{BufRead, ErrorKind, Write};
use std::rt::Files;

impl<R: System, I: BufRead, O: Write, E: Write, B: Backend<R>> Process<'_, R, I, O, E, B> {
    /// Serves a login. If clients may name identities, the rights of `FILE.rights` are added to those of the arguments.
    pub(crate) fn serve(&mut self, service: &Service<'_, '_>) -> Result<Done, Stop>
        ensures { IfOk result (λ done. (full : Service) × IsWithRights service.now full × HasServed full done) }
    {
        if !service.accept_authzid {
            return self.serve_by(service);
        }
        let held = words_in(self.rt, service.file)?;
        let words = all_words(self.rt.alloc(), service.may_act, &held)?;
        self.serve_by(&with_words(service, &words))
    }
}

/// Returns the arguments with these rights in place of theirs.
fn with_words<'a: 'b, 'b>(service: &Service<'a, '_>, words: &'b [&'b str]) -> Service<'b, 'b>
    ensures same { result ≡ record service.now { may_act = result.may_act } }
    ensures words { words_of (option_map (λ words. map (λ word. word.now) words.now) result.may_act)
        ≡ map (λ word. word.now) words.now }
{
    Service {
        may_act: Some(words),
        ..*service
    }
}

/// Returns the rights of the arguments, and then those of the file.
fn all_words<'a: 'b, 'b>(
    alloc: Global,
    may_act: Option<&[&'a str]>,
    held: &'b [String],
) -> Result<Vec<&'b str>, AllocError>
    ensures { IfOk result (λ all. map (λ word. word.now) all.items
        ≡ words_of (option_map (λ words. map (λ word. word.now) words.now) may_act.entry) ++ map string_bytes held.now) }
{
    let mut all = Vec::new(alloc);
    for word in may_act.unwrap_or(&[]) {
        all.push(*word)?;
    }
    for word in held {
        all.push(word.as_str())?;
    }
    Ok(all)
}

/// Reads the rights of `FILE.rights`, each `USER:IDENTITY`. Without that file there are none.
fn words_in<R: Files + AllocGlobal>(rt: &R, file: &str) -> Result<Vec<String>, Stop> {
    let name = format!(in rt.alloc(); "{file}.rights")?;
    let mut words = Vec::new(rt.alloc());
    let text = match store::read(rt, &name) {
        Ok(text) => text,
        Err(Stop::Unreadable(ErrorKind::NotFound)) => return Ok(words),
        Err(Stop::OutOfMemory) => return Err(Stop::OutOfMemory),
        Err(_) => return Err(Stop::UnreadableRights),
    };
    for (before, line) in text.lines().enumerate() {
        match word_of(rt.alloc(), line) {
            Err(Stop::WrongName) => return Err(Stop::WrongRights(before.saturating_add(1))),
            word => words.push(word?)?,
        }
    }
    Ok(words)
}

/// Returns the right of a line as `USER:IDENTITY`. The errors are `WrongName`, if it gives none, and `OutOfMemory`.
fn word_of(alloc: Global, line: &str) -> Result<String, Stop>
    ensures ok { IfOk result (λ word. GivesRight line.now (string_bytes word)) }
    ensures err { IfErr result (λ stop. stop ≢ Stop.OutOfMemory
        → (stop ≡ Stop.WrongName) × ((word : List ℕ) → ¬ GivesRight line.now word)) }
{
    let Some((user, identity)) = cut_at_space(line) else {
        return Err(Stop::WrongName);
    };
    let mut word = match unescaped(alloc, user) {
        Ok(user) => user,
        Err(stop) => return Err(stop),
    };
    let identity = match unescaped(alloc, identity) {
        Ok(identity) => identity,
        Err(stop) => return Err(stop),
    };
    if !is_right(&word, &identity) {
        return Err(Stop::WrongName);
    }
    word.push_str(":")?;
    word.push_str(&identity)?;
    Ok(word)
}

/// Splits a line at its first space.
fn cut_at_space(line: &str) -> Option<(&str, &str)>
    ensures { MatchOption result ((before rest : List ℕ) → ¬ Cut 32 line.now before rest)
        (λ both. Cut 32 line.now both.0.now both.1.now) }
{
    line.split_once(' ')
}

/// Returns whether a right can be of this user and this identity: neither is empty, and the user has no colon.
fn is_right(user: &str, identity: &str) -> bool
    ensures { MatchBool result ((0 < length user.now) × (0 < length identity.now) × ¬ Contains user.now 58)
        ((length user.now ≡ 0) ⊎ (length identity.now ≡ 0) ⊎ Contains user.now 58) }
{
    !user.is_empty() && !identity.is_empty() && !user.as_bytes().contains(&b':')
}
