//! Servers, by the words of a row: `MECHANISM,..`, what the first mechanism needs, and options.

use crate::clients::{frame_limit, text_after};
use crate::events::{Side, answer_events};
use fe2o3_sasl_negotiation::{
    AuthenticatedUser, Mechanism, Mechanisms, Meter, MockAuthentication, MultiRecordStore,
    Password, Progress, RestoreError, SaslAnonymousMechanism, SaslPlainMechanism, SavedLogin,
    SavedStage, ScramRecord, ScramVersion, Server, ServerNegotiation, ServerOptions, Snapshot,
    Transport, restored_server,
};
use test_rows::{Row, call};

/// What a row says of a server.
#[derive(Drop)]
pub struct Served {
    /// The record of the user.
    pub users: MultiRecordStore,
    /// The hash of the record.
    pub version: ScramVersion,
    options: ServerOptions,
    external: String,
    /// The name and the password of the user of PLAIN, for a lenient server.
    plain: (String, String),
    is_lenient: bool,
    limit: usize,
}

/// Reads the words of a server.
pub fn served_by(row: &mut Row<'_>) -> Served {
    let mechanisms = row.word();
    let has = |name: &str| mechanisms.split(',').any(|it| it == name);
    let (first, _) = mechanisms.split_once(',').unwrap_or((mechanisms, ""));
    let offered = Mechanisms {
        scram_sha_512: has("SCRAM-SHA-512"),
        scram_sha_256: has("SCRAM-SHA-256"),
        scram_sha_1: has("SCRAM-SHA-1"),
        plain: has("PLAIN"),
        anonymous: has("ANONYMOUS"),
        external: has("EXTERNAL"),
    };
    let mut served = Served {
        users: MultiRecordStore::new(row.alloc),
        version: ScramVersion::from_mechanism(first).unwrap_or(ScramVersion::Sha256),
        options: ServerOptions::new(row.alloc, offered),
        external: String::new(row.alloc),
        plain: (String::new(row.alloc), String::new(row.alloc)),
        is_lenient: false,
        limit: 512,
    };
    match first {
        "ANONYMOUS" => {}
        "EXTERNAL" => served.external = row.text_of_digits(),
        _ => add_user(row, first == "PLAIN", &mut served),
    }
    read_options(row, &mut served);
    served
}

/// Adds a user: `USER PASSWORD`, and `SALT COUNT` if it is not of PLAIN.
fn add_user(row: &mut Row<'_>, is_plain: bool, served: &mut Served) {
    let (user, password) = (row.text_of_digits(), row.text_of_digits());
    let (salt, count) = if is_plain {
        (Vec::new(row.alloc), 1)
    } else {
        (row.digits(), row.number())
    };
    let (alloc, version, typed) = (row.alloc, served.version, Password::Typed(&password));
    let made = ScramRecord::from_password(alloc, version, typed, &salt, count, &mut Meter::new());
    if let Some(record) = row.get(made) {
        let added = served.users.add(row.own(&user), record);
        row.made(added, ());
    }
    served.plain = (user, password);
}

/// Reads the options of a server, in this order.
fn read_options(row: &mut Row<'_>, served: &mut Served) {
    let options = &mut served.options;
    options.plain_version = served.version;
    options.plain_iterations = Some(1);
    options.reject_misplaced = false;
    served.is_lenient = row.takes("lenient");
    options.extra_challenges.initial_response = row.takes("asks");
    options.extra_challenges.signature = row.takes("signs");
    options.accept_authzid = row.takes("authzid");
    if row.takes("right") {
        let (user, identity, alloc) = (row.text_of_digits(), row.text_of_digits(), row.alloc);
        row.made(options.rights.allow(alloc, &user, &identity), ());
    }
    if row.takes("mock") {
        let secret = row.digits();
        options.mock = row.get(MockAuthentication::new(secret, 32, 1));
    }
    served.limit = frame_limit(row);
}

impl Served {
    /// Returns what the connection brings.
    fn transport(&self) -> Transport<'_> {
        Transport {
            is_tls: true,
            channels: None,
            external: &self.external,
        }
    }

    /// Returns the server of a new connection.
    pub fn server(&self) -> Server<'_> {
        Server::new(&self.users, &self.options, self.transport())
    }

    /// Returns the server restored from what another saves, or from the words `authenticated USER` and `for IDENTITY`.
    fn restored(&self, row: &mut Row<'_>, server: &Server<'_>) -> Option<Server<'_>> {
        let (named, acts_for) = (text_after(row, "authenticated"), text_after(row, "for"));
        let saved = match &named {
            Some(_) => SavedStage::Authenticated(SavedLogin {
                mechanism: Mechanism::Scram(ScramVersion::Sha256, false),
                user: named.as_deref(),
                acts_for: acts_for.as_deref(),
            }),
            None => server.saved(),
        };
        let (alloc, transport, mut meter) = (row.alloc, self.transport(), Meter::new());
        let restored = call!(row: "Server::restore" =>
            Server::restore(alloc, &self.users, &self.options, transport, &saved, None, &mut meter));
        row.get(restored)
    }
}

/// Says the user of a server that has logged in, and the identity that the user acts for.
pub fn say_user<A: AuthenticatedUser>(row: &mut Row<'_>, side: &ServerNegotiation<A>) {
    match side.authenticated_user() {
        Some(user) => row.say_digits(user.as_bytes()),
        None if side.progress() == Progress::Authenticated => row.say("none"),
        None => {}
    }
    if let Some(identity) = side.acts_for() {
        row.say("for");
        row.say_digits(identity.as_bytes());
    }
}

/// Takes a restored side, or says the error.
pub fn take_restored<S: Drop>(row: &mut Row<'_>, side: &mut S, restored: Result<S, RestoreError>) {
    if let Some(restored) = row.get(restored) {
        *side = restored;
        row.say("restored");
    }
}

impl<A: AuthenticatedUser + Drop> Side<()> for ServerNegotiation<A> {
    fn wants_nonce(&self) -> bool {
        self.wants_nonce()
    }

    fn say_user(&self, row: &mut Row<'_>) {
        say_user(row, self);
    }
}

impl<'a> Side<&'a Served> for ServerNegotiation<Server<'a>> {
    fn wants_nonce(&self) -> bool {
        self.wants_nonce()
    }

    fn say_user(&self, row: &mut Row<'_>) {
        say_user(row, self);
    }

    fn saved(&self) -> Option<Snapshot<'_>> {
        Some(self.snapshot())
    }

    fn restore(&mut self, row: &mut Row<'_>, served: &'a Served, is_copy: bool) {
        let restored = if is_copy {
            // By `match`: `Row::get` has no contract, and `restored_server` requires an acceptor in the same state.
            match self.acceptor().clone() {
                Ok(acceptor) => {
                    call!(row: "restored_server" => restored_server(row.alloc, self, acceptor))
                }
                Err(error) => return row.refuse(error),
            }
        } else {
            match served.restored(row, self.acceptor()) {
                Some(acceptor) => call!(row: "ServerNegotiation::restore" =>
                    ServerNegotiation::restore(row.alloc, acceptor, &self.snapshot())),
                None => return,
            }
        };
        take_restored(row, self, restored);
    }
}

/// Answers the lines of a paragraph by a lenient server of this acceptor.
fn serve<'a, A: AuthenticatedUser + Drop>(row: &mut Row<'a>, acceptor: A, lines: &'a str) {
    let mut side = ServerNegotiation::new(row.alloc, acceptor);
    answer_events(row, &mut side, (), lines);
}

/// Answers the lines of a paragraph by a server.
pub fn answer_paragraph<'a>(row: &mut Row<'a>, lines: &'a str) {
    let served = served_by(row);
    if !served.is_lenient {
        let (server, limit) = (served.server(), served.limit);
        let mut side = ServerNegotiation::with_frame_limit(row.alloc, server, limit);
        answer_events(row, &mut side, &served, lines);
        return drop(side);
    }
    if served.options.mechanisms.plain {
        let (user, password) = served.plain;
        return serve(row, SaslPlainMechanism::new(user, password), lines);
    }
    serve(row, SaslAnonymousMechanism::new(), lines)
}
