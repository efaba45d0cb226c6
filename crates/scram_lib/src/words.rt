//! The arguments and options of the commands, with their help.

/// The kind of a word. A place is a positional argument, and the others are options. A kind with `Of` requires the option
/// that it names, and one with `Without` excludes it.
#[derive(Clone, Copy)]
pub enum Kind {
    Place,
    OptionalPlace,
    MechanismPlace,
    Text,
    Texts,
    Mechanism,
    SaltLen,
    Count,
    CountOf(&'static str),
    Seconds,
    Flag,
    FlagWithout(&'static str),
    FlagOf(&'static str),
}

/// A word of a command: an argument or an option.
#[derive(Clone, Copy)]
pub struct Word {
    pub kind: Kind,
    pub name: &'static str,
    /// The placeholder for the value.
    pub value: &'static str,
    pub help: &'static str,
}

/// A command.
#[derive(Clone, Copy)]
pub struct Words {
    pub name: &'static str,
    /// What the command does.
    pub about: &'static str,
    pub words: &'static [Word],
}

/// A word of a kind, with a name, a placeholder and a help text.
macro_rules! word {
    ($kind:ident $name:literal $value:literal $help:literal) => {
        Word { kind: Kind::$kind, name: $name, value: $value, help: $help }
    };
    ($kind:ident $other:literal: $name:literal $value:literal $help:literal) => {
        Word { kind: Kind::$kind($other), name: $name, value: $value, help: $help }
    };
}

/// A command with a name, what it does, and its words.
macro_rules! command {
    ($name:literal $about:literal $($word:expr),*) => {
        Words { name: $name, about: $about, words: &[$($word),*] }
    };
}

// The words of several commands.
const FILE: Word = word!(Place "FILE" "FILE" "The file of records");

const NAME: Word = word!(Place "NAME" "NAME" "The user name");

const DB: Word = word!(Flag "db" "" "FILE is a SQLite database of users");

const MECHANISM: Word = word!(Mechanism "mechanism" "M" "The mechanism of the record; default all");

const ECHO: Word = word!(Flag "echo" "" "Reads the password from a terminal too, which shows it");

const NEW_ECHO: Word =
    word!(Flag "echo" "" "Reads the password from a terminal too, twice; the terminal shows it");

const WAIT: Word =
    word!(Seconds "wait" "SECONDS" "Waits at most this long for another program that changes FILE; \
    default 0, with --db 5");

const TAKEN_ITERATIONS: Word =
    word!(Count "iterations" "N" "The iteration count; default that of the file's first record \
    for the mechanism, 4096 in a new file; warns of another");

const TAKEN_SALT_LENGTH: Word =
    word!(SaltLen "salt-length" "N" "The length of the salt in bytes; default that of the \
    file's first record for the mechanism, 16 in a new file; warns of another");

const SALT: Word = word!(Text "salt" "HEX" "The salt, for tests; default random bytes");

const M: Word = word!(MechanismPlace "M" "M" "The mechanism");

const STRICT: Word = word!(Flag "strict" "" "Reads messages by the grammar of RFC 5802, section 7");

const NONCE: Word = word!(Text "nonce" "HEX" "The nonce, for tests; default 32 random bytes");

const FRAMES: Word =
    word!(Flag "frames" "" "Uses the bytes of an AMQP connection in place of lines");

/// The commands without subcommands.
pub static COMMANDS: [Words; 5] = [
    command!("record" "Prints the record of a password (RFC 5803)"
        word!(Mechanism "mechanism" "M" "The mechanism of the record; default SCRAM-SHA-256"),
        word!(Count "iterations" "N" "The iteration count; default 4096"),
        word!(SaltLen "salt-length" "N" "The length of the salt in bytes; default 16"),
        SALT, NEW_ECHO),
    command!("client" "Runs the client side of a login: after the password, each line is a message in base64"
        M,
        word!(Place "USER" "USER" "The user name"),
        word!(Text "acts-for" "IDENTITY" "The identity to act for (RFC 4422, section 2); default the user itself"),
        word!(Count "min-iterations" "N" "The minimum iteration count that the client accepts; default 4096"),
        word!(Count "max-iterations" "N" "The maximum iteration count that the client accepts; default 1000000"),
        word!(Text "keys" "FILE" "Logs in with the keys in this file, if there are any, and stores the keys of the login in \
            it"),
        word!(Text "channel" "KIND:HEX" "Binds this channel, by the mechanism with -PLUS: KIND is tls-unique, \
            tls-server-end-point or tls-exporter, HEX is its data"),
        word!(FlagWithout "channel": "channel-not-offered" "" "Has a channel, but was offered no mechanism with -PLUS: the \
            GS2 header is y,,"),
        STRICT, ECHO, NONCE, FRAMES),
    command!("server" "Runs the server side of a login for the users of a file: each line is a message in base64"
        M, FILE,
        word!(Flag "db" "" "FILE is a SQLite database of users, of which only the client's record and a first one are read"),
        WAIT,
        word!(Flag "saslprep" "" "Prepares the name that the client sends by SASLprep (RFC 4013) before the look-up; default \
            as sent"),
        word!(Flag "tell-unknown-users" "" "Answers an unknown user with an error; default with a mock record in the form of \
            the first, made with FILE.secret"),
        word!(Text "channel" "KIND:HEX" "Accepts only clients that bind this channel, by the mechanism with -PLUS: KIND is \
            tls-unique, tls-server-end-point or tls-exporter, HEX is its data"),
        word!(FlagWithout "channel": "accept-y" "" "Accepts the GS2 header y,, too; never use it beside a server that offers \
            a mechanism with -PLUS"),
        word!(Flag "reject-misplaced" "" "Rejects text in the place of an extension that is none, as with --channel; use it \
            beside a server that offers a mechanism with -PLUS"),
        word!(Flag "accept-authzid" "" "Accepts clients that name an identity to act for; each user may act for its own \
            name"),
        word!(Texts "may-act" "USER:IDENTITY" "Lets this user act for this identity too, and implies --accept-authzid; can \
            be repeated"),
        STRICT, NONCE, FRAMES),
    command!("explain" "Explains the messages of a login: each line is a message in base64"
        word!(Flag "frames" "" "Each line is the body of a SASL frame in hexadecimal"),
        word!(Text "audit" "FILE" "Audits a login against this file of records: after the password, each line is client or \
            server and the body of a SASL frame that this side received, in hexadecimal, each side's in order; each nonce \
            must be the base64 of 32 bytes"),
        word!(CountOf "audit": "max-iterations" "N" "The maximum iteration count that the audited client accepts; default \
            1000000"),
        word!(FlagOf "audit": "echo" "" "Reads the password from a terminal too, which shows it")),
    command!("man" "Prints this manual as a page for man(1)"),
];

/// The commands of `users`.
pub static USERS_COMMANDS: [Words; 7] = [
    command!("add" "Adds the records of a user, or replaces those for the same mechanisms"
        FILE, NAME, DB,
        word!(Mechanism "mechanism" "M" "The mechanism of the record; default a record for SCRAM-SHA-256 and one for \
            SCRAM-SHA-512"),
        TAKEN_ITERATIONS, TAKEN_SALT_LENGTH, SALT,
        word!(Flag "force" "" "Takes a NAME that is empty or has spaces at its ends; libpq sends the empty name"),
        NEW_ECHO, WAIT),
    command!("passwd" "Changes the password in all records of a user, and adds those that add makes"
        FILE, NAME, DB,
        word!(Mechanism "mechanism" "M" "The mechanism of the record; default all, with those that add makes"),
        word!(FlagWithout "mechanism": "all" "" "Changes every record of the user, as without --mechanism"),
        TAKEN_ITERATIONS, TAKEN_SALT_LENGTH, NEW_ECHO, WAIT),
    command!("remove" "Removes the records of a user, for all mechanisms or for one"
        FILE, NAME, DB, MECHANISM, WAIT),
    command!("list" "Prints the mechanism, the iteration count and the name of each record, quoted for a shell"
        FILE, DB,
        word!(Flag "hashes" "" "Prints the mechanisms for which each user has a record, which a server can offer, and \
            nothing else"),
        WAIT),
    command!("import" "Adds the records of standard input, each a line NAME RECORD, or replaces those for the same names and \
            mechanisms; a record is one of this program, of PostgreSQL, or of gsasl --mkpasswd"
        FILE, DB,
        word!(Flag "dry-run" "" "Prints what would be done, and changes nothing"),
        WAIT),
    command!("export" "Prints the records as lines for import; PostgreSQL takes the records too"
        FILE, DB,
        word!(Flag "gsasl" "" "Prints records as gsasl --mkpasswd does: {M}COUNT,SALT,STOREDKEY,SERVERKEY"),
        WAIT),
    command!("check" "Checks a user's password; without a name, lists records with another form and users who lack a record"
        FILE,
        word!(OptionalPlace "NAME" "NAME" "The user name; default the whole file, without a password"),
        DB, MECHANISM, ECHO, WAIT),
];
