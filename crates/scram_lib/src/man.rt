//! The manual page, in roff, made from the table of words.

use crate::manual::{ABOUT, NOTES, USERS};
use crate::words::{COMMANDS, Kind, USERS_COMMANDS, Word, Words};
use std::io::{Result, Write};

/// What the page has after the commands.
static SECTIONS: &str = r#".SH PASSWORDS
A password is the first line of standard input, never an argument. It may be non\-ASCII: it is prepared by SASLprep
(RFC 4013). Only \fBexplain \-\-audit\fP needs ASCII. A terminal shows what is typed, so a password is read there only with
\fB\-\-echo\fP. To type it twice without an echo, in bash:
.PP
.EX
IFS= read \-rsp "Password: " p; echo
IFS= read \-rsp "Again: " q; echo
[ "$p" = "$q" ] && printf \(aq%s\en\(aq "$p" | scram users add users.txt alice; unset p q
.EE
.SH FORMAT
A file of records has a line for each record (RFC 5803). In a name a comma is =2C, and an equals sign =3D. Salt
and keys are in base64. There are no comments and no empty lines.
.PP
.EX
NAME MECHANISM$ITERATIONS:SALT$STOREDKEY:SERVERKEY
.EE
.PP
A database has exactly this table. Salt and keys are bytes, and a name is not escaped.
.PP
.EX
CREATE TABLE users (name TEXT NOT NULL, mechanism TEXT NOT NULL,
salt BLOB NOT NULL, iterations INTEGER NOT NULL, stored_key BLOB NOT NULL,
server_key BLOB NOT NULL, PRIMARY KEY (name, mechanism)) WITHOUT ROWID
.EE
.SH FILES
.TP
.I FILE
A change follows links, and keeps owner, group and mode, but no access control list. Save and restore that with
\fBgetfacl FILE >acl\fP and \fBsetfacl \-\-restore=acl\fP.
.TP
.I FILE.new
The new file during a change, which then takes the place of FILE. It is locked: another change waits, or fails. One that a
killed command left is replaced.
.TP
.I FILE.rights
Rights for \fB\-\-may\-act\fP and \fB\-\-accept\-authzid\fP of \fBserver\fP: lines USER IDENTITY, escaped as in FILE.
.TP
.I FILE.secret
The secret of mock records, of mode 0600, which the first \fBserver\fP makes. Without the right to write the folder, make it
once as root and chown it. Copy it with FILE: with another one, clients can tell which users exist. A killed server can leave
FILE.secret.HEX, which you may remove.
.SH LOG
A server prints a line on standard error for each login. A name is a word of a shell: $\(aq..\(aq with octal digits if it
has other characters than letters, digits and \-./@_. The channel is the kind in \-\-channel, or none.
.PP
.EX
scram: alice logged in, acts for bob
scram: login rejected: user alice, SCRAM\-SHA\-256, channel none: Wrong password
.EE
.PP
A line has no user if the message names none. The program does not know the address of the client: let the script that
runs it add that, for instance for \fBsocat TCP\-LISTEN:5000,reuseaddr,fork EXEC:./serve\fP:
.PP
.EX
#!/bin/bash
scram server SCRAM\-SHA\-256 users.txt 2> >(while IFS= read \-r line
do echo "$(date +%FT%T) $SOCAT_PEERADDR $line"; done >>scram.log); sleep 1
.EE
.PP
Of fail2ban, this is the failregex: \fB^\es*<ADDR> scram: login rejected: \fP
.SH EXAMPLES
.EX
scram users add users.txt alice <password.txt
scram users check users.txt
socat TCP\-LISTEN:5000,reuseaddr,fork SYSTEM:\(aqscram server SCRAM\-SHA\-256 users.txt; true\(aq
cat password.txt bodies.txt | scram explain \-\-audit users.txt
.EE
"#;

/// What else to read.
static SEE_ALSO: &str =
    "fail2ban\\-regex(1), getfacl(1), setfacl(1), socat(1), sqlite3(1); RFC 4013, RFC 5802, RFC 5803, RFC 7677";

/// Prints the manual page.
pub fn print<O: Write>(output: &mut O) -> Result<()> {
    write!(output, ".TH SCRAM 1\n.SH NAME\nscram \\- {ABOUT}\n")?;
    write!(output, ".SH SYNOPSIS\n.B scram\n.I COMMAND\n.SH COMMANDS\n")?;
    print_commands(output, "scram", &COMMANDS)?;
    write!(output, ".SS scram users\n{USERS}.\n")?;
    print_commands(output, "scram users", &USERS_COMMANDS)?;
    write!(
        output,
        "{SECTIONS}.SH EXIT STATUS\n{NOTES}\n.SH SEE ALSO\n{SEE_ALSO}\n"
    )
}

/// Prints commands.
fn print_commands<O: Write>(output: &mut O, above: &str, commands: &[Words]) -> Result<()> {
    for command in commands {
        let (name, about) = (command.name, command.about);
        write!(output, ".SS {above} {name}\n{about}.\n")?;
        for word in command.words {
            print_word(output, word)?;
        }
    }
    Ok(())
}

/// Prints a word.
fn print_word<O: Write>(output: &mut O, word: &Word) -> Result<()> {
    let (name, value, help) = (word.name, word.value, word.help);
    match word.kind {
        Kind::Place | Kind::OptionalPlace | Kind::MechanismPlace => write!(
            output,
            ".TP\n.I {name}\n{help}.\n"
        ),
        Kind::Flag | Kind::FlagWithout(_) | Kind::FlagOf(_) => {
            print_option(output, ".B", name)?;
            write!(output, "\n{help}.\n")
        }
        _ => {
            print_option(output, ".BI", name)?;
            write!(output, " \" {value}\"\n{help}.\n")
        }
    }
}

/// Prints the name of an option. Its hyphens are escaped: roff prints a plain hyphen as one of prose.
fn print_option<O: Write>(output: &mut O, font: &str, name: &str) -> Result<()> {
    write!(output, ".TP\n{font} \\-")?;
    for part in name.split('-') {
        write!(output, "\\-{part}")?;
    }
    Ok(())
}
