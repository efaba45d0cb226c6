//! The calls on a side of a connection, one after another, and what each answers.

use bytes::BytesMut;
use fe2o3_sasl_negotiation::{
    CloseReason, ConnectionSide, Endpoint, Meter, Progress, Role, Snapshot,
};
use std::fmt::Debug;
use test_rows::{Row, again, call, free_call};

/// A side of a server, or of a client, which may be restored over a value of this type.
pub trait Side<C: Copy> {
    /// Returns whether the next call may use its nonce.
    fn wants_nonce(&self) -> bool;

    /// Says the user who has logged in, if it is a server, and the identity that the user acts for, if there is one.
    fn say_user(&self, _row: &mut Row<'_>) {}

    /// Returns what the side saves, if it can be saved.
    fn saved(&self) -> Option<Snapshot<'_>> {
        None
    }

    /// Restores what the side saves, over a copy or over what the row names, and says the error if there is one.
    fn restore(&mut self, row: &mut Row<'_>, _over: C, _is_copy: bool) {
        row.refuse("no snapshot");
    }
}

/// Says a progress, or why a negotiation has failed.
pub fn say_progress(row: &mut Row<'_>, progress: Progress) {
    match progress {
        Progress::Failed(CloseReason::ProtocolHeaderMismatch(_)) => {
            row.say("ProtocolHeaderMismatch");
        }
        Progress::Failed(why) => {
            let text = format!(in row.alloc; "{why:?}");
            let text = row.made(text, String::new(row.alloc));
            for word in text.split(['(', ')']) {
                if !word.is_empty() {
                    row.say(word);
                }
            }
        }
        progress => row.show(&progress),
    }
}

/// What is sent, the HMAC values that are counted, and what a side is restored over.
#[derive(Drop)]
struct Wire<C: Copy> {
    out: BytesMut,
    cost: u64,
    over: C,
}

/// Answers the lines of a paragraph, `EVENT => ANSWER`, one after another.
pub fn answer_events<'a, E: Endpoint<R>, R: Role, C: Copy>(
    row: &mut Row<'a>,
    side: &mut ConnectionSide<E, R>,
    over: C,
    lines: &'a str,
)
where
    ConnectionSide<E, R>: Side<C>,
{
    let mut wire = Wire {
        out: BytesMut::new(row.alloc),
        cost: 0,
        over,
    };
    for line in lines.lines() {
        if let Some((event, wanted)) = line.split_once(" => ") {
            again!(row: {
                row.turn_to(event);
                answer(row, side, &mut wire);
            });
            row.agree(wanted);
        }
    }
}

/// Answers an event.
fn answer<E, R, C: Copy>(row: &mut Row<'_>, side: &mut ConnectionSide<E, R>, wire: &mut Wire<C>)
where
    E: Endpoint<R>,
    R: Role,
    ConnectionSide<E, R>: Side<C>,
{
    if row.takes("end") {
        let progress = free_call!(row: "ConnectionSide::end_of_input" => side.end_of_input());
        say_progress(row, progress);
    } else if row.takes("extended") {
        side.accept_extended_headers(true);
        row.say("accepted");
    } else if row.takes("refusal") {
        peek_refusal(row, side);
    } else if row.takes("why") {
        say_why(row, side.progress());
    } else if row.takes("cost") {
        row.say(wire.cost);
    } else if row.takes("wants-nonce") {
        row.say(side.wants_nonce());
    } else if row.takes("restore") {
        side.restore(row, wire.over, false);
    } else if row.takes("restore-copy") {
        side.restore(row, wire.over, true);
    } else if row.takes("save") {
        say_saved(row, side.saved());
    } else if row.takes("frame") {
        peek_frame(row, side.saved());
    } else {
        receive(row, side, wire);
    }
}

/// Passes bytes with a nonce, and says how many are taken, what is sent, and the progress.
fn receive<E, R, C: Copy>(row: &mut Row<'_>, side: &mut ConnectionSide<E, R>, wire: &mut Wire<C>)
where
    E: Endpoint<R>,
    R: Role,
    ConnectionSide<E, R>: Side<C>,
{
    let (nonce, bytes, mut meter) = (row.nonce(), row.digits(), Meter::new());
    let made = call!(row: "ConnectionSide::receive" =>
        side.receive(row.alloc, &bytes, &nonce, &mut meter, &mut wire.out));
    if let Some(received) = row.get(made) {
        wire.cost = wire.cost.saturating_add(meter.count());
        row.say(received.taken);
        row.say_digits(wire.out.as_slice());
        wire.out.clear();
        say_progress(row, side.progress());
        side.say_user(row);
    }
}

/// Says bytes that were found, if there are any.
fn say_found<E: Debug>(row: &mut Row<'_>, found: &Result<Option<Vec<u8>>, E>) {
    match found {
        Ok(Some(bytes)) => row.say_digits(bytes),
        Ok(None) => row.say("none"),
        Err(error) => row.show(error),
    }
}

/// Says the additional data of the outcome that bytes complete.
fn peek_refusal<E: Endpoint<R>, R: Role>(row: &mut Row<'_>, side: &ConnectionSide<E, R>) {
    let bytes = row.digits();
    let found = call!(row: "ConnectionSide::peek_refusal" => side.peek_refusal(row.alloc, &bytes));
    say_found(row, &found);
}

/// Says why a negotiation has failed, in a sentence, and another header than that of SASL.
fn say_why(row: &mut Row<'_>, progress: Progress) {
    if let Progress::Failed(why) = progress {
        row.say(why);
        if let CloseReason::ProtocolHeaderMismatch(header) = why {
            row.say_digits(&header);
        }
    }
}

/// Says what a side saves.
fn say_saved(row: &mut Row<'_>, saved: Option<Snapshot<'_>>) {
    let Some(saved) = saved else {
        return row.refuse("no snapshot");
    };
    say_progress(row, saved.progress);
    row.show(&saved.expected);
    row.say(saved.limit);
    row.say(saved.extended_headers);
    row.say_digits(saved.held);
    row.say(saved.user.unwrap_or("none"));
    row.say(saved.acts_for.unwrap_or("none"));
}

/// Says the body of the frame that bytes complete.
fn peek_frame(row: &mut Row<'_>, saved: Option<Snapshot<'_>>) {
    let bytes = row.digits();
    let Some(saved) = saved else {
        return row.refuse("no snapshot");
    };
    let found = call!(row: "Snapshot::peek_frame" => saved.peek_frame(row.alloc, &bytes));
    say_found(row, &found);
}
