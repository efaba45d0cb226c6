//! A row: its words, which are read one after another, and its answer, which grows by words.

use base64::engine::general_purpose::STANDARD;
use std::alloc::Global;
use std::fmt::{Debug, Display, Write};
use std::mem;

/// Sizes of blocks that mark a call for `tools/test_memory.py`: its begin, one without requests, its end, and an answer's end.
const BEGIN: usize = 700001;

const BEGIN_FREE: usize = 700003;

const END: usize = 700005;

const AGREED: usize = 700007;

/// A row while it is answered. For a malformed word, or a value that cannot be made, an empty one is used, the answer
/// says why, and the row is no longer confirmed.
#[derive(Drop)]
pub struct Row<'a> {
    /// The allocator for the row's values.
    pub alloc: Global,

    /// The words that are not read yet.
    words: &'a str,

    /// The words of the answer.
    answer: String,

    /// Whether each word, each value and each answer was right so far.
    is_sound: bool,

    /// The number of answers that were compared.
    compared: u64,

    /// The call that is made, or was made last.
    call: &'static str,

    /// The calls that ran out of memory, a line each.
    ran_out: String,

    /// The last mark of a call.
    mark: Vec<u8>,
}

impl<'a> Row<'a> {
    /// Returns a row of these words, without an answer.
    pub fn new(alloc: Global, words: &'a str) -> Row<'a> {
        Row {
            alloc,
            words,
            answer: String::new(alloc),
            is_sound: true,
            compared: 0,
            call: "",
            ran_out: String::new(alloc),
            mark: Vec::new(alloc),
        }
    }

    /// Marks the begin of a call, by its name. `tools/test_memory.py` refuses each of its requests for memory once.
    pub fn begin(&mut self, call: &'static str) {
        self.call = call;
        self.set_mark(BEGIN);
    }

    /// Marks the begin of a call that requests no memory. `tools/test_memory.py` tests that.
    pub fn begin_free(&mut self, call: &'static str) {
        self.call = call;
        self.set_mark(BEGIN_FREE);
    }

    /// Marks the end of a call.
    pub fn end(&mut self) {
        self.set_mark(END);
    }

    /// Replaces the mark by a block of this size.
    fn set_mark(&mut self, size: usize) {
        match Vec::with_capacity(self.alloc, size) {
            Ok(mark) => self.mark = mark,
            Err(error) => self.refuse(error),
        }
    }

    /// Returns whether a call ran out of memory. If so, the row notes it and drops the answer, so that it can be made again.
    pub fn ran_out(&mut self) -> bool {
        let mut words = self.answer.as_str().split([' ', '(', ')']);
        let ran_out = !self.call.is_empty()
            && words.any(|word| word == "OutOfMemory" || word == "AllocError");
        if ran_out {
            self.is_sound &= writeln!(self.ran_out, "{}", self.call).is_ok();
            self.answer.clear();
        }
        ran_out
    }

    /// Returns the calls that ran out of memory, a line each.
    pub fn calls_without_memory(&self) -> &str {
        self.ran_out.as_str()
    }

    /// Goes on to other words, after the last ones.
    pub fn turn_to(&mut self, words: &'a str) {
        self.is_sound &= self.is_over();
        self.words = words;
    }

    /// Compares the answer so far, and begins another if it is right.
    pub fn agree(&mut self, wanted: &str) {
        self.set_mark(AGREED);
        self.compared = self.compared.saturating_add(1);
        self.is_sound &= self.answer.as_str() == wanted;
        if self.is_sound {
            self.answer.clear();
        }
    }

    /// Returns how many answers were compared.
    pub fn compared(&self) -> u64 {
        self.compared
    }

    /// Returns the answer so far, and begins another.
    pub fn take_answer(&mut self) -> String {
        mem::replace(&mut self.answer, String::new(self.alloc))
    }

    /// Returns what is answered in place of the wanted words, if they are not all answered.
    pub fn fault(&self) -> Option<&str> {
        if self.is_sound && self.is_over() && self.answer.is_empty() {
            return None;
        }
        Some(self.answer.as_str())
    }

    /// Returns whether all words are read.
    pub fn is_over(&self) -> bool {
        self.words.trim_start().is_empty()
    }

    /// Returns the next word. One in quotation marks may be empty and may have spaces.
    pub fn word(&mut self) -> &'a str {
        let words = self.words.trim_start();
        self.is_sound &= !words.is_empty();
        let cut = match words.strip_prefix('"') {
            Some(quoted) => quoted.split_once('"'),
            None => words.split_once(' '),
        };
        let (word, rest) = cut.unwrap_or((words, ""));
        self.words = rest;
        word
    }

    /// Returns all words that are left.
    pub fn rest(&mut self) -> &'a str {
        let words = self.words.trim_start();
        self.words = "";
        words
    }

    /// Reads the next word if it is this one, and returns whether it is.
    pub fn takes(&mut self, word: &str) -> bool {
        let words = self.words.trim_start();
        let (next, rest) = words.split_once(' ').unwrap_or((words, ""));
        if next == word {
            self.words = rest;
        }
        next == word
    }

    /// Returns the bytes of the next word, where `\x` and two hexadecimal digits are one byte.
    pub fn bytes(&mut self) -> Vec<u8> {
        let (alloc, word) = (self.alloc, self.word());
        let mut bytes = Vec::new(alloc);
        for (place, piece) in word.split("\\x").enumerate() {
            let (digits, text) = match place {
                0 => ("", piece),
                _ => piece.split_at_checked(2).unwrap_or(("no", "digits")),
            };
            let escaped = self.made(hex::decode(alloc, digits), Vec::new(alloc));
            self.made(bytes.extend_from_slice(&escaped), ());
            self.made(bytes.extend_from_slice(text.as_bytes()), ());
        }
        bytes
    }

    /// Returns the text of the next word, in the form of `bytes`.
    pub fn text(&mut self) -> String {
        let text = String::from_utf8(self.bytes());
        self.made(text, String::new(self.alloc))
    }

    /// Returns the bytes of the hexadecimal digits of the next word, where `-` is none.
    pub fn digits(&mut self) -> Vec<u8> {
        let digits = self.word().trim_start_matches('-');
        self.made(hex::decode(self.alloc, digits), Vec::new(self.alloc))
    }

    /// Returns the text of the hexadecimal digits of the next word, where `-` is the empty text.
    pub fn text_of_digits(&mut self) -> String {
        let text = String::from_utf8(self.digits());
        self.made(text, String::new(self.alloc))
    }

    /// Returns the 32 bytes of hexadecimal digits, or of two digits that are repeated for each of them.
    pub fn nonce(&mut self) -> [u8; 32] {
        let bytes = self.digits();
        match bytes.as_slice() {
            [byte] => [*byte; 32],
            bytes => self.made(<[u8; 32]>::try_from(bytes), [0; 32]),
        }
    }

    /// Returns the bytes of the base64 of the next word.
    pub fn base64(&mut self) -> Vec<u8> {
        let bytes = STANDARD.decode(self.alloc, self.word().as_bytes());
        self.made(bytes, Vec::new(self.alloc))
    }

    /// Returns the number of the next word.
    pub fn number(&mut self) -> u32 {
        let number = self.word().parse::<u32>();
        self.made(number, 0)
    }

    /// Copies a text.
    pub fn own(&mut self, text: &str) -> String {
        let text = text.to_string(self.alloc);
        self.made(text, String::new(self.alloc))
    }

    /// Returns the value that was made, or this one in its place.
    pub fn made<T: Drop, E: Debug + Drop>(&mut self, made: Result<T, E>, instead: T) -> T {
        match made {
            Ok(value) => value,
            Err(error) => {
                self.refuse(error);
                instead
            }
        }
    }

    /// Adds an item to a list.
    pub fn push<T: Drop>(&mut self, list: &mut Vec<T>, item: T) {
        self.is_sound &= list.push(item).is_ok();
    }

    /// Says why the row is not confirmed.
    pub fn refuse<E: Debug + Drop>(&mut self, why: E) {
        self.is_sound = false;
        self.show(&why);
    }

    /// Adds a word to the answer.
    pub fn say<T: Display + Drop>(&mut self, word: T) {
        let space = if self.answer.is_empty() { "" } else { " " };
        self.is_sound &= write!(self.answer, "{space}{word}").is_ok();
    }

    /// Adds the name of a value to the answer.
    pub fn show<T: Debug>(&mut self, value: &T) {
        self.say(format_args!("{value:?}"));
    }

    /// Adds bytes in hexadecimal digits to the answer, where `-` is none.
    pub fn say_digits(&mut self, bytes: &[u8]) {
        if bytes.is_empty() {
            return self.say("-");
        }
        let digits = self.made(hex::encode(self.alloc, bytes), String::new(self.alloc));
        self.say(digits);
    }

    /// Adds bytes in base64 to the answer.
    pub fn say_base64(&mut self, bytes: &[u8]) {
        let text = self.made(STANDARD.encode(self.alloc, bytes), String::new(self.alloc));
        self.say(text);
    }

    /// Adds a message to the answer, a text.
    pub fn say_message(&mut self, message: &[u8]) {
        let text = self.made(str::from_utf8(message), "");
        self.say(text);
    }

    /// Adds a word to the answer if something went well, and otherwise the name of the error.
    pub fn judge<T, E: Debug>(&mut self, verdict: &Result<T, E>, word: &str) {
        match verdict {
            Ok(_) => self.say(word),
            Err(kind) => self.show(kind),
        }
    }

    /// Returns what a call made, or adds the name of the error to the answer.
    pub fn get<T: Drop, E: Debug + Drop>(&mut self, made: Result<T, E>) -> Option<T> {
        match made {
            Ok(value) => Some(value),
            Err(error) => {
                self.show(&error);
                None
            }
        }
    }

    /// Adds the name of a value or of the error to the answer.
    pub fn show_made<T: Debug, E: Debug>(&mut self, made: &Result<T, E>) {
        match made {
            Ok(value) => self.show(value),
            Err(error) => self.show(error),
        }
    }

    /// Adds a message to the answer, or the name of the error.
    pub fn say_answer<E: Debug>(&mut self, answer: &Result<Vec<u8>, E>) {
        match answer {
            Ok(message) => self.say_message(message),
            Err(kind) => self.show(kind),
        }
    }
}
