//! Calls on the mail of functions `com.example/greeter`, each known by its id.
ghost use Rattle.std.specs.Prelude.{◌≤◌};

use batch_queue::{BatchFault, Limits, Mail};
use proto_wire::{Bytes, Mem, Text};
use row_text::{Failure, text_of};
use std::alloc::Global;
use typed_values::{Address, Letter, Sender, TypeName, TypedValue};

/// What each call of a row answers.
pub(crate) fn show(alloc: Global, words: &str) -> Result<String, Failure> {
    let mut mail = Mail::new(alloc)?;
    let mut text = String::new(alloc);
    for word in words.split_whitespace() {
        let line = answer(alloc, &mut mail, word)?;
        text.push_str("  ")?;
        text.push_str(line.as_str())?;
        text.push_str("\n")?;
    }
    Ok(text)
}

fn answer(alloc: Global, mail: &mut Mail, word: &str) -> Result<String, Failure> {
    let (call, rest) = word.split_once(':').unwrap_or((word, ""));
    match call {
        "put" => put(alloc, mail, rest),
        "open" => open(alloc, mail, rest),
        "take" => take(alloc, mail, rest),
        "return" => give_back(alloc, mail, rest),
        "ready" => ready(alloc, mail),
        "letters" => letters(alloc, mail),
        _ => Err(Failure::Row),
    }
}

fn told(alloc: Global, text: &str) -> Result<String, Failure> {
    Ok(String::from_str(alloc, text)?)
}

fn address(alloc: Global, id: &str) -> Mem<Address> {
    Ok(Address {
        kind: TypeName {
            namespace: Text::copy_of(alloc, "com.example")?,
            name: Text::copy_of(alloc, "greeter")?,
        },
        id: Text::copy_of(alloc, id)?,
    })
}

/// Puts a letter of split 0 with a string: its id, and the bytes of its value with escapes.
fn put(alloc: Global, mail: &mut Mail, rest: &str) -> Result<String, Failure> {
    let (id, value) = rest.split_once(':').ok_or(Failure::Row)?;
    let letter = Letter {
        sender: Sender::Split(0),
        target: address(alloc, id)?,
        argument: TypedValue {
            typename: Text::copy_of(alloc, "io.statefun.types/string")?,
            has_value: true,
            value: Bytes::copy_of(alloc, text_of(alloc, value)?.as_bytes())?,
        },
    };
    match mail.put(letter) {
        Ok(()) => told(alloc, "put"),
        Err(_) => Err(Failure::OutOfMemory),
    }
}

/// Opens a batch: the id, and the limits of letters, of bytes and for the head.
fn open(alloc: Global, mail: &mut Mail, rest: &str) -> Result<String, Failure> {
    let (id, numbers) = rest.split_once(':').ok_or(Failure::Row)?;
    let (letters, sizes) = numbers.split_once(':').ok_or(Failure::Row)?;
    let (most, head) = sizes.split_once(':').ok_or(Failure::Row)?;
    let limits = Limits {
        max_letters: letters.parse::<u32>()?,
        max_bytes: most.parse::<u64>()?,
        head_bytes: head.parse::<u64>()?,
    };
    if limits.max_letters == 0 {
        return Err(Failure::Row);
    }
    opened(alloc, mail, id, &limits)
}

fn opened(alloc: Global, mail: &mut Mail, id: &str, limits: &Limits) -> Result<String, Failure>
    requires { 1 ≤ limits.now.max_letters }
{
    let address = address(alloc, id)?;
    match mail.open_batch(&address, limits) {
        Ok(Some(batch)) => values(alloc, "opened", batch.letters.as_slice()),
        Ok(None) => told(alloc, "none"),
        Err(BatchFault::TooLarge { size, limit }) => {
            Ok(format!(in alloc; "too large {size} limit {limit}")?)
        }
        Err(BatchFault::OutOfMemory) => Err(Failure::OutOfMemory),
    }
}

/// A word, and the ids and the values of letters.
fn values(alloc: Global, word: &str, letters: &[Letter]) -> Result<String, Failure> {
    let mut text = String::from_str(alloc, word)?;
    for letter in letters {
        let shown = shown(alloc, letter)?;
        text.push_str(shown.as_str())?;
    }
    Ok(text)
}

/// A letter's id, and its value in hexadecimal digits.
fn shown(alloc: Global, letter: &Letter) -> Result<String, Failure> {
    let id = letter.target.id.as_str();
    let mut text = format!(in alloc; " {id}:")?;
    for byte in letter.argument.value.as_slice() {
        let byte = *byte;
        let digits = format!(in alloc; "{byte:02x}")?;
        text.push_str(digits.as_str())?;
    }
    Ok(text)
}

fn take(alloc: Global, mail: &mut Mail, id: &str) -> Result<String, Failure> {
    let address = address(alloc, id)?;
    if mail.is_in_flight(&address) {
        mail.take_batch(&address);
        return told(alloc, "taken");
    }
    told(alloc, "no batch")
}

fn give_back(alloc: Global, mail: &mut Mail, id: &str) -> Result<String, Failure> {
    let address = address(alloc, id)?;
    if mail.is_in_flight(&address) {
        mail.return_batch(&address);
        return told(alloc, "returned");
    }
    told(alloc, "no batch")
}

fn ready(alloc: Global, mail: &Mail) -> Result<String, Failure> {
    match mail.ready() {
        Some(address) => {
            let id = address.id.as_str();
            Ok(format!(in alloc; "ready {id}")?)
        }
        None => told(alloc, "none ready"),
    }
}

fn letters(alloc: Global, mail: &Mail) -> Result<String, Failure> {
    let letters = mail.letters()?;
    values(alloc, "letters", letters.as_slice())
}
