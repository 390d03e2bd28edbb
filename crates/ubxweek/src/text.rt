// Bytes, words and settings as text.
use layer::Setting;
use reply::{Message, Reading};
use std::fmt;

#[derive(Clone, Copy)]
pub struct Bytes<'a>(pub &'a [u8]);

impl<'a> fmt::Display for Bytes<'a> {
    fn fmt<W: fmt::Write>(&self, f: &mut fmt::Formatter<W>) -> fmt::Result {
        for byte in self.0 {
            write!(f, " {byte:02x}")?;
        }
        Ok(())
    }
}

#[derive(Clone, Copy)]
pub struct Words<'a>(pub &'a [u32]);

impl<'a> fmt::Display for Words<'a> {
    fn fmt<W: fmt::Write>(&self, f: &mut fmt::Formatter<W>) -> fmt::Result {
        if self.0.is_empty() {
            return f.write_str(" none");
        }
        for word in self.0 {
            write!(f, " {word:08x}")?;
        }
        Ok(())
    }
}

// A key, and what is held under it.
#[derive(Clone, Copy)]
pub struct Held {
    pub key: u32,
    pub value: Option<u64>,
}

impl fmt::Display for Held {
    fn fmt<W: fmt::Write>(&self, f: &mut fmt::Formatter<W>) -> fmt::Result {
        let key = self.key;
        match self.value {
            Some(value) => write!(f, " {key:08x} = {value}"),
            None => write!(f, " {key:08x} none"),
        }
    }
}

impl From<Setting> for Held {
    fn from(setting: Setting) -> Held {
        Held {
            key: setting.key,
            value: Some(setting.value),
        }
    }
}

// What the receiver's message says; the pairs of values are told elsewhere.
#[derive(Clone, Copy)]
pub struct Said<'a>(pub Reading<'a>);

impl<'a> fmt::Display for Said<'a> {
    fn fmt<W: fmt::Write>(&self, f: &mut fmt::Formatter<W>) -> fmt::Result {
        match self.0.message {
            Message::Ack { class, id } => write!(f, "ack of {class:02x} {id:02x}"),
            Message::Nak { class, id } => write!(f, "nak of {class:02x} {id:02x}"),
            Message::Values {
                layer,
                position,
                ..
            } => write!(f, "values of layer {layer} from position {position}"),
            Message::Other(_) => f.write_str("another frame"),
        }
    }
}
