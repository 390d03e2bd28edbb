// Scripts: each line is a command. A script sets up receivers, makes them and calls them.
//
// number.rt   numbers in text
// command.rt  the commands
// fault.rt    what is wrong with a line
// field.rt    the words behind a command
// host.rt     the commands of the host end
// reading.rt  a line, read into a command
// setup.rt    the parts that commands bring
#![tactic(auto)]

mod command;
mod fault;
mod field;
mod host;
mod number;
mod reading;
mod setup;

pub use command::{Choice, Command, Medium, OwnCall, Part, Place};
pub use fault::LineFault;
pub use field::{read_entry, read_need};
pub use host::{Asked, HostCommand};
pub use number::{
    read_byte, read_count, read_kind, read_layer, read_position, read_value, read_word,
};
pub use reading::read_line;
pub use setup::{Setup, chosen};
