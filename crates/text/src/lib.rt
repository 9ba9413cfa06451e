// The text language of the programs: words, decimal numbers, hexadecimal, the lines that are made of them, and what is printed.

#![tactic(auto)]

mod arguments;
mod calls;
mod hex;
mod lines;
mod numbers;
mod output;
mod refusals;
mod status;
mod words;

pub use arguments::{Argument, read_argument};
pub use calls::{Command, read_call, read_command};
pub use hex::{read_hex, write_hex};
pub use lines::{Order, Play, Request, View, read_line, read_play};
pub use numbers::decimal_value;
pub use output::{chomp, write_done, write_message, write_send};
pub use refusals::{refusal_name, write_named_refusal, write_refusal};
pub use status::{Status, write_status};
