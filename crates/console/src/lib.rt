// What both programs do with their arguments, with orders and what is shown, and with standard input and standard output.

#![tactic(auto)]

mod arguments;
mod forms;
mod orders;
mod showing;
mod views;

pub use arguments::{Wanted, read_arguments};
pub use forms::{Form, write_end, write_sent};
pub use orders::{follow, messages};
pub use showing::write_tables;
use std::io::{BufRead, BufReader, IsTerminal, Write};
use std::process::ExitCode;
pub use views::status;

// The kit that the programs are proved with, as `rt version` prints it.
const KIT: &str = "rattle-kit-13f logic dac8208d650f15bf";

// Answers lines one by one.
pub trait Player {
    // What this line, which has no newline, leads to is appended to `out` as text.
    fn answer(&mut self, line: &[u8], out: &mut String) -> anyhow::Result<()>;
}

// Says how the program is used, and nothing else; the status with which it ends is 1.
pub fn wrong_arguments(rt: &HostRuntime, usage: &str) -> anyhow::Result<ExitCode> {
    eprintln!(rt; "{usage}")?;
    Ok(ExitCode::FAILURE)
}

/// Prints the help; the status with which the program ends is 0.
pub fn help(rt: &HostRuntime, help: &str) -> anyhow::Result<ExitCode> {
    print!(rt; "{help}")?;
    Ok(ExitCode::SUCCESS)
}

/// Prints which program this is, and the kit that it is proved with; the status is 0.
pub fn version(rt: &HostRuntime, program: &str) -> anyhow::Result<ExitCode> {
    println!(rt; "{program} of Rillwyfan")?;
    println!(rt; "{KIT}")?;
    Ok(ExitCode::SUCCESS)
}

// What is shown before each line that a person types.
fn prompt(rt: &HostRuntime) -> anyhow::Result<()> {
    let mut output = rt.stdout();
    output.write_all(b"> ")?;
    Ok(output.flush()?)
}

/// Plays standard input to its end. What a line leads to is written before the next is read, so that a person or a pipe may wait for it.
/// A person at a terminal is shown a prompt, if the program has one.
pub fn play<P: Player>(rt: &HostRuntime, player: &mut P, prompts: bool) -> anyhow::Result<()> {
    let heap = rt.alloc();
    let mut input = BufReader::new(heap, rt.stdin())?;
    let mut output = rt.stdout();
    let prompts = prompts && rt.stdin().is_terminal() && output.is_terminal();
    let mut line = Vec::new(heap);
    let mut out = String::new(heap);
    // counted, since a loop has to end; one buffer serves every line, where `split` takes a new one for each
    for _ in 0..u64::MAX {
        line.clear();
        if prompts {
            prompt(rt)?;
        }
        if input.read_until(b'\n', &mut line)? == 0 {
            break;
        }
        out.clear();
        player.answer(text::chomp(&line), &mut out)?;
        if !out.is_empty() {
            output.write_all(out.as_bytes())?;
            output.flush()?;
        }
    }
    if prompts {
        // what a shell prints next begins a line of its own
        output.write_all(b"\n")?;
    }
    Ok(())
}
