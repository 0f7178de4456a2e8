// Lists what the reader answers to a stream of messages in the new layout (rules 3.6 and 8.3). It reads at most 65,536 bytes from its standard
// input, and prints a line for each answer from the front on: the place, the number and the step, in decimal digits. It ends after a step of 0.
#![tactic(auto)]

ghost use Rattle.std.specs.Prelude.{◌≡◌, IfOk, drop};
ghost use Rattle.message.specs.declared.Layout.TheVariants.{New};
ghost use Rattle.message.specs.MessageReader.{read_of};

use message::{Answer, Layout};
use std::io;

fn print_line(rt: &impl Print, at: usize, answer: Answer) -> io::Result<()> {
    let number = answer.number;
    let step = answer.step;
    println!(rt; "{at} {number} {step}")
}

// Prints the answer at a place, and gives its step.
fn list_at(rt: &impl Print, stream: &[u8], at: usize) -> io::Result<usize>
    ensures { IfOk result (λ step. step ≡ (read_of New (drop at stream.now)).step) }
{
    let answer = message::read(Layout::New, fields::slice::rest(stream, at));
    print_line(rt, at, answer)?;
    Ok(answer.step)
}

fn list(rt: &impl Print, stream: &[u8]) -> io::Result<()> {
    let mut at = 0;
    let mut step = list_at(rt, stream, at)?;
    while 0 < step {
        at += step;
        step = list_at(rt, stream, at)?;
    }
    Ok(())
}

fn main(rt: HostRuntime) -> io::Result<()> {
    let mut buffer = [0u8; 65536];
    let n = vector_records::read_full(&mut rt.stdin(), &mut buffer)?;
    println!(rt; "at answer step")?;
    list(&rt, &buffer[..n])
}
