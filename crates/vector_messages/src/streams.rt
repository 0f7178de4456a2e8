// What the reader answers from message to message, in both layouts:
//
//   S stream   the place, the number and the step of each answer from the front on, up to the first step of 0
ghost use Rattle.std.specs.Prelude.{◌≡◌, IfOk, drop};
ghost use Rattle.message.specs.MessageReader.{read_of};

use message::{Answer, Layout};
use std::io;
use vector_records::print_number;

fn print_answer(rt: &impl Print, at: usize, answer: Answer) -> io::Result<()> {
    print_number(rt, at as u64)?;
    print_number(rt, answer.number as u64)?;
    print_number(rt, answer.step as u64)
}

// Prints the answer at a place, and gives its step.
fn print_at(rt: &impl Print, layout: Layout, stream: &[u8], at: usize) -> io::Result<usize>
    ensures { IfOk result (λ step. step ≡ (read_of layout (drop at stream.now)).step) }
{
    let answer = message::read(layout, fields::slice::rest(stream, at));
    print_answer(rt, at, answer)?;
    Ok(answer.step)
}

fn print_steps_in(rt: &impl Print, layout: Layout, stream: &[u8]) -> io::Result<()> {
    let mut at = 0;
    let mut step = print_at(rt, layout, stream, at)?;
    while 0 < step {
        at += step;
        step = print_at(rt, layout, stream, at)?;
    }
    Ok(())
}

pub fn print_steps(rt: &impl Print, stream: &[u8]) -> io::Result<()> {
    for layout in [Layout::New, Layout::Old] {
        print_steps_in(rt, layout, stream)?;
    }
    Ok(())
}
