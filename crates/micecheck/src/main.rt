// The program: reads formula.cnf and trace.bin in the current folder, and prints the counts and the verdict. What it prints is
// lines::print's; here files are read and the bytes are written once.
#![tactic(auto)]

ghost use Rattle.std.specs.Prelude.{◌≡◌, ◌≤◌, length, take};
ghost use Rattle.meaning.specs.Limits.{small};
ghost use Rattle.meaning.specs.Promise.{Printed};

use std::io;
use std::io::Write;

// One byte more than the longest text, so that a text that is too long shows; two more than the longest trace file.
const FILE: usize = 65536;

// What is to be printed, at the buffer's start.
fn print(text: &[u8], trace: &[u8], buffer: &mut [u8]) -> usize
    ensures within { (result ≤ length buffer.new) × (result ≡ length (take result buffer.new)) }
    ensures printed { Printed small text.now trace.now buffer.old result buffer.new }
{
    lines::print(text, trace, buffer)
}

fn main(rt: HostRuntime) -> io::Result<()> {
    let mut text = [0u8; FILE];
    let text_bytes = files::load(&rt, "formula.cnf", &mut text);
    let mut trace = [0u8; FILE];
    let trace_bytes = files::load(&rt, "trace.bin", &mut trace);
    let mut buffer = [0u8; lines::MOST];
    let written = print(&text[..text_bytes], &trace[..trace_bytes], &mut buffer);
    io::writer(&rt).write_all(&buffer[..written])
}
