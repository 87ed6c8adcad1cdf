// A program: reads answers.bin in the current folder and prints the report over its answers. The file has numbers of eight bytes,
// the low byte first, as mice_check leaves them in its answer slices, one answer after another.
#![tactic(auto)]

use release::{Figures, ReportFault};
use std::io;

// The bytes of a number.
const NUMBER_BYTES: usize = 8;
// The bytes of the longest file.
const MOST_BYTES: usize = NUMBER_BYTES * release::MOST_PLACES;
// One byte more, so that a file that is too long shows.
const FILE: usize = MOST_BYTES + 1;

// The report over the bytes of a file: one that is too long or isn't whole numbers isn't whole answers.
fn report_of(bytes: &[u8]) -> Result<Figures, ReportFault> {
    let (chunks, rest) = bytes.as_chunks::<NUMBER_BYTES>();
    if release::MOST_PLACES < chunks.len() || !rest.is_empty() {
        return Err(ReportFault::AnswersForm);
    }
    let mut numbers = [0u64; release::MOST_PLACES];
    for (number, chunk) in numbers.iter_mut().zip(chunks) {
        *number = u64::from_le_bytes(*chunk);
    }
    release::report(&numbers[..chunks.len()])
}

// The report's lines.
fn print_figures(rt: &impl Print, figures: Figures) -> io::Result<()> {
    println!(rt; "accepted {}", figures.accepted)?;
    println!(rt; "refused {}", figures.refused)?;
    println!(rt;
        "smallest {} at {}",
        figures.smallest.total, figures.smallest.place
    )?;
    println!(rt;
        "largest {} at {}",
        figures.largest.total, figures.largest.place
    )?;
    println!(rt; "sum {}", figures.sum)
}

// The report, or the one line of a refusal, whose place is always 0.
fn print(rt: &impl Print, totals: Result<Figures, ReportFault>) -> io::Result<()> {
    match totals {
        Ok(figures) => print_figures(rt, figures),
        Err(fault) => println!(rt; "refused {} at 0", fault.number()),
    }
}

fn main(rt: HostRuntime) -> io::Result<()> {
    let mut bytes = [0u8; FILE];
    let size = files::load(&rt, "answers.bin", &mut bytes);
    print(&rt, report_of(&bytes[..size]))
}
