//! Damages a good problem file in one way after another, and prints what is said of each.
#![tactic(auto)]

mod cases;

use cases::Case;
use report::check;
use std::alloc::{AllocError, Global};

/// Puts records of one length behind the words.
fn append<const N: usize>(words: &mut Vec<u32>, records: &[[u32; N]]) -> Result<(), AllocError> {
    for record in records {
        words.extend_from_slice(record)?;
    }
    Ok(())
}

/// The words of the good file.
fn good(heap: Global) -> Result<Vec<u32>, AllocError> {
    let mut words = Vec::from_slice(heap, &cases::HEADER)?;
    append(&mut words, &cases::TASKS)?;
    append(&mut words, &cases::WINDOWS)?;
    append(&mut words, &cases::DEPENDENCIES)?;
    append(&mut words, &cases::EXCLUSIONS)?;
    Ok(words)
}

/// The good file, with the value of each case in the place of its word.
fn damaged(heap: Global, cases: &[Case]) -> Result<Vec<u8>, AllocError> {
    let mut words = good(heap)?;
    for (_, index, value) in cases {
        if let Some(word) = words.get_mut(*index) {
            *word = *value;
        }
    }
    words::encode(heap, &words)
}

/// The words of the largest file: the windows of a processor follow one another tick by tick.
fn largest(heap: Global) -> Result<Vec<u32>, AllocError> {
    let mut words = Vec::from_slice(heap, &cases::LARGEST)?;
    append(&mut words, &[cases::LARGEST_TASK; 64])?;
    for window in 0..64 {
        let begin = window % 16;
        append(&mut words, &[[window / 16, 7, begin, begin + 1]])?;
    }
    append(&mut words, &[cases::LARGEST_DEPENDENCY; 256])?;
    append(&mut words, &[cases::LARGEST_EXCLUSION; 128])?;
    Ok(words)
}

/// Prints what is said of a file.
fn say(rt: &HostRuntime, title: &str, file: &[u8]) -> anyhow::Result<()> {
    let line = check::line(rt.alloc(), file)?;
    println!(rt; "{title}: {line}")?;
    Ok(())
}

/// Prints what is said of the good file with one word replaced.
fn single(rt: &HostRuntime, case: &Case) -> anyhow::Result<()> {
    say(rt, case.0, &damaged(rt.alloc(), &[*case])?)
}

/// Prints what is said of the good file with two words replaced.
fn double(rt: &HostRuntime, first: &Case, second: &Case) -> anyhow::Result<()> {
    let title = format!(in rt.alloc(); "{}, {}", first.0, second.0)?;
    say(rt, &title, &damaged(rt.alloc(), &[*first, *second])?)
}

/// Prints what is said of the smallest file, cut off after each number of bytes.
fn truncated(rt: &HostRuntime) -> anyhow::Result<()> {
    let mut words = Vec::from_slice(rt.alloc(), &cases::SMALLEST)?;
    words.extend_from_slice(&cases::SMALLEST_TASK)?;
    let bytes = words::encode(rt.alloc(), &words)?;
    for length in 0..=bytes.len() {
        let title = format!(in rt.alloc(); "{length} bytes of the smallest file")?;
        say(rt, &title, &bytes[..length])?;
    }
    Ok(())
}

/// Prints what is said of the largest file.
fn whole(rt: &HostRuntime) -> anyhow::Result<()> {
    let bytes = words::encode(rt.alloc(), &largest(rt.alloc())?)?;
    let title = format!(in rt.alloc(); "the largest file, {} bytes", bytes.len())?;
    say(rt, &title, &bytes)
}

/// Prints what is said of the good file with zeros behind it, up to a length.
fn lengthened(rt: &HostRuntime, length: usize) -> anyhow::Result<()> {
    let mut bytes = damaged(rt.alloc(), &[])?;
    bytes.resize(length, 0)?;
    let title = format!(in rt.alloc(); "lengthened to {length} bytes")?;
    say(rt, &title, &bytes)
}

fn run(rt: &HostRuntime) -> anyhow::Result<()> {
    for case in &cases::SINGLE {
        single(rt, case)?;
    }
    for (first, second) in &cases::DOUBLE {
        double(rt, first, second)?;
    }
    truncated(rt)?;
    whole(rt)?;
    lengthened(rt, 16_384)?;
    lengthened(rt, 16_385)
}

fn main(rt: HostRuntime) -> anyhow::Result<()> {
    run(&rt)
}
